//! The entry of an object.
ghost use Rattle.std.specs.Prelude.{◌≡◌, drop};
ghost use Rattle.std.specs.Option.{option_map};
ghost use Rattle.ctf_model.specs.symbols.Entries.{object_type as type_said_in};

use ctf_model::TypeNum;
use ctf_sections::bytes::u16_at;

/// The type in the object's entry at the front of some bytes.
pub fn type_in(objects: &[u8]) -> Option<TypeNum>
    ensures { option_map (λ t. t.0) result ≡ type_said_in objects.now }
{
    if objects.len() < 2 {
        return None;
    }
    let number = u16_at(objects, 0);
    if number == 0 {
        None
    } else {
        Some(TypeNum(number))
    }
}

/// The bytes after the entry of an object.
#[tactic(auto, using(crate::proofs::Telling::drop_short))]
pub fn behind_object(objects: &[u8]) -> &[u8]
    ensures { result.now ≡ drop 2 objects.now }
{
    if objects.len() < 2 {
        return &[];
    }
    let (_, behind) = objects.split_at(2);
    behind
}
