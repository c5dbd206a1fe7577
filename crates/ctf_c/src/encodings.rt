//! Exports that answer several numbers of a type.
ghost use Rattle.std.specs.Prelude.{◌≡◌, [], ◌∷◌};
ghost use Rattle.ctf_c.specs.Given.{Gives, ask};
ghost use Rattle.ctf_model.specs.opened.Questions.{array_answered, encoding_answered, path_answered, on_shape, shape_of};
ghost use Rattle.ctf_model.specs.opened.Open.{space_in};
ghost use Rattle.ctf_model.specs.spaces.Space.{space_type};

use crate::handle::Handle;
use crate::out_pointers::{dictionary_of, status};
use ctf_model::TypeNum;

/// How an integer or a float is encoded: `struct ctfd_encoding`.
#[repr(C)]
#[derive(Drop)]
pub struct GivenEncoding {
    pub encoding: u32,
    pub offset: u32,
    pub bits: u32,
}

/// The element type, the index type and the number of elements of an array: `struct ctfd_array`.
#[repr(C)]
#[derive(Drop)]
pub struct GivenArray {
    pub count: u32,
    pub contents: u16,
    pub index: u16,
}

/// How an integer or a float is encoded.
#[unsafe(no_mangle)]
pub extern "C" fn ctfd_encoding(handle: &mut Handle, t: u16, out: &mut GivenEncoding) -> u32
    ensures same { handle.new.held.dictionary ≡ handle.old.held.dictionary }
    ensures answer { Gives (ask handle.old.held.dictionary (λ s.
        on_shape encoding_answered (shape_of (space_type (space_in s) t)))) result
        (record { encoding = out.old.encoding; offset = out.old.offset; bits = out.old.bits })
        (record { encoding = out.new.encoding; offset = out.new.offset; bits = out.new.bits }) }
{
    let dictionary = dictionary_of!(handle);
    match dictionary.encoding(TypeNum(t)) {
        Ok(info) => {
            *out = GivenEncoding {
                encoding: u32::from(info.encoding),
                offset: u32::from(info.offset),
                bits: u32::from(info.bits),
            };
            0
        }
        Err(fault) => status(fault),
    }
}

/// The element type, the index type and the number of elements of an array.
#[unsafe(no_mangle)]
pub extern "C" fn ctfd_array(handle: &mut Handle, t: u16, out: &mut GivenArray) -> u32
    ensures same { handle.new.held.dictionary ≡ handle.old.held.dictionary }
    ensures answer { Gives (ask handle.old.held.dictionary (λ s.
        on_shape array_answered (shape_of (space_type (space_in s) t)))) result
        (record { contents = out.old.contents; index = out.old.index; count = out.old.count })
        (record { contents = out.new.contents; index = out.new.index; count = out.new.count }) }
{
    let dictionary = dictionary_of!(handle);
    match dictionary.array(TypeNum(t)) {
        Ok(info) => {
            *out = GivenArray {
                count: info.count,
                contents: info.contents.0,
                index: info.index.0,
            };
            0
        }
        Err(fault) => status(fault),
    }
}

/// The offset of the first member with a name in a struct or union, in bits, and the member's type.
#[unsafe(no_mangle)]
pub extern "C" fn ctfd_field(
    handle: &mut Handle,
    t: u16,
    name: &[u8],
    offset: &mut u64,
    to: &mut u16,
) -> u32
    ensures same { handle.new.held.dictionary ≡ handle.old.held.dictionary }
    ensures answer { Gives (ask handle.old.held.dictionary (λ s.
        path_answered (space_in s) (name.now ∷ []) t)) result
        (record { offset = offset.old; tnum = to.old })
        (record { offset = offset.new; tnum = to.new }) }
{
    let dictionary = dictionary_of!(handle);
    match dictionary.field(TypeNum(t), name) {
        Ok((at, found)) => {
            *offset = at;
            *to = found.0;
            0
        }
        Err(fault) => status(fault),
    }
}
