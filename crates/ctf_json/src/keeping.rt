//! Stores values in a line.
ghost use Rattle.std.specs.Prelude.{◌≡◌, ◌<◌, ℕ, List, Some, None, true, cond, length, set};
ghost use Rattle.std.specs.Str.{bytes_eq};
ghost use Rattle.serde_json.specs.Find.{get as found_under};
ghost use Rattle.ctf_json.specs.Keys.{place_in, wanted_at};
ghost use Rattle.ctf_json.specs.Values.{IsNew, args_without, fits, keys, line_data, names_without, read_data, data_of};

use crate::keys::{COUNT, wanted_list};
use crate::line::{Fields, Line};
use crate::values::{Field, Read};
use crate::wanted::Wanted;

impl<'a> Line<'a> {
    /// A line without fields.
    #[inline]
    pub fn new() -> Line<'a>
        ensures { IsNew result }
    {
        Line {
            fields: Fields { all: [None; COUNT] },
            names: None,
            args: None,
        }
    }

    /// Stores a value at a key, in place of the value that is there.
    #[inline]
    pub(crate) fn keep(&mut self, key: &str, place: usize, value: Read<'a>)
        requires place { place_in key.now keys ≡ Some place }
        requires fits { fits (wanted_at key.now) value ≡ true }
        ensures { (q : List ℕ) → found_under q (line_data self.new)
            ≡ cond (bytes_eq key.now q) (Some (read_data value.entry))
            (found_under q (line_data self.old)) }
    {
        match value {
            Read::Field(field) => self.keep_at(key, place, field),
            Read::Texts(texts) => self.names = Some(texts),
            Read::Numbers(numbers) => self.args = Some(numbers),
        }
    }

    /// Stores a value that is no list at a key, in place of the value that is there.
    #[inline(always)]
    pub(crate) fn keep_at(&mut self, key: &str, place: usize, field: Field<'a>)
        requires { place_in key.now keys ≡ Some place }
        ensures { (q : List ℕ) → found_under q (line_data self.new)
            ≡ cond (bytes_eq key.now q) (Some (data_of field.entry))
            (found_under q (line_data self.old)) }
    {
        self.keep_field(place, field, wanted_list(key));
    }

    /// Stores a value that is no list.
    #[inline]
    fn keep_field(&mut self, place: usize, field: Field<'a>, wanted: Wanted)
        requires { place < 30 }
        ensures inside { place < length self.old.fields.all }
        ensures fields { self.new.fields.all ≡ set self.old.fields.all place (Some field.entry) }
        ensures names { self.new.names ≡ names_without wanted self.old.names }
        ensures args { self.new.args ≡ args_without wanted self.old.args }
    {
        self.fields.all[place] = Some(field);
        match wanted {
            Wanted::Texts => self.names = None,
            Wanted::Numbers => self.args = None,
            Wanted::Nothing => {}
        }
    }
}
