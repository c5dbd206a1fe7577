//! A slot of a session: an open dictionary under its number.
ghost use Rattle.std.specs.Prelude.{◌≡◌, None, Some};
ghost use Rattle.ctf_model.specs.spaces.Kept.{fault_over};
ghost use Rattle.ctf_open.specs.Fitting.{AreTablesOf};

use ctf_open::{Imported, Loaded, OpenDictionary};

/// An open dictionary under its number. Its parts may be shared with other slots, of other sessions
/// too.
#[derive(Drop)]
pub struct Slot {
    pub(crate) number: u32,
    pub(crate) dictionary: OpenDictionary,
}

impl Slot {
    ghost use Rattle.ctf_library.specs.SlotView.{slot_of};

    /// A dictionary under a number, without a parent.
    pub(crate) fn of(number: u32, own: Loaded) -> Slot
        ensures { slot_of result
            ≡ record { number = number; kept = own; parent = None; draft = None } }
    {
        Slot {
            number,
            dictionary: OpenDictionary::of(own),
        }
    }

    /// Takes a parent that was checked, with its tables over this parent.
    pub(crate) fn adopt(&mut self, imported: Imported)
        requires undrafted { (slot_of self.old).draft ≡ None }
        requires fits { fault_over (slot_of self.old).kept imported.parent ≡ None }
        requires made { AreTablesOf (slot_of self.old).kept (Some imported.parent)
            imported.tables.value }
        ensures slot { slot_of self.new
            ≡ record (slot_of self.old) { parent = Some imported.parent } }
        ensures number { self.new.number ≡ self.old.number }
    {
        self.dictionary.adopt(imported);
    }
}
