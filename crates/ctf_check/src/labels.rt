//! The labels of an accepted dictionary.
ghost use Rattle.std.specs.Prelude.{◌≡◌, ◌<◌, ◌^◌, length};
ghost use Rattle.ctf_model.specs.format.Header.{section};
ghost use Rattle.ctf_check.specs.CheckedView.{dictionary_of, lists_of};
ghost use Rattle.ctf_model.specs.declared.sections.Section.TheVariants.{SLabels};

use crate::checked::Checked;
use ctf_model::Section;
use ctf_views::{Labels, read_labels};

impl<'a> Checked<'a> {
    /// The bytes of its labels: for each, the reference to its name and its last type, four bytes
    /// each. Fewer than eight bytes at the end are ignored.
    pub fn label_bytes(&self) -> &'a [u8]
        ensures bytes { result.now ≡ section (lists_of self.now).ctf SLabels }
        ensures short { length result.now < 2 ^ 32 }
    {
        self.section(Section::SLabels)
    }

    /// Its labels. Their names are borrowed.
    pub fn labels(&self) -> Labels<'a>
        ensures { result ≡ (dictionary_of self.now).labels }
    {
        read_labels(self.label_bytes(), self.strings())
    }
}
