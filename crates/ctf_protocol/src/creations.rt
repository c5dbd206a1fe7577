//! New drafts.
ghost use Rattle.std.specs.Prelude.{◌≡◌, ◌==◌, not, length, is_some, IfSome, IfNone};

use crate::slots::SlotNumber;
use ctf_model::{DataModel, Piece};
use std::marker::Model;

/// A new draft: a parent, exactly if the parent's name is not empty; the names of the parent and of
/// its label; and a data model, if one is stated.
#[derive(Drop)]
pub struct Creation {
    parent: Option<SlotNumber>,
    parname: Piece,
    parlabel: Piece,
    model: Option<DataModel>,
}

impl Model for Creation {
    ghost use Rattle.std.specs.Prelude.{◌≡◌, ◌==◌, not, is_some, length};
    ghost use Rattle.ctf_protocol.specs.sessions.Creations.{Created};

    ghost Value = { Created };

    ghost view = { λ c. record {
      parent = c.parent;
      parname = c.parname;
      parlabel = c.parlabel;
      model = c.model;
    } };

    ghost invariant = { λ c. is_some c.parent ≡ not (length c.parname == 0) };
}

impl Creation {
    ghost use Rattle.ctf_protocol.specs.sessions.Creations.{creation};

    /// A new draft; `None` if it has a parent without a name, or a name without a parent.
    pub fn new(
        parent: Option<SlotNumber>,
        parname: Piece,
        parlabel: Piece,
        model: Option<DataModel>,
    ) -> Option<Creation>
        ensures { result ≡ creation parent parname parlabel model }
    {
        if parent.is_some() == parname.as_slice().is_empty() {
            return None;
        }
        Some(Creation {
            parent,
            parname,
            parlabel,
            model,
        })
    }

    /// The slot whose dictionary is the parent.
    pub fn parent(&self) -> Option<SlotNumber>
        ensures parent { result ≡ self.now.parent }
        ensures named { is_some result ≡ not (length self.now.parname == 0) }
    {
        self.parent
    }

    pub fn parname(&self) -> &[u8]
        ensures { result.now ≡ self.now.parname }
    {
        self.parname.as_slice()
    }

    /// The data model that is stated.
    pub fn model(&self) -> Option<DataModel>
        ensures { result ≡ self.now.model }
    {
        self.model
    }

    pub fn parlabel(&self) -> &[u8]
        ensures { result.now ≡ self.now.parlabel }
    {
        self.parlabel.as_slice()
    }
}
