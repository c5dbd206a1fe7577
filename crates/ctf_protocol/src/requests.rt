//! What a session may request.

use crate::additions::Addition;
use crate::creations::Creation;
use crate::publications::PublicationName;
use crate::questions::Question;
use crate::slots::SlotNumber;
use ctf_model::{DataModel, Piece};

/// The list that a part belongs to.
#[derive(Clone, Copy, Debug, PartialEq, Eq)]
pub enum ListName {
    Ctf,
    Sym,
    Str,
}

/// What is done to a draft.
#[derive(Drop)]
pub enum DraftStep {
    /// Adds to it.
    Add(Addition),
    /// Makes all that it holds the dictionary of its slot.
    Update,
    /// Drops what was added since its last update.
    Discard,
}

/// A request that may change the session's library, or whose check needs memory.
#[derive(Drop)]
pub enum Change {
    /// Adds bytes to a staged list.
    Part {
        section: ListName,
        bytes: Piece,
    },
    /// Checks the staged lists.
    Check,
    /// Makes a slot of the staged lists, for programs of a data model.
    Open {
        model: DataModel,
    },
    /// Empties the staged lists.
    Clear,
    /// Closes all slots and clears the stage.
    Reset,
    /// Closes a slot.
    Close {
        d: SlotNumber,
    },
    /// Gives a slot the dictionary of another one as its parent.
    Import {
        d: SlotNumber,
        parent: SlotNumber,
    },
    /// Gives the dictionary of a slot a name, under which any session may take it.
    Publish {
        d: SlotNumber,
        name: PublicationName,
    },
    /// Withdraws what the session has published under a name.
    Withdraw {
        name: PublicationName,
    },
    /// Makes a slot of what a session has published.
    Take {
        owner: u32,
        name: PublicationName,
    },
    /// Makes a slot of a new draft.
    Create(Creation),
    /// Makes a step of the draft of a slot.
    Draft {
        d: SlotNumber,
        step: DraftStep,
    },
}

/// A request of a session. The types of its fields keep their ranges.
#[derive(Drop)]
pub enum Request {
    Changes(Change),
    /// A question to a slot; it changes nothing.
    Asks { d: SlotNumber, question: Question },
}
