//! What a session may ask of the service, and the answers.
//!
//! ```rust
//! use ctf_protocol::{PlainQuestion, Question, Request, SlotNumber, TypeNum, TypeQuestion};
//!
//! /// The request for the size of a type in a slot; none where the number is no slot's.
//! fn size_request(d: u32, t: u16) -> Option<Request> {
//!     let d = SlotNumber::new(d)?;
//!     let question = Question::OfType {
//!         t: TypeNum(t),
//!         question: TypeQuestion::Plain(PlainQuestion::Size),
//!     };
//!     Some(Request::Asks { d, question })
//! }
//! ```
//!
//! These types say what is asked; `ctf_lines` reads them from lines, and `ctf_broker` and
//! `ctf_library` answer. Slots are numbered from 1. A value that is out of range cannot be made:
//! `new` answers `None` then. The functions named by a sentence do nothing: their contracts are
//! laws and worked rows of the definitions.
#![tactic(auto)]

mod addables;
mod additions;
mod creations;
mod laws;
mod models;
mod names;
mod publications;
mod questions;
mod requests;
mod rows;
mod session_laws;
mod slots;
mod words;

pub use addables::Addable;
pub use additions::{Addition, Declared, NewArray, NewKind, NewScalar, TypeNums};
pub use creations::Creation;
pub use laws::{keys_rise, texts_are_read_back, words_ask_what_is_open};
pub use models::{model_name, model_named};
pub use names::Names;
pub use publications::{LONGEST_NAME, PublicationName};
pub use questions::{HeldQuestion, PlainQuestion, Question, SlotQuestion, TypeQuestion, Window};
pub use requests::{Change, DraftStep, ListName, Request};
pub use rows::{
    dictionaries_count, drafts_are_among_slots, drafts_are_stepped, limits_hold, lines_ask,
    lines_say, meetings_are_asked, models_are_those_stated, output_is, parents_are_imported,
    paths_are_lines, questions_are_answered, questions_are_lines, refusals_are_in_order,
    session_runs, sessions_meet, slots_are_closed, texts_spell, words_are_written,
};
pub use session_laws::{
    each_session_runs_alone, refusals_are_in_the_table, refusals_change_nothing,
    requests_stay_within_quota, same_given_same_replies, steps_happen,
    unreached_sessions_do_not_matter,
};
pub use slots::SlotNumber;
pub use words::Word;

// The names of the format that users of the protocol need too.
pub use ctf_model::{
    Bytes, DataModel, Fault, Kind, LONGEST_PIECE, Parts, Piece, SymbolClass, TypeNum, fault_name,
    kind_name, no_parts, placeless,
};
