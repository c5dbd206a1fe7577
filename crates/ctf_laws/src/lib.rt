//! Laws over whole runs of a service: the invariants of each library, whatever is asked, and what
//! follows from them. Each is the contract of a function that does nothing.
//!
//! ```rust
//! use ctf_laws::numbers_are_given_once;
//!
//! /// The call makes the law known to what is proved of the function that has it.
//! fn knows_the_law() {
//!     numbers_are_given_once();
//! }
//! ```
//!
//! Proofs cite a law by the name of its function too. No call takes time or memory, and none is
//! refused.
#![tactic(auto)]

mod good;
mod plain;

pub use good::{
    answers_are_of_what_is_denoted, bytes_denote_what_was_added, libraries_stay_good, right_is_one,
    runs_reply_rightly, stages_are_judged,
};
pub use plain::{numbers_are_given_once, parents_stay, publications_stay};
