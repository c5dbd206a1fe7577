//! CTF dictionaries: what they are, and which faults they can have.
//!
//! ```rust
//! use ctf_model::{Fault, Place, TypeNum, fault_name};
//!
//! /// Whether a number in a child dictionary names a type of its parent.
//! fn is_parents(number: u16) -> bool {
//!     match TypeNum(number).place(true) {
//!         Place::Parents(_) => true,
//!         _ => false,
//!     }
//! }
//!
//! /// The name of a refusal, as replies have it.
//! fn name_of(fault: Fault) -> &'static str {
//!     fault_name(fault.code)
//! }
//! ```
//!
//! A [`Fault`] is a code and a place. docs/FAULTS.md lists the codes and what the place of each
//! counts; `placeless` makes one whose place is 0. A [`TypeNum`] is a number as dictionaries have
//! it; a [`Place`] counts types from 0. The functions named by a sentence, such as
//! `records_are_a_cut`, do nothing: their contracts are laws of the definitions.
#![tactic(auto)]

mod bytes;
mod data_model;
mod faults;
mod kinds;
mod laws;
mod layers;
mod lists;
mod numbers;
mod rows;
mod sections;
mod symbols;

pub use bytes::{Bytes, LONGEST_PIECE, Piece};
pub use data_model::DataModel;
pub use faults::{Fault, fault_name, placeless};
pub use kinds::{Kind, kind_name};
pub use laws::{
    chains_are_short, drafts_are_sound, faultless_exactly_where_denoted, first_fault_is_the_least,
    members_stand_next, names_are_their_rules, no_record_begins_another,
    own_figures_are_their_rules, parents_figures_are_their_own, paths_are_their_rules,
    records_are_a_cut, records_spell_what_is_read, section_spells_one_list,
    sound_drafts_stay_under_their_parents, values_are_their_rules, written_bytes_denote,
    written_records_spell,
};
pub use layers::{Layer, Qualifier};
pub use lists::{Parts, no_parts};
pub use numbers::{Place, TypeNum};
pub use rows::{
    arguments_are_named, bytes_denote, bytes_have_faults, dictionaries_are_written, drafts_live,
    dumps_are, enumerators_and_labels_are_added, faults_have_codes, figures_are,
    figures_over_parents, imports_are_judged, kinds_denote, kinds_have_faults, lists_are_long,
    members_are_added, members_are_placed, names_are_found, names_are_spelled, names_are_written,
    names_over_parents, numbers_name, paths_lead, records_are_written, symbols_have_faults,
    symbols_tell, types_are_added, values_over_parents, values_show,
};
pub use sections::Section;
pub use symbols::SymbolClass;
