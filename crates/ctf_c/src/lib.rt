//! The calls for C: on dictionaries, and on a whole service in process. The header is
//! clients/c/ctfd.h.
//!
//! ```c
//! /* How many bytes a type of a dictionary has; 0 where it has none of the name. */
//! uint64_t size_of(const uint8_t *ctf, size_t ctf_len, const char *name, size_t name_len)
//! {
//!     struct ctfd types = CTFD_NONE;
//!     uint64_t place, bytes = 0;
//!     uint16_t t;
//!     if (ctfd_open(&types, ctf, ctf_len, "", 0, "", 0, false, false, false, &place) == CTFD_OK &&
//!         ctfd_find(&types, name, name_len, &t) == CTFD_OK)
//!         ctfd_size(&types, t, &bytes);
//!     ctfd_close(&types);
//!     return bytes;
//! }
//! ```
//!
//! A call returns `CTFD_OK`, or 1 + the code of a fault; docs/FAULTS.md says what `place` counts.
//! What is refused changes nothing and writes nothing but `place`. Sizes are in bytes, offsets in
//! bits. The comment at the top of the header says what a caller has to keep to.
#![tactic(auto)]

mod additions;
mod argument_rows;
mod dictionary_calls;
mod drafts;
mod encodings;
mod enumerators;
mod handle;
mod handles;
mod label_rows;
mod lists;
mod names;
mod opening;
mod out_pointers;
mod paths;
mod rows;
mod service;
mod symbol_rows;
mod symbols;
mod texts;
mod type_rows;
mod types;
mod visits;
