//! The entry of a function.
ghost use Rattle.std.specs.Prelude.{◌≡◌, ◌≤◌, ◌*◌, length, drop, false};
ghost use Rattle.std.specs.Option.{option_map};
ghost use Rattle.ctf_model.specs.symbols.Entries.{argument_count as argument_count_in, entry_len as entry_len_in, is_bad_entry as bad_entry, is_silent as silent, kind_number as kind_number_in, signature_in};
ghost use Rattle.ctf_entries.specs.FunctionView.{signature};

use crate::signature::Signature;
use ctf_model::TypeNum;
use ctf_sections::bytes::u16_at;
use ctf_views::arguments;

/// The kind in an entry.
fn kind_number(entry: &[u8]) -> u16
    requires { 2 ≤ length entry.now }
    ensures { result ≡ kind_number_in entry.now }
{
    u16_at(entry, 0) >> 11
}

/// The number of arguments in an entry.
fn argument_count(entry: &[u8]) -> usize
    requires { 2 ≤ length entry.now }
    ensures number { result ≡ argument_count_in entry.now }
    ensures short { result ≤ 1023 }
{
    (u16_at(entry, 0) & 1023) as usize
}

/// Whether the entry says nothing of the function.
fn is_silent(entry: &[u8]) -> bool
    requires { 2 ≤ length entry.now }
    ensures { result ≡ silent entry.now }
{
    kind_number(entry) == 0 && argument_count(entry) == 0
}

fn entry_len(entry: &[u8]) -> usize
    requires { 2 ≤ length entry.now }
    ensures { result ≡ entry_len_in entry.now }
{
    if is_silent(entry) {
        2
    } else {
        4 + 2 * argument_count(entry)
    }
}

/// Whether the entry at the front of some bytes has a wrong kind or runs past their end.
#[tactic(auto, using(crate::proofs::Telling::long_entry))]
pub fn is_bad_entry(functions: &[u8]) -> bool
    ensures { result ≡ bad_entry functions.now }
{
    if functions.is_empty() {
        return false;
    }
    if functions.len() < 2 {
        return true;
    }
    if functions.len() < entry_len(functions) {
        return true;
    }
    !is_silent(functions) && kind_number(functions) != 5
}

/// The bytes after the entry at their front.
#[tactic(auto, using(crate::proofs::Telling::good_entry))]
pub fn behind_function(functions: &[u8]) -> &[u8]
    requires good { bad_entry functions.now ≡ false }
    ensures { result.now ≡ drop (entry_len_in functions.now) functions.now }
{
    if functions.is_empty() {
        return functions;
    }
    let (_, behind) = functions.split_at(entry_len(functions));
    behind
}

/// The signature in the entry at the front of some bytes.
#[tactic(auto, using(crate::proofs::Telling::good_entry, crate::proofs::Telling::said_signature, crate::proofs::Telling::no_signature))]
pub fn signature_of(functions: &[u8]) -> Option<Signature<'_>>
    requires good { bad_entry functions.now ≡ false }
    ensures { option_map signature result ≡ signature_in functions.now }
{
    if functions.is_empty() {
        return None;
    }
    if is_silent(functions) {
        return None;
    }
    let (_, behind) = functions.split_at(4);
    Some(Signature {
        ret: TypeNum(u16_at(functions, 2)),
        args: arguments(behind, argument_count(functions)),
    })
}
