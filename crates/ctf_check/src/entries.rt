//! The rules of symbols' entries: each function's entry is well formed, and each type that an entry
//! names exists.
ghost use Rattle.std.specs.Prelude.{◌≡◌, IfErr, OnOk, None, Some, if◌then◌else◌};
ghost use Rattle.std.specs.List.{list_any};
ghost use Rattle.std.specs.Option.{option_map, option_or};
ghost use Rattle.ctf_model.specs.symbols.Entries.{types_named};
ghost use Rattle.ctf_model.specs.symbols.Entries as info;
ghost use Rattle.ctf_model.specs.rules.References.{is_missing as missing};
ghost use Rattle.ctf_entries.specs.FunctionView.{signature};
ghost use Rattle.ctf_check.specs.Stages.{entries_fault};

use crate::references::Numbers;
use ctf_entries::{
    Considered, Signature, behind_function, behind_object, is_bad_entry, signature_of, type_in,
};
use ctf_model::{Fault, TypeNum};
use ctf_views::Args;

impl Numbers {
    /// Whether the type of an argument is missing.
    fn misses_argument(self, args: Args<'_>) -> bool
        ensures { result ≡ list_any (missing self.child self.count) args.entry }
    {
        for number in args {
            if self.is_missing(number) {
                return true;
            }
        }
        false
    }

    /// Whether the type of an object is missing.
    fn misses_object(self, said: Option<TypeNum>) -> bool
        ensures { result ≡ list_any (missing self.child self.count)
            (types_named (info.object (option_map (λ t. t.0) said))) }
    {
        match said {
            Some(number) => self.is_missing(number),
            None => false,
        }
    }

    /// Whether a type in the signature of a function is missing.
    fn misses_signature(self, said: Option<Signature<'_>>) -> bool
        ensures { result ≡ list_any (missing self.child self.count)
            (types_named (info.function (option_map signature said.entry))) }
    {
        match said {
            Some(info) => self.is_missing(info.ret) || self.misses_argument(info.args),
            None => false,
        }
    }
}

/// The place that was found before; else that of a symbol, if it breaks a rule.
fn or_here(found: Option<u64>, breaks: bool, number: u32) -> Option<u64>
    ensures { result ≡ option_or found (if breaks then Some number else None) }
{
    if found.is_none() && breaks {
        Some(number as u64)
    } else {
        found
    }
}

/// Checks the entries of considered symbols. A malformed entry is reported before a missing type,
/// wherever the two are. Reads each symbol and each entry once.
pub fn judge_entries(
    symbols: Considered<'_>,
    objects: &[u8],
    functions: &[u8],
    numbers: Numbers,
) -> Result<(), Fault>
    ensures ok { OnOk result (entries_fault numbers.child numbers.count symbols.entry
        objects.now functions.now ≡ None) }
    ensures err { IfErr result (λ f. entries_fault numbers.child numbers.count symbols.entry
        objects.now functions.now ≡ Some f) }
{
    let mut objects = objects;
    let mut functions = functions;
    let mut missing = None;
    for x in symbols {
        if x.symbol.is_object() {
            let misses = numbers.misses_object(type_in(objects));
            missing = or_here(missing, misses, x.number);
            objects = behind_object(objects);
            continue;
        }
        if is_bad_entry(functions) {
            return Err(Fault {
                code: Fault::BAD_FUNCS,
                place: x.number as u64,
            });
        }
        let misses = numbers.misses_signature(signature_of(functions));
        missing = or_here(missing, misses, x.number);
        functions = behind_function(functions);
    }
    match missing {
        Some(place) => Err(Fault {
            code: Fault::BAD_SYMBOL_TYPE,
            place,
        }),
        None => Ok(()),
    }
}
