//! What a dictionary says of a symbol, by the symbol's number.
ghost use Rattle.std.specs.Prelude.{◌≡◌, unwrap_or, slice_get};
ghost use Rattle.std.specs.Result.{result_map_both};
ghost use Rattle.ctf_model.specs.symbols.SymbolQuestions.{function_of, object_of};
ghost use Rattle.ctf_check.specs.CheckedView.{dictionary_of, lists_of};
ghost use Rattle.ctf_entries.specs.FunctionView.{signature};
ghost use Rattle.ctf_symbols.specs.Fitting.{Fits};
ghost use Rattle.ctf_symbols.specs.Kept.{last_bytes, sort_in};

use crate::map::SymbolMap;
use ctf_check::Checked;
use ctf_entries::{Signature, signature_of, type_in};
use ctf_model::{Fault, TypeNum, placeless};

/// The last `left` bytes of a section; all bytes if it has fewer.
fn ending(section: &[u8], left: u32) -> &[u8]
    ensures { result.now ≡ last_bytes left section.now }
{
    let at = section.len().saturating_sub(left as usize);
    &section[at..]
}

/// The class of the symbol with a number, if there is one: 1 an object, 2 a function.
pub(crate) fn sort_of(sym: &[u8], number: u32) -> Option<u8>
    ensures { result ≡ sort_in sym.now number }
{
    let number = number as usize;
    if number < sym.len() / 24 {
        Some(sym[24 * number + 4] % 16)
    } else {
        None
    }
}

impl SymbolMap {
    /// How many bytes of its section are left where a symbol's entry begins.
    fn bytes_left(&self, number: u32) -> u32
        ensures { result ≡ unwrap_or (slice_get self.now.lefts.items number) 0 }
    {
        match self.lefts.get(number as usize) {
            Some(left) => *left,
            None => 0,
        }
    }

    /// The type of the object with a number, from 0. Takes constant time.
    ///
    /// Refused as NoSymbol (34), NotData (35) and NoInfo (37), in this order.
    pub fn object(&self, dictionary: &Checked<'_>, number: u32) -> Result<TypeNum, Fault>
        requires fits { Fits (lists_of dictionary.now) self.now }
        ensures { result_map_both (λ t. t.0) (λ f. f) result
            ≡ object_of (dictionary_of dictionary.now) number }
    {
        let parts = dictionary.symbol_parts();
        let Some(sort) = sort_of(parts.sym, number) else {
            return Err(placeless(Fault::NO_SYMBOL));
        };
        if sort != 1 {
            return Err(placeless(Fault::NOT_DATA));
        }
        match type_in(ending(parts.objects, self.bytes_left(number))) {
            Some(found) => Ok(found),
            None => Err(placeless(Fault::NO_INFO)),
        }
    }

    /// The signature of the function with a number, from 0. Its arguments are borrowed. Takes
    /// constant time.
    ///
    /// Refused as NoSymbol (34), NotFunction (36) and NoInfo (37), in this order.
    pub fn function<'a>(
        &self,
        dictionary: &Checked<'a>,
        number: u32,
    ) -> Result<Signature<'a>, Fault>
        requires fits { Fits (lists_of dictionary.now) self.now }
        ensures { result_map_both signature (λ f. f) result
            ≡ function_of (dictionary_of dictionary.now) number }
    {
        let parts = dictionary.symbol_parts();
        let Some(sort) = sort_of(parts.sym, number) else {
            return Err(placeless(Fault::NO_SYMBOL));
        };
        if sort != 2 {
            return Err(placeless(Fault::NOT_FUNCTION));
        }
        let entry = ending(parts.functions, self.bytes_left(number));
        match signature_of(entry) {
            Some(found) => Ok(found),
            None => Err(placeless(Fault::NO_INFO)),
        }
    }
}
