//! Symbols and labels, by their names.
ghost use Rattle.std.specs.Prelude.{◌≡◌, option_copied};
ghost use Rattle.std.specs.Option.{option_map};
ghost use Rattle.ctf_model.specs.symbols.Entries.{owner_of};
ghost use Rattle.ctf_model.specs.symbols.SymbolQuestions.{by_name, entry_named, label_of};
ghost use Rattle.ctf_check.specs.CheckedView.{dictionary_of, lists_of};
ghost use Rattle.ctf_order.specs.Naming.{naming};
ghost use Rattle.ctf_symbols.specs.Fitting.{Fits};
ghost use Rattle.ctf_symbols.specs.Kept.{class_in, sort_in};
ghost use Rattle.ctf_symbols.specs.Named.{program_names};
ghost use Rattle.ctf_symbols.specs.NamedView.{owner_named};

use crate::by_number::sort_of;
use crate::map::SymbolMap;
use crate::named::NamedSymbol;
use ctf_check::Checked;
use ctf_model::{Fault, SymbolClass, placeless};
use ctf_order::Texts;

/// Where the names of symbols are.
pub(crate) fn program_texts(strs: Option<&[u8]>) -> Texts<'_>
    ensures { naming result ≡ program_names (option_copied strs.entry) }
{
    match strs {
        Some(table) => Texts::Program(table),
        None => Texts::Program(&[]),
    }
}

/// The class of the symbol with a number, which is an object or a function.
fn class_of(sym: &[u8], number: u32) -> SymbolClass
    ensures { result ≡ class_in (sort_in sym.now number) }
{
    match sort_of(sym, number) {
        Some(1) => SymbolClass::Object,
        _ => SymbolClass::Function,
    }
}

impl SymbolMap {
    /// The first considered symbol with a name, by a binary search that takes no memory.
    pub fn symbol_named(&self, dictionary: &Checked<'_>, name: &[u8]) -> Option<NamedSymbol>
        requires fits { Fits (lists_of dictionary.now) self.now }
        ensures { option_map (owner_named name.now) result ≡ option_map owner_of
            (entry_named (dictionary_of dictionary.now).entries name.now) }
    {
        let parts = dictionary.symbol_parts();
        let number = self.symbols.find(&program_texts(parts.strs), name)?;
        let class = class_of(parts.sym, number);
        Some(NamedSymbol { number, class })
    }

    /// The number of the first considered symbol with a name. Refused as NoSymbol (34).
    pub fn by_name(&self, dictionary: &Checked<'_>, name: &[u8]) -> Result<u32, Fault>
        requires fits { Fits (lists_of dictionary.now) self.now }
        ensures { result ≡ by_name (dictionary_of dictionary.now) name.now }
    {
        match self.symbol_named(dictionary, name) {
            Some(found) => Ok(found.number),
            None => Err(placeless(Fault::NO_SYMBOL)),
        }
    }

    /// The last type of the first label with a name, by a binary search.
    ///
    /// Refused as NoLabel (38).
    pub fn label(&self, dictionary: &Checked<'_>, name: &[u8]) -> Result<u32, Fault>
        requires fits { Fits (lists_of dictionary.now) self.now }
        ensures { result ≡ label_of (dictionary_of dictionary.now) name.now }
    {
        let texts = Texts::Dictionary(dictionary.strings());
        let Some(label) = self.labels.find(&texts, name) else {
            return Err(placeless(Fault::NO_LABEL));
        };
        match dictionary.labels().last_at(label as usize) {
            Some(last) => Ok(last),
            None => Err(placeless(Fault::NO_LABEL)),
        }
    }
}
