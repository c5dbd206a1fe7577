//! The symbols and the labels of a dictionary, in tables.
ghost use Rattle.std.specs.Prelude.{IfOk};
ghost use Rattle.ctf_check.specs.CheckedView.{lists_of};
ghost use Rattle.ctf_symbols.specs.Fitting.{Fits};

use crate::building::{SymbolItems, list};
use crate::by_name::program_texts;
use crate::items::label_items;
use ctf_check::Checked;
use ctf_entries::SymbolNames;
use ctf_order::{Order, Texts};
use std::alloc::{AllocError, Global};

/// The symbols of a dictionary by their numbers and by their names, and its labels by their names.
///
/// It keeps plain numbers and borrows nothing: four bytes for each symbol, and at most 16 for
/// each considered one and for each label.
#[derive(Drop)]
pub struct SymbolMap {
    /// How many bytes of its section are left where each symbol's entry begins.
    pub(crate) lefts: Vec<u32>,
    pub(crate) symbols: Order,
    pub(crate) labels: Order,
}

impl SymbolMap {
    /// The map of a dictionary. Reads each symbol and each entry once, each table of names once to
    /// find where names end, and at most 2,056 bytes of each name, and then sorts. While it runs,
    /// it takes at most 8 bytes more for each symbol, and then for each label.
    pub fn build(alloc: Global, dictionary: &Checked<'_>) -> Result<SymbolMap, AllocError>
        ensures { IfOk result (λ m. Fits (lists_of dictionary.now) m) }
    {
        let parts = dictionary.symbol_parts();
        let names = SymbolNames::new(parts.strs);
        let SymbolItems { lefts, items } = list(
            alloc,
            parts.sym,
            names,
            parts.objects,
            parts.functions,
        )?;
        let symbols = Order::build(alloc, &program_texts(parts.strs), items)?;
        let items = label_items(alloc, dictionary)?;
        let labels = Order::build(alloc, &Texts::Dictionary(dictionary.strings()), items)?;
        Ok(SymbolMap {
            lefts,
            symbols,
            labels,
        })
    }
}
