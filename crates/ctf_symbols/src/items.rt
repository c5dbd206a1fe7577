//! Symbols and labels, by where their names are.
ghost use Rattle.std.specs.Prelude.{◌≡◌, ◌≤◌, length, IfOk};
ghost use Rattle.std.specs.List.{enumerate_from};
ghost use Rattle.ctf_model.specs.format.Bytes.{u32_at as u32_said};
ghost use Rattle.ctf_model.specs.format.Name.{name};
ghost use Rattle.ctf_check.specs.CheckedView.{dictionary_of, tables_of};
ghost use Rattle.ctf_symbols.specs.Named.{AreItems, called_label};

use crate::rows::behind_label;
use ctf_check::Checked;
use ctf_order::NamedItem;
use ctf_sections::bytes::u32_at;
use std::alloc::{AllocError, Global};

/// The symbol with a number, at the front of some bytes, as an item.
pub(crate) fn symbol_item(sym: &[u8], number: u64) -> NamedItem
    requires there { 24 ≤ length sym.now }
    requires small { number ≤ 0xffffffff }
    ensures { result ≡ record { reference = u32_said sym.now 0; item = number } }
{
    NamedItem {
        reference: u32_at(sym, 0),
        item: number as u32,
    }
}

/// The labels of a dictionary, numbered from 0. No name is read.
pub(crate) fn label_items(
    alloc: Global,
    dictionary: &Checked<'_>,
) -> Result<Vec<NamedItem>, AllocError>
    ensures { IfOk result (λ items. AreItems (name (tables_of dictionary.now)) called_label
        (enumerate_from 0 (dictionary_of dictionary.now).labels) items.items) }
{
    let mut rest = dictionary.label_bytes();
    let mut items = Vec::with_capacity(alloc, rest.len() / 8)?;
    let mut item = 0;
    'labels: while rest.len() >= 8 {
        items.push(NamedItem {
            reference: u32_at(rest, 0),
            item,
        })?;
        rest = behind_label(rest);
        item += 1;
    }
    Ok(items)
}
