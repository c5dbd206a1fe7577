//! Names that are read before they are needed.
ghost use Rattle.std.specs.Prelude.{◌≡◌, ◌≤◌, ◌<◌, ◌+◌};

use crate::considered::behind_first;
use crate::symbol_strings::SymbolNames;
use ctf_sections::bytes::u32_at;

/// How many names are read ahead at once.
const AHEAD: usize = 64;

/// Whether the names of the next symbols are within 4,096 bytes, as far as the first and the last
/// symbol show. Names that follow each other are found soon without being read ahead.
fn are_near(sym: &[u8]) -> bool {
    if sym.len() < 24 * AHEAD {
        return false;
    }
    let last = u32_at(sym, 24 * (AHEAD - 1));
    last.wrapping_sub(u32_at(sym, 0)) >> 12 == 0
}

/// How many of the next symbols have names, up to the first that has none. Reads the first byte of
/// each name.
fn named_count(sym: &[u8], names: SymbolNames<'_>) -> u64
    ensures { result ≤ 64 }
{
    let mut rest = sym;
    for count in 0..AHEAD {
        if rest.len() < 24 {
            return count as u64;
        }
        match names.from(u32_at(rest, 0) as usize).first() {
            Some(0) | None => return count as u64,
            Some(_) => {}
        }
        rest = behind_first(rest);
    }
    AHEAD as u64
}

/// How many symbols to read before names are read ahead again.
fn count_ahead(sym: &[u8], names: SymbolNames<'_>) -> u64
    ensures { result ≤ 64 }
{
    if are_near(sym) {
        return AHEAD as u64;
    }
    named_count(sym, names)
}

/// Reads the first bytes of the next names at once, unless that was done up to a symbol that comes
/// later. If names are far apart, a processor waits for many no longer than for one.
///
/// Returns the number of the symbol at which to read ahead again. No answer depends on it.
#[inline(always)]
pub fn read_ahead(sym: &[u8], names: SymbolNames<'_>, number: u64, until: u64) -> u64
    ensures kept { number < until → result ≡ until }
    ensures new { until ≤ number → result ≤ number + 64 }
{
    if number < until {
        return until;
    }
    number.saturating_add(count_ahead(sym, names))
}
