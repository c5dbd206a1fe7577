//! A graph of numbers, for the search, which knows nothing of types.
ghost use Rattle.std.specs.Prelude.{◌≡◌, ◌<◌, None, length};

use crate::words::Words;
use ctf_chains::{Graph, Ticks, first_deep};
use std::alloc::{AllocError, Global};
use std::marker::Brand;
use std::sync::ledger::{Blank, Ledger};

/// A graph whose records are rows of numbers; a number that is no row's leads nowhere.
#[derive(Drop)]
struct RowGraph {
    rows: Vec<Vec<usize>>,
}

impl<L: Ledger> Graph<L> for RowGraph {
    type Opened = usize;

    ghost use Rattle.std.specs.Prelude.{map, nat_lt, if◌then◌else◌, Some};
    ghost use Rattle.ctf_chains.specs.Places.{places_at};

    ghost places = { λ s. map
        (λ row. map (λ j. if nat_lt j (length s.rows.items) then Some j else None) row.items)
        s.rows.items };

    ghost places_of = { λ s i. places_at (map
        (λ row. map (λ j. if nat_lt j (length s.rows.items) then Some j else None) row.items)
        s.rows.items) i };

    fn len(&self) -> usize {
        self.rows.len()
    }

    fn open(&self, i: usize, work: &mut Ticks<L>) -> usize {
        work.tick();
        i
    }

    fn place_count(&self, opened: usize) -> usize {
        if opened < self.rows.len() {
            self.rows[opened].len()
        } else {
            0
        }
    }

    fn place(&self, opened: usize, k: usize, work: &mut Ticks<L>) -> Option<usize> {
        work.tick();
        let j = self.rows[opened][k];
        if j < self.rows.len() { Some(j) } else { None }
    }
}

/// The first row from which a chain is too long, and the cost of finding it, in a ledger of its
/// own.
fn searched_in<L: Ledger>(
    alloc: Global,
    rows: &RowGraph,
    blank: Blank,
) -> Result<(Option<usize>, u64), AllocError>
    requires name { blank.name ≡ L.name }
    requires parts { blank.parts ≡ L.parts }
    requires some { 0 < blank.parts }
{
    let mut work = Ticks::<L>::new(blank);
    let found = first_deep(alloc, rows, &mut work)?;
    Ok((found, work.count()))
}

/// The first row from which a chain is too long, and the cost of finding it. Only the last of the
/// 100 numbers of each row is given; the others lead nowhere.
pub fn search_rows(
    alloc: Global,
    words: &mut Words<'_>,
) -> Result<(Option<usize>, u64), AllocError> {
    let mut rows = Vec::new(alloc);
    for _ in 0..words.number::<u16>() {
        rows.push(vec![in alloc; 99, words.number()]?)?;
    }
    searched_in::<Brand>(alloc, &RowGraph { rows }, Blank::new(1))
}
