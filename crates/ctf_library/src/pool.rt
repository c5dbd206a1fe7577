//! Dictionaries that were opened last.
ghost use Rattle.std.specs.Prelude.{◌≡◌, ◌==◌, ◌⊎◌, ◌+◌, ◌≤◌, ◌<◌, ◌^◌, [], IfOk, IfErr, IfSome, OnOk, Ok, Some, None, is_some, length, not, option_copied, sum_by, true};
ghost use Rattle.ctf_check.specs.Stages.{fault_before_chains};
ghost use Rattle.ctf_library.specs.Pooling.{Holds, have_room, most_bytes, with_room};
ghost use Rattle.ctf_model.specs.opened.Sizes.{kept_bytes, parent_bytes};
ghost use Rattle.ctf_model.specs.opened.Steps.{created};
ghost use Rattle.ctf_open.specs.Quotas.{IsUncreated, fits_in};
ghost use Rattle.ctf_model.specs.rules.Faults.{first_fault};
ghost use Rattle.ctf_model.specs.format.OwnedLists.{lists_owned};
ghost use Rattle.ctf_model.specs.rules.Refusals.{out_of_memory};

use ctf_check::lent_lists;
use ctf_open::{EmptyDictionaries, Loaded, OpenDictionary, Room};
use ctf_protocol::{DataModel, Fault, Parts, placeless};
use std::alloc::Global;
use std::marker::Model;

/// The greatest number of dictionaries in a pool.
const MOST_HELD: usize = 16;

/// The greatest number of their bytes.
const MOST_BYTES: u128 = 268_435_456;

/// The last dictionaries that were opened, at most 16 and at most 268,435,456 bytes of them, the
/// oldest first.
///
/// Lists that are equal to those of a dictionary in the pool, for the same data model, are not
/// checked again: they get that dictionary, whoever opened it. New drafts share their empty
/// dictionaries too. No answer depends on what a pool has.
#[derive(Drop)]
pub struct Pool {
    alloc: Global,
    held: Vec<Loaded>,
    empty: EmptyDictionaries,
}

impl Model for Pool {
    ghost use Rattle.std.specs.Prelude.{◌≤◌, List, length, sum_by};
    ghost use Rattle.ctf_library.specs.Pooling.{most_bytes, most_cached};
    ghost use Rattle.ctf_model.specs.spaces.Kept.{Kept};
    ghost use Rattle.ctf_model.specs.opened.Sizes.{kept_bytes};

    ghost Value = { List Kept };

    ghost view = { λ p. p.held.items };

    ghost invariant = { λ p. (length p.held.items ≤ most_cached)
        × (sum_by kept_bytes p.held.items ≤ most_bytes) };
}

/// The bytes of dictionaries, if they are no more than a pool may have.
fn cached_bytes(held: &[Loaded]) -> u128
    requires { sum_by kept_bytes held.now ≤ most_bytes }
    ensures { result ≡ sum_by kept_bytes held.now }
{
    let mut bytes = 0;
    for loaded in held {
        bytes += loaded.bytes();
    }
    bytes
}

impl Pool {
    /// An empty pool.
    pub fn new(alloc: Global) -> Pool
        ensures { result ≡ [] }
    {
        Pool {
            alloc,
            held: Vec::new(alloc),
            empty: EmptyDictionaries::new(),
        }
    }

    /// Opens lists, for a data model, or gives their first fault with the lists, whatever the pool
    /// has.
    ///
    /// A new dictionary is put into the pool, and the oldest are dropped to make room. A dictionary
    /// that is too large is not put into it.
    pub fn open(&mut self, parts: Parts, model: DataModel) -> Result<Loaded, (Fault, Parts)>
        ensures ok { IfOk result (λ l. l ≡ record { lists = lists_owned parts; model = model }) }
        ensures exact_ok { OnOk result (first_fault (lists_owned parts) ≡ None) }
        ensures exact_err { IfErr result (λ e. (e.0 ≡ out_of_memory)
            ⊎ (first_fault (lists_owned parts) ≡ Some e.0)) }
        ensures late { IfErr result (λ e. (fault_before_chains (lists_owned parts) ≡ None)
            ⊎ (first_fault (lists_owned parts) ≡ Some e.0)) }
        ensures back { IfErr result (λ e. lists_owned e.1 ≡ lists_owned parts) }
        ensures held { (self.new ≡ self.old)
            ⊎ Holds self.old (record { lists = lists_owned parts; model = model }) self.new }
    {
        if let Some(held) = self.find(&parts, model) {
            let Ok(loaded) = held.share() else {
                return Err((placeless(Fault::MEMORY), parts));
            };
            return Ok(loaded);
        }
        let loaded = Loaded::build(self.alloc, parts, model)?;
        self.hold(&loaded);
        Ok(loaded)
    }

    /// A new draft, over a parent if there is one, updated with nothing in it, if there is room for
    /// it, whatever the pool has.
    pub(crate) fn create(
        &mut self,
        parent: Option<&Loaded>,
        parname: &[u8],
        parlabel: &[u8],
        model: DataModel,
        room: Option<Room>,
    ) -> Result<OpenDictionary, Fault>
        requires { is_some parent ≡ not (length parname.now == 0) }
        ensures ok { IfOk result (λ s.
            created (option_copied parent.entry) parname.now parlabel.now model ≡ Ok s) }
        ensures room { IfOk result (λ s. fits_in room (kept_bytes s.own
            + parent_bytes (option_copied parent.entry)) ≡ true) }
        ensures above { IfOk result (λ s. s.parent ≡ option_copied parent.entry) }
        ensures exact_err { IfErr result (λ f. (f ≡ out_of_memory) ⊎ IsUncreated
            (created (option_copied parent.entry) parname.now parlabel.now model) room f) }
        ensures held { self.new ≡ self.old }
    {
        OpenDictionary::create_sharing(
            self.alloc,
            &mut self.empty,
            parent,
            parname,
            parlabel,
            model,
            room,
        )
    }

    /// The dictionary with exactly these lists and this data model, if the pool has it.
    fn find(&self, parts: &Parts, model: DataModel) -> Option<&Loaded>
        ensures { IfSome result (λ l.
            (l.now ≡ record { lists = lists_owned parts.now; model = model })
            × (first_fault (lists_owned parts.now) ≡ None)) }
    {
        let lists = lent_lists(parts);
        for held in &self.held {
            if held.is_of(lists, model) {
                return Some(held);
            }
        }
        None
    }

    /// Whether there is room for one more dictionary of so many bytes.
    fn has_room(&self, bytes: u128) -> bool
        requires { bytes < 2 ^ 66 }
        ensures { result ≡ have_room bytes self.now }
    {
        self.held.len() < MOST_HELD && cached_bytes(&self.held) + bytes <= MOST_BYTES
    }

    /// Drops the oldest until there is room.
    fn make_room(&mut self, bytes: u128)
        requires { bytes ≤ most_bytes }
        ensures { self.new ≡ with_room bytes self.old }
    {
        let most = self.held.len();
        for _gone in 0..most {
            if self.has_room(bytes) {
                return;
            }
            self.held.remove(0);
        }
    }

    /// Puts a dictionary in place of the oldest. If memory for that is refused, it does not.
    fn hold(&mut self, loaded: &Loaded)
        ensures { Holds self.old loaded.now self.new }
    {
        let bytes = loaded.bytes();
        if bytes > MOST_BYTES {
            return;
        }
        self.make_room(bytes);
        let Ok(shared) = loaded.share() else {
            return;
        };
        if self.held.reserve(1).is_ok() {
            self.held.push_reserved(shared);
        }
    }
}
