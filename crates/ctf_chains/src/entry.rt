//! What the table of depths has for a record.
ghost use Rattle.std.specs.Prelude.{◌≡◌, ◌≤◌};
ghost use Rattle.ctf_model.specs.rules.Chains.{longest_chain};
ghost use Rattle.ctf_chains.specs.Search.{entry_in};

/// The mark of a record that is being visited. It is greater than any budget.
pub(crate) const BUSY: u16 = u16::MAX;

/// What is known of a record, for a budget of steps.
#[derive(Clone, Copy)]
pub(crate) enum VisitState {
    /// Nothing yet.
    Unvisited,
    /// The length of the longest chain from it, which is within the budget.
    Depth(u16),
    /// The longest chain exceeds the budget, or the record is being visited: a chain that meets it
    /// again never ends.
    TooDeep,
}

/// What a number of the table means. One comparison recognizes a depth.
#[inline(always)]
pub(crate) fn entry_of(number: u16, budget: u16) -> VisitState
    requires { budget ≤ longest_chain }
    ensures { result ≡ entry_in budget number }
{
    let depth = number.wrapping_sub(1);
    if depth <= budget {
        return VisitState::Depth(depth);
    }
    if number == 0 {
        VisitState::Unvisited
    } else {
        VisitState::TooDeep
    }
}
