// Which leaf is worked next.
ghost use Rattle.std.specs.Prelude.{◌≡◌};
ghost use Rattle.leaf_judging.specs.declared.closing.LeafNumber.TheVariants.{Lag};
ghost use Rattle.leaf_judging.specs.Choosing.{finite_number};
ghost use Rattle.leaf_judging.specs.Queued.{candidate_of};

use crate::closing::LeafNumber;
use branch_tree::LeafState;
use frac128::Frac;
use leaf_dual::LagValue;

/// An open leaf with its number, if it has one. The first of two is the one that is worked first: `None` is less than
/// each number.
#[derive(Clone, Copy, PartialEq, Eq, PartialOrd, Ord, Drop)]
pub struct Candidate {
    pub leaf_number: Option<Frac>,
    pub id: u64,
}

/// The number, if there is one.
pub fn finite_number(number: &LeafNumber) -> Option<Frac>
    ensures { result ≡ finite_number number.now }
{
    match number {
        LeafNumber::Empty => None,
        LeafNumber::Lag(value) => finite_number_of(value),
        LeafNumber::Wide(_) => None,
    }
}

/// The number, if there is one.
fn finite_number_of(value: &LagValue) -> Option<Frac>
    ensures { result ≡ finite_number (Lag value.now) }
{
    match value {
        LagValue::Minus => None,
        LagValue::Num(number) => Some(*number),
    }
}

/// A leaf with this number and id as a candidate, if it is open.
pub fn as_candidate(state: &LeafState, leaf_number: Option<Frac>, id: u64) -> Option<Candidate>
    ensures { result ≡ candidate_of state.now leaf_number id }
{
    match state {
        LeafState::IsClosed => None,
        LeafState::IsOpen => Some(Candidate { leaf_number, id }),
    }
}
