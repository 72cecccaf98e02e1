// Whether a search is done within a gap.
ghost use Rattle.std.specs.Prelude.{◌≡◌, ◌↔◌, [], pos, IsTrue, MatchOption, Some};
ghost use Rattle.frac128.specs.Rational.{ℚ, int, ◌≤ℚ◌};
ghost use Rattle.lp_model.specs.Program.{Program, HasWholeObjective};
ghost use Rattle.branch_tree.specs.Leaves.{region_leaves};
ghost use Rattle.leaf_judging.specs.Choosing.{IsFirstCandidate};
ghost use Rattle.sound_searches.specs.Sound.{formulation_of};
ghost use Rattle.search_gaps.specs.Within.{IsGapTarget, AreLeavesWithin, CandidateReaches};
ghost use Rattle.tree_search.specs.Within.{IsGapLimit, IsGapReached};

use crate::searching::Ways;
use crate::sound::show_sound;
use frac128::Frac;
use leaf_dual::{LagValue, closes};
use leaf_judging::Candidate;
use tree_edit::Search;

/// What each leaf has to reach: the best kept point's value in least form less the gap, if a point is kept and the difference has room.
fn gap_target(search: &Search, gap: &Frac) -> Option<Frac>
    ensures { MatchOption result ((t : ℚ) → ¬ IsGapTarget search.now gap.now t) (λ t. IsGapTarget search.now gap.now t) }
{
    match search.target() {
        None => None,
        Some(best) => match best.sub(gap) {
            Ok(target) => Some(target),
            Err(_) => None,
        },
    }
}

/// Whether the open leaf has a number that reaches the target, rounded up in a whole objective.
fn reaches(first: &Candidate, target: &Frac, whole: bool) -> bool
    ensures { (M : Program) → (IsTrue whole ↔ HasWholeObjective M 1) → IsTrue result ↔ CandidateReaches M target.now first.now }
{
    match first.leaf_number {
        None => false,
        Some(number) => closes(&LagValue::Num(number), target, whole),
    }
}

/// Whether all leaves, open or closed, are within the gap of the best kept point. The open leaf that goes first decides it.
fn are_leaves_within(search: &Search, gap: &Frac, whole: bool, first: &Candidate) -> bool
    requires gap { int (pos 0) ≤ℚ gap.now }
    requires whole { IsTrue whole ↔ HasWholeObjective search.now.model 1 }
    requires first { IsFirstCandidate (formulation_of search.now) (region_leaves [] search.now.tree.root) (Some first.now) }
    ensures { IsTrue result ↔ AreLeavesWithin search.now gap.now }
{
    show_sound(search);
    match gap_target(search, gap) {
        None => false,
        Some(target) => reaches(first, &target, whole),
    }
}

/// Whether the search is done within the gap. Beside a ray none is.
pub(crate) fn is_done(
    search: &Search,
    ways: &Ways<'_>,
    gap: &Option<Frac>,
    whole: bool,
    first: &Candidate,
) -> bool
    requires gap { IsGapLimit gap.now }
    requires whole { IsTrue whole ↔ HasWholeObjective search.now.model 1 }
    requires first { IsFirstCandidate (formulation_of search.now) (region_leaves [] search.now.tree.root) (Some first.now) }
    ensures { IsTrue result ↔ IsGapReached ways.now gap.now search.now }
{
    show_sound(search);
    match ways {
        Ways::Rays(_) => false,
        Ways::Own => match gap {
            None => false,
            Some(gap) => are_leaves_within(search, gap, whole, first),
        },
    }
}
