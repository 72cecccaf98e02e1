// How far a search for a front may go.
ghost use Rattle.std.specs.Prelude.{◌≡◌};
ghost use Rattle.front_commands.specs.Answering.{front_limits};

use lp_model::NODE_LIMIT;
use tree_search::Limits;

/// So many results in all parts together, and so many simplex steps in each relaxation, by one worker.
pub fn front_limits(nodes: u64, pivots: u64) -> Limits
    ensures { result ≡ front_limits nodes pivots }
{
    Limits {
        nodes,
        pivots,
        tree: NODE_LIMIT,
        workers: 1,
        seed: 0,
        gap: None,
    }
}
