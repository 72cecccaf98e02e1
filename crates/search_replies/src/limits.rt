// How far a search may go that a line asks for, and who works in it.
ghost use Rattle.std.specs.Prelude.{◌≡◌};
ghost use Rattle.search_replies.specs.Solve.{limits_of};

use command_words::SearchOptions;
use lp_model::NODE_LIMIT;
use tree_search::Limits;

/// How many workers a search may have.
pub const WORKER_LIMIT: u64 = 64;

/// How far a search with these options may go, and who works in it.
pub fn limits_of(options: SearchOptions) -> Limits
    ensures { result ≡ limits_of options }
{
    Limits {
        nodes: options.nodes,
        pivots: options.pivots,
        tree: NODE_LIMIT,
        workers: options.workers,
        seed: options.seed,
        gap: options.gap,
    }
}
