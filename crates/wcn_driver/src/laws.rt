// When a sweep comes to its end. The law is the contract of a function that does nothing.
ghost use Rattle.wcn_driver.specs.Laws.{SweptToEndLaw};

use front_solver::Solver;

/// Where both objectives are whole, all numbers of the parts have room and at no part the solver may stop with the results that
/// remain behind at most as many as are counted, a sweep answers the whole front, or that no point is feasible, or that there is no
/// memory.
pub fn swept_to_end_law<S: Solver>()
    ensures { (solver : S) → SweptToEndLaw (S.stops solver) }
{}
