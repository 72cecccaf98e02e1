// What an inner model is solved to.
ghost use Rattle.wcn_driver.specs.private.Settled.{CanEnd, CanSettle, CountsWithin, IsPartEnd, IsSettled};

use crate::answers::ScalePlace;
use cert_text::Cert;
use frac128::Frac;
use front_solver::Solved;
use lp_model::{Point, StopWhy};
use search_answers::Answer;

/// The optimum of an inner model, and the results of all parts until then.
#[derive(Drop)]
pub(crate) struct Optimum {
    pub(crate) value: Frac,
    pub(crate) point: Point,
    pub(crate) cert: Cert,
    pub(crate) results: u64,
}

/// Why a sweep ends at a part. `results` counts those of all parts.
#[derive(Drop)]
pub(crate) enum Halt {
    /// The solver stopped.
    Stopped {
        why: StopWhy,
        results: u64,
        bound: Option<Frac>,
        best: Option<Frac>,
    },
    /// A number of the part has no room.
    Wide(ScalePlace),
    /// There is no memory.
    Memory,
}

/// What a part whose objective has an end is solved to. `results` counts those of all parts.
#[derive(Drop)]
pub(crate) enum PartEnd {
    /// There is an optimum.
    Best(Optimum),
    /// There is no feasible point.
    Infeasible { cert: Cert, results: u64 },
    /// The sweep ends.
    Halted(Halt),
}

/// The optimum, or that no point is feasible, or why neither is known.
pub(crate) fn part_end(solved: Solved, before: u64) -> PartEnd
    requires can { CanEnd solved.answer solved.cert }
    requires count { CountsWithin before solved.answer }
    ensures { IsPartEnd before solved result }
{
    let Solved { answer, cert } = solved;
    match answer {
        Answer::Optimal {
            value,
            point,
            results,
        } => match cert {
            Some(cert) => PartEnd::Best(Optimum {
                value,
                point,
                cert,
                results: before + results,
            }),
            None => unreachable!(),
        },
        Answer::Infeasible { results } => match cert {
            Some(cert) => PartEnd::Infeasible {
                cert,
                results: before + results,
            },
            None => unreachable!(),
        },
        Answer::Stopped {
            why,
            results,
            bound,
            best,
        } => {
            drop(cert);
            PartEnd::Halted(Halt::Stopped {
                why,
                results: before + results,
                bound,
                best,
            })
        }
        Answer::Memory => {
            drop(cert);
            PartEnd::Halted(Halt::Memory)
        }
        Answer::Within { .. } | Answer::Unbounded { .. } => unreachable!(),
    }
}

/// The optimum of a part that has a point, or why there is none.
pub(crate) fn settle(solved: Solved, before: u64) -> Result<Optimum, Halt>
    requires can { CanSettle solved.answer solved.cert }
    requires count { CountsWithin before solved.answer }
    ensures { IsSettled before solved result }
{
    match part_end(solved, before) {
        PartEnd::Best(optimum) => Ok(optimum),
        PartEnd::Halted(halt) => Err(halt),
        PartEnd::Infeasible { .. } => unreachable!(),
    }
}
