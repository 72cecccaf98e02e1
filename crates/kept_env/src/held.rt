// Which answer an environment holds, and which it may hold of a search that was worked.
ghost use Rattle.std.specs.Prelude.{◌≡◌};
ghost use Rattle.kept_env.specs.Worked.{held_beside, held_by};

use cert_text::Cert;
use frac128::Frac;
use front_text::FrontCert;
use lp_model::Point;
use search_answers::Answer;

/// Which answer an environment holds.
#[derive(Drop)]
pub enum Held {
    /// None: no search went to its end since the model was loaded or edited, since the search was trimmed or restored, or since the last one
    /// began to be worked.
    Nothing,
    /// That of the search that stands, which has no open leaf.
    Finished,
    /// That of the search that stands, whose leaves, open or closed, are all within this gap of its best kept point.
    Within(Frac),
    /// That the model is unbounded, by this ray and the incumbent, which the search keeps.
    Unbounded(Point),
    /// The front of the model, by this certificate. It says nothing of the search that stands.
    Front(FrontCert),
    /// That no point of the model is feasible, by this certificate, which says nothing of the search that stands.
    Infeasible(Cert),
}

/// That the model is unbounded is held with its ray.
fn held_beside(ray: Option<Point>) -> Held
    ensures { result ≡ held_beside ray }
{
    match ray {
        Some(ray) => Held::Unbounded(ray),
        None => Held::Nothing,
    }
}

/// Which answer may be held of a search that was worked and has shown this, with the ray beside which it was worked, if there was one: what
/// stopped, or wanted memory, is not held.
pub fn held_by(answer: &Answer, ray: Option<Point>) -> Held
    ensures { result ≡ held_by answer.now ray }
{
    match answer {
        Answer::Optimal { .. } | Answer::Infeasible { .. } => {
            drop(ray);
            Held::Finished
        }
        Answer::Within { gap, .. } => {
            drop(ray);
            Held::Within(*gap)
        }
        Answer::Unbounded { .. } => held_beside(ray),
        Answer::Stopped { .. } | Answer::Memory => {
            drop(ray);
            Held::Nothing
        }
    }
}
