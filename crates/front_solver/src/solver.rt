// What solves the inner models of a front.
ghost use Rattle.std.specs.Prelude.{◌≡◌, ℕ, Option, OnOk, OnErr, IfOk, IfErr, IsSome};
ghost use Rattle.lp_model.specs.Program.{Program};
ghost use Rattle.lp_model.specs.Edits.{edited, EditFits};
ghost use Rattle.search_answers.specs.declared.answers.Answer.{Answer as AnAnswer};
ghost use Rattle.model_edits.specs.Faults.{IsEditFault};
ghost use Rattle.cert_text.specs.declared.cert.Claim.{Claim};
ghost use Rattle.front_solver.specs.Truth.{IsTrueOf, IsStop, shown_claim, IsCertifiedAs};
ghost use Rattle.front_solver.specs.Stops.{AddsNoStop};

use cert_text::Cert;
use lp_model::{Edit, Model};
use model_edits::EditFault;
use search_answers::Answer;
use std::alloc::AllocError;

/// A model with one objective that can be edited and solved. Whatever it does, and wherever it does it, what it answers is
/// true of its model, an optimum's point has room for each step of its test, and a finished answer has a certificate that the checker
/// accepts.
pub trait Solver {
    /// The model that it has.
    ghost program: { Self → Program };

    /// What its last solve has shown of the model as it is, where that went to its end.
    ghost finished: { Self → Option Claim };

    /// A stop that it may answer, by its cause, of a model, and with at most so many results. No edit and no solve adds one.
    ghost stops: { Self → Program → ℕ → AnAnswer → Type 0 };

    /// The model that it has.
    fn model(&self) -> &Model
        ensures { result.now ≡ program self.now };

    /// Makes an edit of the model, or tells its first fault, or that there is no memory. A refused edit leaves the model.
    fn edit(&mut self, edit: Edit) -> Result<(), EditFault>
        ensures edited { OnOk result (program self.new ≡ edited (program self.old) edit) }
        ensures fits { OnOk result (EditFits (program self.old) edit) }
        ensures kept { OnErr result (program self.new ≡ program self.old) }
        ensures fault { IfErr result (λ f. IsEditFault (program self.old) edit f) }
        ensures steady { AddsNoStop (stops self.new) (stops self.old) };

    /// Solves the model, with at most this many results.
    fn solve(&mut self, nodes: u64) -> Answer
        ensures kept { program self.new ≡ program self.old }
        ensures true_of { IsTrueOf (program self.new) nodes result }
        ensures finished { finished self.new ≡ shown_claim result }
        ensures stopped { IsStop result → stops self.old (program self.old) nodes result }
        ensures steady { AddsNoStop (stops self.new) (stops self.old) };

    /// The certificate of what its last solve has shown.
    fn certificate(&self) -> Result<Cert, AllocError>
        requires { IsSome (finished self.now) }
        ensures { IfOk result (λ cert. IsCertifiedAs (program self.now) (finished self.now) cert) };
}
