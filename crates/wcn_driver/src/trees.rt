// The trees of a front's certificate, out of the certificates of the inner models.
ghost use Rattle.std.specs.Prelude.{◌≡◌, ℤ, Some};
ghost use Rattle.frac128.specs.Rational.{int};
ghost use Rattle.lp_model.specs.Program.{Program};
ghost use Rattle.cert_text.specs.declared.cert.Claim.TheVariants.{Optimal};
ghost use Rattle.front_text.specs.Whole.{IsWholeTree};
ghost use Rattle.front_check.specs.Passing.{IsPassingTree};
ghost use Rattle.front_solver.specs.Truth.{IsCertifiedAs};

use cert_text::Cert;
use front_text::{FrontTree, TreeOf};

/// The tree of a certificate, which passes the judging for a model: it proves that no point has a value below the one that is claimed.
pub fn front_tree(of: TreeOf, cert: Cert) -> FrontTree
    ensures of { result.of ≡ of }
    ensures passes { (M : Program) (t : ℤ) → IsCertifiedAs M (Some (Optimal (int t))) cert → IsPassingTree (record { model = M; target = t }) result }
    ensures whole { (M : Program) (t : ℤ) → IsCertifiedAs M (Some (Optimal (int t))) cert → IsWholeTree result }
{
    let Cert {
        claim: _,
        point,
        ray,
        cuts,
        nodes,
    } = cert;
    drop(point);
    drop(ray);
    FrontTree { of, cuts, nodes }
}
