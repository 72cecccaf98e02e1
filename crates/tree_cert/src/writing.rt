// The certificate of a finished search, that of a search within a gap, and that of a model with a ray.
ghost use Rattle.std.specs.Prelude.{◌≡◌, suc, true, pos, IfOk, length, Option, Some, Ok};
ghost use Rattle.frac128.specs.Rational.{int, ◌≤ℚ◌};
ghost use Rattle.lp_model.specs.Program.{Point, value};
ghost use Rattle.model_points.specs.Answers.{IsFeasibilityAnswer};
ghost use Rattle.model_points.specs.Rays.{IsRayJudged};
ghost use Rattle.sound_searches.specs.Laws.{HasNoOpenLeaf};
ghost use Rattle.sound_searches.specs.Sound.{IsSound, formulation_of};
ghost use Rattle.search_parts.specs.Points.{IsIncumbent};
ghost use Rattle.search_gaps.specs.Within.{AreLeavesWithin};
ghost use Rattle.cert_check.specs.Verdict.{IsVerdict};
ghost use Rattle.cert_text.specs.Whole.{IsCertificate};
ghost use Rattle.cert_text.specs.declared.cert.Claim.TheVariants.{Within, Unbounded};
ghost use Rattle.cert_check.specs.declared.verdict.Verdict.TheVariants.{Accepted};
ghost use Rattle.tree_cert.specs.private.Walked.{AreOfTree};
ghost use Rattle.tree_cert.specs.private.Parts.{HasPartsOf};
ghost use Rattle.tree_cert.specs.Certificates.{claim_of, point_numbers, IsProofOf, IsCertificateOf, IsCertificateWithin, unbounded_certificate};

use crate::names::{named_cuts, nonzero_numbers};
use crate::used::{renumbered_nodes, used_by};
use crate::walk::cert_nodes;
use cert_text::{Cert, CertNode, Claim, NamedCut};
use frac128::Frac;
use lp_model::{List, Model, Name, Point};
use std::alloc::{AllocError, Global};
use tree_edit::Search;

/// The incumbent's value, or that no point is feasible.
fn claim(search: &Search) -> Claim
    ensures { (best : Option Point) → IsIncumbent search.now.model search.now.points best → result ≡ claim_of search.now.model best }
{
    match search.target() {
        Some(value) => Claim::Optimal(search.model().sense().own_sense(&value)),
        None => Claim::Infeasible,
    }
}

/// The incumbent's value with a gap.
fn claim_within(search: &Search, gap: &Frac) -> Claim
    requires { AreLeavesWithin search.now gap.now }
    ensures { (best : Point) → IsIncumbent search.now.model search.now.points (Some best) → result ≡ Within gap.now (value search.now.model 1 best) }
{
    match search.target() {
        Some(value) => Claim::Within {
            gap: *gap,
            value: search.model().sense().own_sense(&value),
        },
        None => unreachable!(),
    }
}

/// The incumbent's numbers that are not 0.
fn point(alloc: Global, search: &Search) -> Result<List<(Name, Frac)>, AllocError>
    ensures { IfOk result (λ named. (best : Option Point) × (IsIncumbent search.now.model search.now.points best × (named ≡ point_numbers search.now.model best))) }
{
    let _sound = search.points();
    match search.incumbent() {
        Some(point) => nonzero_numbers(alloc, search.model(), point),
        None => Ok(List::new(alloc)),
    }
}

/// The nodes of the search's tree. They name the cuts that count by their places, from 1.
fn placed_nodes(alloc: Global, search: &Search) -> Result<List<CertNode>, AllocError>
    ensures { IfOk result (λ certs. AreOfTree (formulation_of search.now) suc search.now.tree.root certs) }
{
    let Ok(nodes) = search.tree().preorder() else {
        return Err(AllocError);
    };
    let certs = cert_nodes(alloc, search.model(), search.pool().rows(), &nodes);
    drop(nodes);
    certs
}

/// The cuts and the nodes of a certificate.
#[derive(Drop)]
struct Reasoning {
    cuts: List<NamedCut>,
    nodes: List<CertNode>,
}

/// The search's tree, and of its cuts that count those that a leaf's line names.
fn proof(alloc: Global, search: &Search) -> Result<Reasoning, AllocError>
    ensures { IfOk result (λ proof. IsProofOf search.now proof.cuts proof.nodes) }
{
    let _sound = search.points();
    let pool = search.pool().rows();
    let Ok(placed) = placed_nodes(alloc, search) else {
        return Err(AllocError);
    };
    let Ok(used) = used_by(alloc, pool.len(), placed.as_slice()) else {
        drop(placed);
        return Err(AllocError);
    };
    let Ok(nodes) = renumbered_nodes(alloc, &used.counts, placed.as_slice()) else {
        drop(used);
        drop(placed);
        return Err(AllocError);
    };
    drop(placed);
    let Ok(cuts) = named_cuts(alloc, search.model(), pool, &used.places) else {
        drop(nodes);
        drop(used);
        return Err(AllocError);
    };
    drop(used);
    Ok(Reasoning { cuts, nodes })
}

/// The certificate of a search with this claim.
fn certificate_of(alloc: Global, search: &Search, claim: Claim) -> Result<Cert, AllocError>
    ensures { IfOk result (λ cert. HasPartsOf search.now claim cert) }
{
    let Ok(point) = point(alloc, search) else {
        return Err(AllocError);
    };
    let Ok(found) = proof(alloc, search) else {
        drop(point);
        return Err(AllocError);
    };
    let ray = List::new(alloc);
    let Reasoning { cuts, nodes } = found;
    Ok(Cert {
        claim,
        point,
        ray,
        cuts,
        nodes,
    })
}

/// The certificate of a search without an open leaf. `check` accepts it for the search's model.
pub fn certificate(alloc: Global, search: &Search) -> Result<Cert, AllocError>
    requires finished { HasNoOpenLeaf search.now }
    ensures exact { IfOk result (λ cert. IsCertificateOf search.now cert) }
    ensures certificate { IfOk result IsCertificate }
    ensures accepted { IfOk result (λ cert. IsVerdict search.now.model cert (Accepted cert.claim)) }
{
    let _sound = search.points();
    let _lawful = search.model().rows();
    certificate_of(alloc, search, claim(search))
}

/// The certificate of a search whose leaves, open or closed, all close against the incumbent's value less a gap. `check` accepts it for the
/// search's model.
pub fn certificate_within(alloc: Global, search: &Search, gap: &Frac) -> Result<Cert, AllocError>
    requires gap { int (pos 0) ≤ℚ gap.now }
    requires within { AreLeavesWithin search.now gap.now }
    ensures exact { IfOk result (λ cert. IsCertificateWithin search.now gap.now cert) }
    ensures certificate { IfOk result IsCertificate }
    ensures accepted { IfOk result (λ cert. IsVerdict search.now.model cert (Accepted cert.claim)) }
{
    let _sound = search.points();
    let _lawful = search.model().rows();
    certificate_of(alloc, search, claim_within(search, gap))
}

/// The certificate that a model is unbounded, by a feasible point and a ray. `check` accepts it for the model.
pub fn unbounded_certificate(
    alloc: Global,
    model: &Model,
    point: &Point,
    ray: &Point,
) -> Result<Cert, AllocError>
    requires point { IsFeasibilityAnswer model.now point.now (Ok true) }
    requires ray { IsRayJudged model.now ray.now (Ok true) }
    ensures exact { IfOk result (λ cert. cert ≡ unbounded_certificate model.now point.now ray.now) }
    ensures certificate { IfOk result IsCertificate }
    ensures accepted { IfOk result (λ cert. IsVerdict model.now cert (Accepted Unbounded)) }
{
    let _lawful = model.rows();
    let Ok(point) = nonzero_numbers(alloc, model, point) else {
        return Err(AllocError);
    };
    let Ok(ray) = nonzero_numbers(alloc, model, ray) else {
        drop(point);
        return Err(AllocError);
    };
    let cuts = List::new(alloc);
    let nodes = List::new(alloc);
    Ok(Cert {
        claim: Claim::Unbounded,
        point,
        ray,
        cuts,
        nodes,
    })
}
