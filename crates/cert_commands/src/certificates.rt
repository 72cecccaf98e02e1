// The certificate of a search that went to its end, or that found a point beside a ray; and of what an environment holds.
ghost use Rattle.std.specs.Prelude.{◌<◌, length, true, pos, IfOk, Ok};
ghost use Rattle.frac128.specs.Rational.{int, ◌≤ℚ◌};
ghost use Rattle.search_gaps.specs.Within.{AreLeavesWithin};
ghost use Rattle.model_points.specs.Answers.{IsFeasibilityAnswer};
ghost use Rattle.model_points.specs.Rays.{IsRayJudged};
ghost use Rattle.sound_searches.specs.Laws.{HasNoOpenLeaf};
ghost use Rattle.kept_env.specs.Env.{IsFrontProved, IsEmptinessProved};
ghost use Rattle.cert_commands.specs.Certificates.{IsCertificateText, IsWithinText, IsUnboundedTextBy, IsUnboundedText, IsFrontText, IsEmptinessText, IsCertAnswer};

use accepted_names::{accepted_names_law, front_names_law};
use cert_check::{accepted_law, verdict_law};
use cert_text::Cert;
use cert_writer::print_cert;
use frac128::Frac;
use front_check::{front_law, front_verdict_law};
use front_text::FrontCert;
use front_writer::print_front;
use kept_env::{Env, EnvFault, Held};
use lp_model::{Model, Point, show_model};
use std::alloc::{AllocError, Global};
use tree_cert::{
    certificate, certificate_within, names_law, unbounded_certificate, unbounded_names_law,
    within_names_law,
};
use tree_edit::Search;

/// The text of the certificate of a search without an open leaf.
fn certificate_text(alloc: Global, search: &Search) -> Result<Vec<u8>, AllocError>
    requires finished { HasNoOpenLeaf search.now }
    ensures { IfOk result (λ text. IsCertificateText search.now text.items) }
{
    let _sound = search.points();
    names_law();
    verdict_law();
    accepted_law();
    let cert = match certificate(alloc, search) {
        Ok(cert) => cert,
        Err(AllocError) => return Err(AllocError),
    };
    let text = print_cert(alloc, &cert);
    drop(cert);
    text
}

/// The text of the certificate of a search whose leaves are all within this gap.
fn within_text(alloc: Global, search: &Search, gap: &Frac) -> Result<Vec<u8>, AllocError>
    requires gap { int (pos 0) ≤ℚ gap.now }
    requires within { AreLeavesWithin search.now gap.now }
    ensures { IfOk result (λ text. IsWithinText search.now gap.now text.items) }
{
    let _sound = search.points();
    within_names_law();
    verdict_law();
    accepted_law();
    let cert = match certificate_within(alloc, search, gap) {
        Ok(cert) => cert,
        Err(AllocError) => return Err(AllocError),
    };
    let text = print_cert(alloc, &cert);
    drop(cert);
    text
}

/// The text of the certificate that a model is unbounded, by this point and this ray.
fn unbounded_text_by(
    alloc: Global,
    model: &Model,
    point: &Point,
    ray: &Point,
) -> Result<Vec<u8>, AllocError>
    requires point { IsFeasibilityAnswer model.now point.now (Ok true) }
    requires ray { IsRayJudged model.now ray.now (Ok true) }
    ensures { IfOk result (λ text. IsUnboundedTextBy model.now point.now ray.now text.items) }
{
    unbounded_names_law();
    verdict_law();
    accepted_law();
    let cert = match unbounded_certificate(alloc, model, point, ray) {
        Ok(cert) => cert,
        Err(AllocError) => return Err(AllocError),
    };
    let text = print_cert(alloc, &cert);
    drop(cert);
    text
}

/// The text of the certificate that the search's model is unbounded, by the incumbent and this ray.
fn unbounded_text(alloc: Global, search: &Search, ray: &Point) -> Result<Vec<u8>, AllocError>
    requires point { 0 < length search.now.points }
    requires ray { IsRayJudged search.now.model ray.now (Ok true) }
    ensures { IfOk result (λ text. IsUnboundedText search.now ray.now text.items) }
{
    let _sound = search.points();
    match search.incumbent() {
        None => unreachable!(),
        Some(point) => unbounded_text_by(alloc, search.model(), point, ray),
    }
}

/// The text of the certificate of a front, which the checker accepts for the model.
fn front_text(alloc: Global, model: &Model, cert: &FrontCert) -> Result<Vec<u8>, AllocError>
    requires { IsFrontProved model.now cert.now }
    ensures { IfOk result (λ text. IsFrontText model.now cert.now text.items) }
{
    show_model(model);
    front_verdict_law();
    front_law();
    front_names_law();
    print_front(alloc, cert)
}

/// The text of the certificate that no point is feasible, which the checker accepts for the model.
fn emptiness_text(alloc: Global, model: &Model, cert: &Cert) -> Result<Vec<u8>, AllocError>
    requires { IsEmptinessProved model.now cert.now }
    ensures { IfOk result (λ text. IsEmptinessText model.now cert.now text.items) }
{
    verdict_law();
    accepted_law();
    accepted_names_law();
    print_cert(alloc, cert)
}

/// The text of the certificate of the answer that is held.
///
/// # Errors
///
/// Where no model is loaded, or no answer is held; else only for want of memory.
pub fn held_certificate(alloc: Global, env: &Env) -> Result<Vec<u8>, EnvFault>
    ensures { IsCertAnswer env.now.search env.now.held result }
{
    let Some(search) = env.search() else {
        return Err(EnvFault::NoModel);
    };
    match env.held() {
        Held::Nothing => Err(EnvFault::NoAnswer),
        Held::Finished => match certificate_text(alloc, search) {
            Ok(text) => Ok(text),
            Err(AllocError) => Err(EnvFault::Memory),
        },
        Held::Within(gap) => match within_text(alloc, search, gap) {
            Ok(text) => Ok(text),
            Err(AllocError) => Err(EnvFault::Memory),
        },
        Held::Unbounded(ray) => match unbounded_text(alloc, search, ray) {
            Ok(text) => Ok(text),
            Err(AllocError) => Err(EnvFault::Memory),
        },
        Held::Front(cert) => match front_text(alloc, search.model(), cert) {
            Ok(text) => Ok(text),
            Err(AllocError) => Err(EnvFault::Memory),
        },
        Held::Infeasible(cert) => match emptiness_text(alloc, search.model(), cert) {
            Ok(text) => Ok(text),
            Err(AllocError) => Err(EnvFault::Memory),
        },
    }
}
