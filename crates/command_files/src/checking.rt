// The checking of a certificate's file against a model's.
ghost use Rattle.std.specs.Prelude.{◌≡◌, ◌≤◌, ◌++◌, true, false, [], IfOk};
ghost use Rattle.command_words.specs.Names.{is_file_name};
ghost use Rattle.cert_text.specs.Whole.{IsCertificate};
ghost use Rattle.cert_check.specs.Verdict.{IsVerdict};
ghost use Rattle.front_text.specs.Whole.{IsFrontCertificate};
ghost use Rattle.front_text.specs.Reading.{IsAnyCertificate};
ghost use Rattle.command_files.specs.Checking.{ReadsCert, accepted_value_text, accepted_within_text, claim_text, rejected_text, wide_text, verdict_text, accepted_front_text, front_verdict_text, ChecksFiles, Checks};
ghost use Rattle.command_files.specs.private.Checking.{WritesVerdict, WritesFrontVerdict, WritesAnyVerdict, ChecksFor};

use crate::inner::inner_model;
use crate::reading::{Refusal, read_model};
use crate::refusing::{write_cert_refusal, write_refusal};
use cert_check::{RegionBuf, Verdict, accepted_law, check, verdict_law};
use cert_text::{Cert, CertFault, Claim};
use command_words::is_file_name_word;
use frac128::Frac;
use front_check::{FrontVerdict, check_front, front_law, front_verdict_law};
use front_text::{AnyCert, FrontCert, read_any};
use lp_model::{Model, WideStep, show_model};
use reply_texts::{ARGUMENTS_REPLY, MEMORY_REPLY, write_step};
use std::alloc::{AllocError, Global};
use sym_io::Store;

impl From<CertFault> for Refusal {
    ghost use Rattle.command_files.specs.Refusals.{refusal_of_cert};

    ghost from_gives = { λ fault refusal. refusal ≡ refusal_of_cert fault };

    fn from(fault: CertFault) -> Self {
        match fault {
            CertFault::Bad { line, code } => Refusal::Faulty { line, code },
            CertFault::Memory => Refusal::Memory,
        }
    }
}

/// The certificate of the named file, of either kind.
fn read_certificate<S: Store>(alloc: Global, store: &mut S, name: &str) -> Result<AnyCert, Refusal>
    ensures answer { ReadsCert (S.files store.old) name.now (S.faults store.old) (S.faults store.new) result }
    ensures whole { IfOk result (λ cert. IsAnyCertificate cert) }
    ensures kept { S.files store.new ≡ S.files store.old }
    ensures later { S.faults store.old ≤ S.faults store.new }
{
    let text = match store.get(alloc, name) {
        Ok(text) => text,
        Err(fault) => return Err(Refusal::from(fault)),
    };
    let cert = read_any(alloc, &text);
    drop(text);
    match cert {
        Ok(cert) => Ok(cert),
        Err(fault) => Err(Refusal::from(fault)),
    }
}

/// Judges a certificate of one value.
fn judged(alloc: Global, model: &Model, cert: &Cert) -> Result<Verdict, AllocError>
    requires { IsCertificate cert.now }
    ensures { IfOk result (λ verdict. IsVerdict model.now cert.now verdict) }
{
    let mut buf = RegionBuf::new(alloc, model, cert)?;
    Ok(check(model, cert, &mut buf))
}

fn write_accepted_value(reply: &mut Vec<u8>, value: &Frac) -> Result<(), AllocError>
    ensures { IfOk result (λ _. reply.new.items ≡ reply.old.items ++ accepted_value_text value.now) }
{
    reply.extend_from_slice(b"accepted optimal ")?;
    value.write_to(reply)?;
    reply.extend_from_slice(b"\n")
}

fn write_accepted_within(reply: &mut Vec<u8>, gap: &Frac, value: &Frac) -> Result<(), AllocError>
    ensures { IfOk result (λ _. reply.new.items ≡ reply.old.items ++ accepted_within_text gap.now value.now) }
{
    reply.extend_from_slice(b"accepted within ")?;
    gap.write_to(reply)?;
    reply.extend_from_slice(b" ")?;
    value.write_to(reply)?;
    reply.extend_from_slice(b"\n")
}

/// The claim that is accepted.
fn write_accepted(reply: &mut Vec<u8>, claim: &Claim) -> Result<(), AllocError>
    ensures { IfOk result (λ _. reply.new.items ≡ reply.old.items ++ claim_text claim.now) }
{
    match claim {
        Claim::Optimal(value) => write_accepted_value(reply, value),
        Claim::Within { gap, value } => write_accepted_within(reply, gap, value),
        Claim::Infeasible => reply.extend_from_slice(b"accepted infeasible\n"),
        Claim::Unbounded => reply.extend_from_slice(b"accepted unbounded\n"),
    }
}

/// The first node that does not hold, and why.
fn write_rejected(reply: &mut Vec<u8>, node: u64, why: u8) -> Result<(), AllocError>
    ensures { IfOk result (λ _. reply.new.items ≡ reply.old.items ++ rejected_text node why) }
{
    let mut digits = itoa::Buffer::new();
    reply.extend_from_slice(b"rejected ")?;
    reply.extend_from_slice(digits.format(node).as_bytes())?;
    reply.extend_from_slice(b" ")?;
    reply.extend_from_slice(digits.format(why).as_bytes())?;
    reply.extend_from_slice(b"\n")
}

/// The first node with a step of arithmetic that has no room, and the step.
fn write_wide(
    reply: &mut Vec<u8>,
    model: &Model,
    node: u64,
    step: &WideStep,
) -> Result<(), AllocError>
    ensures { IfOk result (λ _. reply.new.items ≡ reply.old.items ++ wide_text model.now node step.now) }
{
    let mut digits = itoa::Buffer::new();
    reply.extend_from_slice(b"wide ")?;
    reply.extend_from_slice(digits.format(node).as_bytes())?;
    reply.extend_from_slice(b" ")?;
    write_step(reply, model, step)?;
    reply.extend_from_slice(b"\n")
}

fn write_verdict(reply: &mut Vec<u8>, model: &Model, verdict: &Verdict) -> Result<(), AllocError>
    ensures { IfOk result (λ _. reply.new.items ≡ reply.old.items ++ verdict_text model.now verdict.now) }
{
    match verdict {
        Verdict::Accepted(claim) => write_accepted(reply, claim),
        Verdict::Rejected { node, why } => write_rejected(reply, *node, *why),
        Verdict::Wide { node, step } => write_wide(reply, model, *node, step),
    }
}

/// The verdict on a certificate of one value, or `error 90` for want of memory.
#[tactic(auto, using(crate::proofs::CheckLemmas::true_claim))]
fn write_judged(
    alloc: Global,
    reply: &mut Vec<u8>,
    model: &Model,
    cert: &Cert,
) -> Result<(), AllocError>
    requires { IsCertificate cert.now }
    ensures { IfOk result (λ _. WritesVerdict model.now cert.now reply.old.items reply.new.items) }
{
    verdict_law();
    accepted_law();
    match judged(alloc, model, cert) {
        Ok(verdict) => write_verdict(reply, model, &verdict),
        Err(AllocError) => reply.extend_from_slice(MEMORY_REPLY),
    }
}

/// The front that is accepted, which has so many outcomes.
fn write_accepted_front(reply: &mut Vec<u8>, outcomes: u64) -> Result<(), AllocError>
    ensures { IfOk result (λ _. reply.new.items ≡ reply.old.items ++ accepted_front_text outcomes) }
{
    let mut digits = itoa::Buffer::new();
    reply.extend_from_slice(b"accepted frontier ")?;
    reply.extend_from_slice(digits.format(outcomes).as_bytes())?;
    reply.extend_from_slice(b"\n")
}

/// What is told of a verdict on a front. A step may be of a row or a column that an inner model adds.
fn write_front_verdict(
    alloc: Global,
    reply: &mut Vec<u8>,
    model: &Model,
    verdict: &FrontVerdict,
) -> Result<(), AllocError>
    requires { model.now.wide ≡ false }
    ensures { IfOk result (λ _. reply.new.items ≡ reply.old.items ++ front_verdict_text model.now verdict.now) }
{
    match verdict {
        FrontVerdict::Accepted { outcomes } => write_accepted_front(reply, *outcomes),
        FrontVerdict::Rejected { why, node } => write_rejected(reply, *node, *why),
        FrontVerdict::Wide { node, step } => {
            let inner = inner_model(alloc, model)?;
            write_wide(reply, &inner, *node, step)
        }
    }
}

/// The verdict on a certificate of a front, or `error 90` for want of memory.
#[tactic(auto, using(crate::proofs::CheckLemmas::true_front))]
fn write_judged_front(
    alloc: Global,
    reply: &mut Vec<u8>,
    model: &Model,
    cert: &FrontCert,
) -> Result<(), AllocError>
    requires cert { IsFrontCertificate cert.now }
    requires narrow { model.now.wide ≡ false }
    ensures { IfOk result (λ _. WritesFrontVerdict model.now cert.now reply.old.items reply.new.items) }
{
    front_verdict_law();
    front_law();
    show_model(model);
    match check_front(alloc, model, cert) {
        Ok(verdict) => write_front_verdict(alloc, reply, model, &verdict),
        Err(AllocError) => reply.extend_from_slice(MEMORY_REPLY),
    }
}

/// The verdict on a certificate of either kind, or `error 90` for want of memory.
fn write_any_judged(
    alloc: Global,
    reply: &mut Vec<u8>,
    model: &Model,
    cert: &AnyCert,
) -> Result<(), AllocError>
    requires cert { IsAnyCertificate cert.now }
    requires narrow { model.now.wide ≡ false }
    ensures { IfOk result (λ _. WritesAnyVerdict model.now cert.now reply.old.items reply.new.items) }
{
    match cert {
        AnyCert::One(cert) => write_judged(alloc, reply, model, cert),
        AnyCert::Front(cert) => write_judged_front(alloc, reply, model, cert),
    }
}

/// Reads the certificate's file, and writes the verdict for the model, or why the file is refused.
fn check_for<S: Store>(
    alloc: Global,
    program: &Model,
    cert: &str,
    store: &mut S,
    reply: &mut Vec<u8>,
) -> Result<(), AllocError>
    requires narrow { program.now.wide ≡ false }
    requires cert { is_file_name cert.now ≡ true }
    requires empty { reply.old.items ≡ [] }
    ensures answer { IfOk result (λ _. ChecksFor (S.files store.old) program.now cert.now (S.faults store.old) (S.faults store.new) reply.new.items) }
    ensures kept { S.files store.new ≡ S.files store.old }
    ensures later { S.faults store.old ≤ S.faults store.new }
{
    let certificate = match read_certificate(alloc, store, cert) {
        Ok(certificate) => certificate,
        Err(refusal) => return write_cert_refusal(reply, refusal),
    };
    let told = write_any_judged(alloc, reply, program, &certificate);
    drop(certificate);
    told
}

/// Reads the two files, the first fault deciding, and writes the verdict.
fn check_files<S: Store>(
    alloc: Global,
    model: &str,
    cert: &str,
    store: &mut S,
    reply: &mut Vec<u8>,
) -> Result<(), AllocError>
    requires model { is_file_name model.now ≡ true }
    requires cert { is_file_name cert.now ≡ true }
    requires empty { reply.old.items ≡ [] }
    ensures answer { IfOk result (λ _. ChecksFiles (S.files store.old) model.now cert.now (S.faults store.old) (S.faults store.new) reply.new.items) }
    ensures kept { S.files store.new ≡ S.files store.old }
    ensures later { S.faults store.old ≤ S.faults store.new }
{
    let program = match read_model(alloc, store, model.as_bytes(), None) {
        Ok(program) => program,
        Err(refusal) => return write_refusal(reply, refusal),
    };
    let told = check_for(alloc, &program, cert, store, reply);
    drop(program);
    told
}

/// What `check MODEL CERT` prints: the verdict on the certificate for the model, or the first fault of the names, of the
/// model's file and of the certificate's.
pub fn check_text<S: Store>(
    alloc: Global,
    model: &str,
    cert: &str,
    store: &mut S,
) -> Result<Vec<u8>, AllocError>
    ensures answer { IfOk result (λ reply. Checks (S.files store.old) model.now cert.now (S.faults store.old) (S.faults store.new) reply.items) }
    ensures kept { S.files store.new ≡ S.files store.old }
    ensures later { S.faults store.old ≤ S.faults store.new }
{
    let mut reply = Vec::new(alloc);
    if is_file_name_word(model.as_bytes()) && is_file_name_word(cert.as_bytes()) {
        check_files(alloc, model, cert, store, &mut reply)?;
    } else {
        reply.extend_from_slice(ARGUMENTS_REPLY)?;
    }
    Ok(reply)
}
