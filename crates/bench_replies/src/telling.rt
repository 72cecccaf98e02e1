// The three lines, of an environment whose model was solved.
ghost use Rattle.std.specs.Prelude.{◌≡◌, ◌++◌, ℕ, List, IfOk};
ghost use Rattle.reply_texts.specs.Reports.{AnswerIsShaped};
ghost use Rattle.reply_texts.specs.Texts.{answer_text};
ghost use Rattle.search_replies.specs.Answering.{IsAnswerOf};
ghost use Rattle.kept_env.specs.Env.{model_of};
ghost use Rattle.bench_replies.specs.Benches.{head_line, IsFirstLine};
ghost use Rattle.bench_replies.specs.private.Telling.{is_wanting, WritesFirst, WritesCert, WritesLines};

use cert_commands::held_certificate;
use kept_env::{Env, EnvFault};
use lp_model::Model;
use reply_texts::write_answer;
use search_answers::Answer;
use std::alloc::{AllocError, Global};
use text_lines::cut_line;

/// The line of the model's size.
fn write_head(text: &mut Vec<u8>, rows: u64, cols: u64) -> Result<(), AllocError>
    ensures { IfOk result (λ _. text.new.items ≡ text.old.items ++ head_line rows cols) }
{
    let mut digits = itoa::Buffer::new();
    text.extend_from_slice(b"bench rows ")?;
    text.extend_from_slice(digits.format(rows).as_bytes())?;
    text.extend_from_slice(b" cols ")?;
    text.extend_from_slice(digits.format(cols).as_bytes())?;
    text.extend_from_slice(b"\n")
}

/// The first line of a text, with its newline, if it has one.
fn write_first(text: &mut Vec<u8>, reply: &[u8]) -> Result<(), AllocError>
    ensures { IfOk result (λ _. WritesFirst reply.now text.old.items text.new.items) }
{
    match cut_line(reply) {
        Some((line, _)) => {
            text.extend_from_slice(line)?;
            text.extend_from_slice(b"\n")
        }
        None => text.extend_from_slice(reply),
    }
}

/// The first line of the reply to a solve.
fn write_answered(
    alloc: Global,
    text: &mut Vec<u8>,
    model: &Model,
    answer: &Answer,
) -> Result<(), AllocError>
    requires { AnswerIsShaped model.now answer.now }
    ensures { IfOk result (λ _. WritesFirst (answer_text model.now answer.now) text.old.items text.new.items) }
{
    let mut reply = Vec::new(alloc);
    let Ok(()) = write_answer(&mut reply, model, answer) else {
        drop(reply);
        return Err(AllocError);
    };
    let told = write_first(text, &reply);
    drop(reply);
    told
}

/// Whether a certificate of what is held was made, which is accepted.
fn write_cert(alloc: Global, text: &mut Vec<u8>, env: &Env) -> Result<(), AllocError>
    ensures { IfOk result (λ _. WritesCert env.now.search env.now.held text.old.items text.new.items) }
{
    match held_certificate(alloc, env) {
        Ok(certificate) => {
            drop(certificate);
            text.extend_from_slice(b"cert accepted\n")
        }
        Err(EnvFault::NoAnswer) => text.extend_from_slice(b"cert none\n"),
        Err(fault) => {
            drop(fault);
            Err(AllocError)
        }
    }
}

/// The answer is that there was no memory.
fn is_wanting(answer: &Answer) -> bool
    ensures { result ≡ is_wanting answer.now }
{
    matches!(answer, Answer::Memory)
}

/// The lines of an environment whose model was solved so. Where there was no memory there are none.
pub(crate) fn write_lines(
    alloc: Global,
    text: &mut Vec<u8>,
    env: &Env,
    rows: u64,
    cols: u64,
    answer: &Result<Answer, EnvFault>,
) -> Result<(), AllocError>
    requires { IsAnswerOf answer.now (model_of env.now) }
    ensures { IfOk result (λ _. WritesLines rows cols env.now answer.now text.old.items text.new.items) }
{
    let Ok(answer) = answer else {
        return Err(AllocError);
    };
    if is_wanting(answer) {
        return Err(AllocError);
    }
    let Some(model) = env.model() else {
        return Err(AllocError);
    };
    write_head(text, rows, cols)?;
    write_answered(alloc, text, model, answer)?;
    write_cert(alloc, text, env)
}
