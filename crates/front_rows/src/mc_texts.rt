// What a sweep answers, in lines.
use anyhow::Result;
use cert_text::Cert;
use cert_writer::print_cert;
use front_replies::{put_complete_front, put_stopped_front, put_wide_front};
use front_text::FrontCert;
use front_writer::print_front;
use frontier::Front;
use lp_model::{ColId, Model};
use model_texts::name_text;
use reply_texts::write_infeasible;
use std::alloc::{AllocError, Global};
use wcn_driver::Mc;

/// Writes a whole front, and its certificate.
fn push_complete(
    alloc: Global,
    got: &mut Vec<u8>,
    front: &Front,
    cert: &FrontCert,
) -> Result<(), AllocError> {
    put_complete_front(got, front.as_slice())?;
    let text = print_front(alloc, cert)?;
    got.extend_from_slice(&text)
}

/// Writes that no point is feasible, and the certificate.
fn push_infeasible(
    alloc: Global,
    got: &mut Vec<u8>,
    cert: &Cert,
    results: u64,
) -> Result<(), AllocError> {
    write_infeasible(got, results)?;
    let text = print_cert(alloc, cert)?;
    got.extend_from_slice(&text)
}

/// Writes which objective is not whole, and the first column that makes it so.
fn push_not_whole(
    alloc: Global,
    got: &mut Vec<u8>,
    model: &Model,
    which: u8,
    col: Option<ColId>,
) -> Result<(), AllocError> {
    let mut line = String::new(alloc);
    write!(line, "not whole {which}")?;
    match col {
        None => line.push_str(" constant")?,
        Some(col) => match model.cols().get(col.0 as usize) {
            Some(column) => write!(line, " {}", name_text(&column.name))?,
            None => write!(line, " column#{}", col.0)?,
        },
    }
    line.push('\n')?;
    got.extend_from_slice(line.as_bytes())
}

/// Writes what a sweep of the model answers. A whole front, and that no point is feasible, with the certificate.
pub fn push_mc(alloc: Global, got: &mut Vec<u8>, model: &Model, mc: &Mc) -> Result<(), AllocError> {
    match mc {
        Mc::Complete { front, cert } => push_complete(alloc, got, front, cert),
        Mc::Infeasible { cert, results } => push_infeasible(alloc, got, cert, *results),
        Mc::Stopped {
            front,
            part,
            why,
            results,
            bound,
            best,
        } => put_stopped_front(
            alloc,
            got,
            model,
            front.as_slice(),
            part,
            why,
            *results,
            bound,
            best,
        ),
        Mc::NotWhole { which, col } => push_not_whole(alloc, got, model, *which, *col),
        Mc::WideScale { front, part, place } => {
            put_wide_front(got, model, front.as_slice(), part, place)
        }
        Mc::Memory => got.extend_from_slice(b"no memory\n"),
    }
}
