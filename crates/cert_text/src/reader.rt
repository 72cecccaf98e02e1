// The certificate that a text states, or its first fault.
ghost use Rattle.std.specs.Prelude.{◌≡◌, ◌+◌, ◌<◌, ◌^◌, map, IfOk};
ghost use Rattle.std.specs.List.{slice_split};
ghost use Rattle.text_lines.specs.Lines.{is_newline, line_bytes};
ghost use Rattle.cert_text.specs.Whole.{IsCertificate};
ghost use Rattle.cert_text.specs.Reading.{held, IsReadable, IsNoted, IsReading, IsCertificateAnswer};

use crate::cert::Cert;
use crate::line::{LineFault, line_says};
use crate::reading::Reading;
use std::alloc::{AllocError, Global};
use thiserror::Error;

/// Why a text gives no certificate.
#[derive(Clone, Copy, Debug, Drop, Error)]
pub enum CertFault {
    /// The first faulty line, from 1, with the least code of its faults. What is missing stands at the line where it was
    /// due, behind the last one too.
    #[error("a line is faulty")]
    Bad { line: u64, code: u8 },
    /// There is no memory.
    #[error("there is no memory")]
    Memory,
}

/// The pieces between newlines.
fn pieces(alloc: Global, text: &[u8]) -> Result<Vec<&[u8]>, AllocError>
    ensures { IfOk result (λ lines. map (λ line. line.now) lines.items ≡ slice_split is_newline text.now) }
{
    text.split(|byte| *byte == b'\n').collect(alloc)
}

/// The bytes of each line of a text: what follows the last newline is a line only where it has a byte.
pub fn line_bytes(alloc: Global, text: &[u8]) -> Result<Vec<&[u8]>, AllocError>
    ensures { IfOk result (λ lines. map (λ line. line.now) lines.items ≡ line_bytes text.now) }
{
    let mut lines = match pieces(alloc, text) {
        Ok(lines) => lines,
        Err(error) => return Err(error),
    };
    let Some(last) = lines.pop() else {
        return Ok(lines);
    };
    if last.is_empty() {
        return Ok(lines);
    }
    match lines.push(last) {
        Ok(()) => Ok(lines),
        Err(_) => {
            drop(lines);
            Err(AllocError)
        }
    }
}

/// One more line, whose number is `number`.
fn read_line(
    alloc: Global,
    reading: &mut Reading,
    line: &[u8],
    number: u64,
) -> Result<(), CertFault>
    requires room { reading.old.count + 1 < 2 ^ 64 }
    requires kept { IsReadable reading.old }
    ensures noted { IsNoted (held reading.old) line.now number (held reading.new) result }
    ensures kept { IfOk result (λ _. IsReadable reading.new) }
{
    let statement = match line_says(alloc, line) {
        Ok(statement) => statement,
        Err(LineFault::Memory) => return Err(CertFault::Memory),
        Err(LineFault::Code(code)) => {
            let code = reading.fault_code(code);
            return Err(CertFault::Bad { line: number, code });
        }
    };
    if let Some(code) = reading.statement_code(&statement) {
        drop(statement);
        return Err(CertFault::Bad { line: number, code });
    }
    match reading.note(statement) {
        Ok(()) => Ok(()),
        Err(_) => Err(CertFault::Memory),
    }
}

/// What the lines state, or the first faulty one.
fn read_lines(alloc: Global, lines: &[&[u8]]) -> Result<Reading, CertFault>
    ensures reading { IsReading (map (λ line. line.now) lines.now) result }
    ensures kept { IfOk result IsReadable }
{
    let mut reading = Reading::new(alloc);
    for (index, line) in lines.iter().enumerate() {
        if let Err(fault) = read_line(alloc, &mut reading, line, index as u64 + 1) {
            drop(reading);
            return Err(fault);
        }
    }
    Ok(reading)
}

/// The certificate that the text states, or its first faulty line with the least code of its faults. The nodes of a
/// certificate that is read are one whole tree.
pub fn read_cert(alloc: Global, text: &[u8]) -> Result<Cert, CertFault>
    ensures answer { IsCertificateAnswer text.now result }
    ensures certificate { IfOk result IsCertificate }
{
    let Ok(lines) = line_bytes(alloc, text) else {
        return Err(CertFault::Memory);
    };
    let line = lines.len() as u64 + 1;
    let read = read_lines(alloc, &lines);
    drop(lines);
    let reading = match read {
        Ok(reading) => reading,
        Err(fault) => return Err(fault),
    };
    if let Some(code) = reading.end_code() {
        drop(reading);
        return Err(CertFault::Bad { line, code });
    }
    Ok(reading.into_cert(alloc))
}
