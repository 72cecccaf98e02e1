// The certificate of either kind that a text states, or its first fault.
ghost use Rattle.std.specs.Prelude.{◌≡◌, ◌+◌, ◌<◌, ◌^◌, map, IfOk, true, false};
ghost use Rattle.front_text.specs.Text.{is_front_text};
ghost use Rattle.front_text.specs.Reading.{held_front, IsFrontReadable, IsFrontNoted, IsFrontReading, IsFrontRead, IsOneAnswer, IsFrontAnswer, IsAnyCertificate};

use crate::front::AnyCert;
use crate::front_line::{begin_front, front_line_says};
use crate::front_reading::FrontReading;
use cert_text::{CertFault, LineFault, line_bytes, read_cert};
use std::alloc::Global;

/// One more line, whose number is `number`.
fn read_front_line(
    alloc: Global,
    reading: &mut FrontReading,
    line: &[u8],
    number: u64,
) -> Result<(), CertFault>
    requires room { reading.old.count + 1 < 2 ^ 64 }
    requires kept { IsFrontReadable reading.old }
    ensures noted { IsFrontNoted (held_front reading.old) line.now number (held_front reading.new) result }
    ensures kept { IfOk result (λ _. IsFrontReadable reading.new) }
{
    let statement = match front_line_says(alloc, line) {
        Ok(statement) => statement,
        Err(LineFault::Memory) => return Err(CertFault::Memory),
        Err(LineFault::Code(code)) => {
            let code = reading.fault_code(code);
            return Err(CertFault::Bad { line: number, code });
        }
    };
    if let Some(code) = reading.statement_code(&statement) {
        drop(statement);
        return Err(CertFault::Bad { line: number, code });
    }
    match reading.note(alloc, statement) {
        Ok(()) => Ok(()),
        Err(_) => Err(CertFault::Memory),
    }
}

/// What the lines state, or the first faulty one.
fn read_front_lines(alloc: Global, lines: &[&[u8]]) -> Result<FrontReading, CertFault>
    ensures reading { IsFrontReading (map (λ line. line.now) lines.now) result }
    ensures kept { IfOk result IsFrontReadable }
{
    let mut reading = FrontReading::new(alloc);
    for (index, line) in lines.iter().enumerate() {
        if let Err(fault) = read_front_line(alloc, &mut reading, line, index as u64 + 1) {
            drop(reading);
            return Err(fault);
        }
    }
    Ok(reading)
}

/// The certificate of a front that the lines state, or the first faulty one with the least code of its faults.
fn read_front(alloc: Global, lines: &[&[u8]]) -> Result<AnyCert, CertFault>
    ensures read { IsFrontRead (map (λ line. line.now) lines.now) result }
    ensures whole { IfOk result IsAnyCertificate }
{
    let line = lines.len() as u64 + 1;
    let reading = match read_front_lines(alloc, lines) {
        Ok(reading) => reading,
        Err(fault) => return Err(fault),
    };
    if let Some(code) = reading.end_code() {
        drop(reading);
        return Err(CertFault::Bad { line, code });
    }
    match reading.into_cert() {
        Ok(cert) => Ok(AnyCert::Front(cert)),
        Err(_) => Err(CertFault::Memory),
    }
}

/// The certificate of one value that the text states, or its first faulty line with the least code of its faults.
fn read_one(alloc: Global, text: &[u8]) -> Result<AnyCert, CertFault>
    ensures one { IsOneAnswer text.now result }
    ensures whole { IfOk result IsAnyCertificate }
{
    match read_cert(alloc, text) {
        Ok(cert) => Ok(AnyCert::One(cert)),
        Err(fault) => Err(fault),
    }
}

/// The certificate of either kind that the text states, or its first faulty line with the least code of its faults. A text is of
/// a front where the first word of its first line is `front`. The trees of a certificate that is read are whole.
pub fn read_any(alloc: Global, text: &[u8]) -> Result<AnyCert, CertFault>
    ensures one { is_front_text text.now ≡ false → IsOneAnswer text.now result }
    ensures front { is_front_text text.now ≡ true → IsFrontAnswer text.now result }
    ensures whole { IfOk result IsAnyCertificate }
{
    let Ok(found) = line_bytes(alloc, text) else {
        return Err(CertFault::Memory);
    };
    let lines: &[&[u8]] = &found;
    let front = match begin_front(alloc, lines) {
        Ok(front) => front,
        Err(_) => return Err(CertFault::Memory),
    };
    if front {
        return read_front(alloc, lines);
    }
    read_one(alloc, text)
}
