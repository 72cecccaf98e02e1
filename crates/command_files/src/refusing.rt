// The reply where a file is refused.
ghost use Rattle.std.specs.Prelude.{◌≡◌, ◌++◌, IfOk};
ghost use Rattle.command_files.specs.Checking.{cert_refusal_text};
ghost use Rattle.command_files.specs.Reading.{refusal_text};

use crate::reading::Refusal;
use reply_texts::{
    FILE_TOO_LONG_REPLY, MEMORY_REPLY, STORE_REPLY, write_faulty_certificate, write_faulty_model,
};
use std::alloc::AllocError;

/// Why a file's model is refused.
pub fn write_refusal(reply: &mut Vec<u8>, refusal: Refusal) -> Result<(), AllocError>
    ensures { IfOk result (λ _. reply.new.items ≡ reply.old.items ++ refusal_text refusal) }
{
    match refusal {
        Refusal::Store => reply.extend_from_slice(STORE_REPLY),
        Refusal::FileTooLong => reply.extend_from_slice(FILE_TOO_LONG_REPLY),
        Refusal::Faulty { line, code } => write_faulty_model(reply, line, code),
        Refusal::Memory => reply.extend_from_slice(MEMORY_REPLY),
    }
}

/// Why a file's certificate is refused.
pub(crate) fn write_cert_refusal(reply: &mut Vec<u8>, refusal: Refusal) -> Result<(), AllocError>
    ensures { IfOk result (λ _. reply.new.items ≡ reply.old.items ++ cert_refusal_text refusal) }
{
    match refusal {
        Refusal::Store => reply.extend_from_slice(STORE_REPLY),
        Refusal::FileTooLong => reply.extend_from_slice(FILE_TOO_LONG_REPLY),
        Refusal::Faulty { line, code } => write_faulty_certificate(reply, line, code),
        Refusal::Memory => reply.extend_from_slice(MEMORY_REPLY),
    }
}
