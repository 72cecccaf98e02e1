// A certificate or a model, as a file.
ghost use Rattle.std.specs.Prelude.{◌≡◌, ◌≤◌, true, [], OnOk, OnErr};
ghost use Rattle.command_words.specs.Names.{is_file_name};
ghost use Rattle.reply_texts.specs.Texts.{memory_text};
ghost use Rattle.command_files.specs.Filing.{Writes};
ghost use Rattle.command_files.specs.Filing.{IsWrittenModel};

use command_words::file_name;
use lp_model::Model;
use reply_texts::{FILE_TOO_LONG_REPLY, MEMORY_REPLY, OK_REPLY, STORE_REPLY};
use std::alloc::{AllocError, Global};
use sym_io::{MAX_FILE_LENGTH, Store};

/// Writes a text to a file, and the reply that tells how it went. The reply's memory is taken before the file is touched.
pub fn write_file<S: Store>(
    store: &mut S,
    name: &[u8],
    text: &[u8],
    reply: &mut Vec<u8>,
) -> Result<(), AllocError>
    requires name { is_file_name name.now ≡ true }
    requires empty { reply.old.items ≡ [] }
    ensures answered { OnOk result (Writes (λ written. written ≡ text.now) name.now (S.files store.old) (S.faults store.old) reply.new.items (S.files store.new) (S.faults store.new)) }
    ensures unfinished { OnErr result (Writes (λ written. written ≡ text.now) name.now (S.files store.old) (S.faults store.old) memory_text (S.files store.new) (S.faults store.new)) }
    ensures later { S.faults store.old ≤ S.faults store.new }
{
    if text.len() > MAX_FILE_LENGTH {
        return reply.extend_from_slice(FILE_TOO_LONG_REPLY);
    }
    reply.extend_from_slice(OK_REPLY)?;
    if store.put(file_name(name), text).is_err() {
        reply.clear();
        reply.extend_from_slice(STORE_REPLY)?;
    }
    Ok(())
}

/// Writes a model to a file, and the reply that tells how it went.
pub fn write_model<S: Store>(
    alloc: Global,
    store: &mut S,
    name: &[u8],
    model: &Model,
    reply: &mut Vec<u8>,
) -> Result<(), AllocError>
    requires name { is_file_name name.now ≡ true }
    requires empty { reply.old.items ≡ [] }
    ensures answered { OnOk result (Writes (IsWrittenModel model.now) name.now (S.files store.old) (S.faults store.old) reply.new.items (S.files store.new) (S.faults store.new)) }
    ensures unfinished { OnErr result (Writes (IsWrittenModel model.now) name.now (S.files store.old) (S.faults store.old) memory_text (S.files store.new) (S.faults store.new)) }
    ensures later { S.faults store.old ≤ S.faults store.new }
{
    match mps_writer::write(alloc, model) {
        Ok(bytes) => write_file(store, name, &bytes, reply),
        Err(_) => reply.extend_from_slice(MEMORY_REPLY),
    }
}
