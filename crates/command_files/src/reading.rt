// Reading files from a store.
ghost use Rattle.std.specs.Prelude.{◌≡◌, ◌<◌, ◌≤◌, ◌^◌, true, IfOk, IfSome};
ghost use Rattle.command_words.specs.Names.{is_file_name};
ghost use Rattle.word_names.specs.ScriptModels.{IsScriptModel};
ghost use Rattle.command_files.specs.Reading.{ReadsFile, ReadsText};

use command_words::file_name;
use lp_model::Model;
use mps_model::{MpsFault, read};
use std::alloc::Global;
use sym_io::{Store, StoreFault};

/// Why a file's model is refused.
#[derive(Clone, Copy)]
pub enum Refusal {
    /// The store has failed, or has no such file.
    Store,
    /// The file has more bytes than are read.
    FileTooLong,
    /// The first faulty line of the text, from 1, and the least code of its faults.
    Faulty { line: u64, code: u8 },
    /// There was no memory.
    Memory,
}

impl From<StoreFault> for Refusal {
    ghost use Rattle.command_files.specs.Refusals.{refusal_of_store};

    ghost from_gives = { λ fault refusal. refusal ≡ refusal_of_store fault };

    fn from(fault: StoreFault) -> Self {
        match fault {
            StoreFault::Missing | StoreFault::Failed => Refusal::Store,
            StoreFault::TooLong => Refusal::FileTooLong,
            StoreFault::Memory => Refusal::Memory,
        }
    }
}

impl From<MpsFault> for Refusal {
    ghost use Rattle.command_files.specs.Refusals.{refusal_of_text};

    ghost from_gives = { λ fault refusal. refusal ≡ refusal_of_text fault };

    fn from(fault: MpsFault) -> Self {
        match fault {
            MpsFault::Bad { line, code } => Refusal::Faulty { line, code },
            MpsFault::Memory => Refusal::Memory,
        }
    }
}

/// The bytes of the named file.
pub fn read_text<S: Store>(alloc: Global, store: &mut S, name: &[u8]) -> Result<Vec<u8>, Refusal>
    requires { is_file_name name.now ≡ true }
    ensures answer { ReadsText (S.files store.old) name.now (S.faults store.old) (S.faults store.new) result }
    ensures kept { S.files store.new ≡ S.files store.old }
    ensures later { S.faults store.old ≤ S.faults store.new }
{
    let text = store.get(alloc, file_name(name))?;
    Ok(text)
}

/// The model of the named file, which is one that scripts may have. An integer column without an upper bound has `intupper`, if
/// that is handed in.
pub fn read_model<S: Store>(
    alloc: Global,
    store: &mut S,
    name: &[u8],
    intupper: Option<u64>,
) -> Result<Model, Refusal>
    requires { is_file_name name.now ≡ true }
    ensures answer { ReadsFile (S.files store.old) name.now intupper (S.faults store.old) (S.faults store.new) result }
    ensures script { IfOk result (λ m. IsScriptModel m) }
    ensures kept { S.files store.new ≡ S.files store.old }
    ensures later { S.faults store.old ≤ S.faults store.new }
{
    let text = match store.get(alloc, file_name(name)) {
        Ok(text) => text,
        Err(fault) => return Err(Refusal::from(fault)),
    };
    bound_is_near(intupper);
    let model = read(alloc, &text, intupper);
    drop(text);
    match model {
        Ok(model) => Ok(model),
        Err(fault) => Err(Refusal::from(fault)),
    }
}

/// A bound of 64 bits is below 10^20. Nothing is done.
fn bound_is_near(bound: Option<u64>)
    ensures { IfSome bound (λ n. n < 10 ^ 20) }
{
    match bound {
        Some(n) => number_is_near(n),
        None => (),
    }
}

/// A number of 64 bits is below 10^20. Nothing is done.
fn number_is_near(n: u64)
    ensures { n < 10 ^ 20 }
{}
