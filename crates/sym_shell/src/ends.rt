// The program over the real ends, from the words of the command line to the status that it ends with.
//
// No contract can say which words the system hands over, nor what a real file or terminal holds: that `run_program` asks for
// these words and these ends, and ends with what `run_read` answers, is the trusted edge, beside the adapters of `sym_io`. It
// stands once, for two programs, each with a stored run of another status: `sym_main`, which is `symphony`, and `refused_words`.
ghost use Rattle.std.specs.Prelude.{◌≡◌, ◌<◌, ◌⊎◌, [], length, IfOk, IfErr};
ghost use Rattle.std.specs.IoError.{error_kind};
ghost use Rattle.std.specs.Process.{exit_status};
ghost use Rattle.std.specs.Vec.Iter.{into_iter_items};
ghost use Rattle.std.specs.declared.io.ErrorKind.TheVariants.{OutOfMemory};
ghost use Rattle.std.specs.Io.KnownBytes.{Appends};
ghost use Rattle.sym_io.specs.Faults.{Rose};
ghost use Rattle.script_session.specs.Output.{WritesFront};
ghost use Rattle.script_session.specs.Run.{outside};
ghost use Rattle.program_words.specs.Forms.{TakesWords};
ghost use Rattle.sym_shell.specs.Run.{around, RunsWords, IsRefusedRead, usage};

use crate::program::{STATUS_MEMORY, run};
use program_words::words_of;
use std::alloc::Global;
use std::env::Args;
use std::process::ExitCode;
use std::{env, io};
use sym_io::{CurrentFolder, Sink, Source, StandardInput, StandardOutput, Store};

/// Runs the program with what was read of the command line, over these ends.
fn run_read<R: Source, W: Sink, S: Store>(
    alloc: Global,
    read: io::Result<Args>,
    script: &mut R,
    out: &mut W,
    store: &mut S,
) -> ExitCode
    ensures known { exit_status result < 7 }
    ensures usage { IfOk read (λ arguments. 0 < length (into_iter_items arguments) → exit_status result ≡ 2 → ¬ (TakesWords (into_iter_items arguments))) }
    ensures usage_only { IfOk read (λ arguments. 0 < length (into_iter_items arguments) → ¬ (TakesWords (into_iter_items arguments)) → (exit_status result ≡ 2) ⊎ (exit_status result ≡ 5)) }
    ensures nothing { IfOk read (λ arguments. into_iter_items arguments ≡ [] → (exit_status result ≡ 2) ⊎ (exit_status result ≡ 5)) }
    ensures unread { IfErr read (λ _. (exit_status result ≡ 2) ⊎ (exit_status result ≡ 5)) }
    ensures memory { IfErr read (λ error. error_kind error ≡ OutOfMemory → exit_status result ≡ 5) }

    // Words that are refused, and none at all: as of `run`. Nothing is read, and no file is written.
    ensures usage_line { exit_status result ≡ 2 → Appends (W.written out.old) (W.written out.new) usage ⊎ (Rose (W.faults out.old) (W.faults out.new) × WritesFront (W.written out.old) (W.written out.new) usage) }
    ensures unwritten { IsRefusedRead (λ arguments. into_iter_items arguments) read → exit_status result ≡ 5 → W.written out.new ≡ W.written out.old }
    ensures untouched { IsRefusedRead (λ arguments. into_iter_items arguments) read → (R.left script.new ≡ R.left script.old) × (R.handed script.new ≡ R.handed script.old) × (R.faults script.new ≡ R.faults script.old)
        × (S.files store.new ≡ S.files store.old) × (S.faults store.new ≡ S.faults store.old) }

    ensures ran { IfOk read (λ arguments. 0 < length (into_iter_items arguments) → RunsWords (into_iter_items arguments) (around
        (outside (R.left script.old) (R.handed script.old) (R.faults script.old) (W.written out.old) (W.faults out.old))
        (outside (R.left script.new) (R.handed script.new) (R.faults script.new) (W.written out.new) (W.faults out.new))
        (S.files store.old) (S.files store.new) (S.faults store.old) (S.faults store.new)) (exit_status result)) }
{
    match words_of(alloc, read) {
        Ok(words) => ExitCode::from(run(alloc, &words, script, out, store)),
        Err(_) => ExitCode::from(STATUS_MEMORY),
    }
}

/// Runs the program with the words of the command line over standard input, standard output and the files of the current
/// folder. It answers the status of `run`, or 5 where memory is wanting for the words. All that is printed goes to standard
/// output, the usage line too; nothing goes to standard error.
pub fn run_program(rt: &HostRuntime) -> ExitCode {
    let read = env::args(rt);
    let mut script = StandardInput::new(rt.reader());
    let mut out = StandardOutput::new(io::writer(rt));
    let mut store = CurrentFolder::new(rt);
    run_read(rt.alloc(), read, &mut script, &mut out, &mut store)
}
