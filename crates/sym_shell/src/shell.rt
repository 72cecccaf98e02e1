// The machine behind the script: the environment, and which family of commands answers a line.
ghost use Rattle.std.specs.Prelude.{◌≡◌, []};
ghost use Rattle.command_words.specs.Asks.{asks_shown, IsAskable};
ghost use Rattle.kept_env.specs.Env.{no_model};
ghost use Rattle.command_family.specs.State.{shell_state, HasScriptModel, HasOrder};
ghost use Rattle.sym_shell.specs.Step.{AnswersTo, Tells};
ghost use Rattle.sym_shell.specs.Shell.{is_quit};

use crate::searching::{look_for_front, search_anew, search_on};
use bound_commands::bound;
use cert_commands::cert;
use command_words::{Asked, read_words};
use edit_commands::{edit, trim};
use file_commands::{load, restore, save, write};
use kept_env::Env;
use reply_texts::{ARGUMENTS_REPLY, OK_REPLY, write_no_number, write_unknown};
use script_session::Machine;
use std::alloc::{AllocError, Global};
use sym_io::Store;

/// The solver's state between commands: the environment, whose model is one that scripts may have, and whose lists stand in order, so that
/// its search has a text. Contracts see a `PlainEnv`.
pub(crate) struct Shell {
    env: Env,
}

impl std::marker::Model for Shell {
    ghost use Rattle.kept_env.specs.Env.{PlainEnv, env_code};
    ghost use Rattle.command_family.specs.State.{HasScriptModel, HasOrder};

    ghost Value = { PlainEnv };

    ghost coded = { env_code };

    ghost view = { λ s. s.env };

    ghost invariant = { λ s. HasScriptModel s.env × HasOrder s.env };
}

impl Shell {
    /// No model is loaded. It takes no memory.
    pub(crate) fn new(alloc: Global) -> Shell
        ensures { result ≡ no_model }
    {
        Shell {
            env: Env::new(alloc),
        }
    }

    /// Lets the environment go.
    pub(crate) fn end(self) {
        let Shell { env } = self;
        env.end();
    }
}

/// Answers what is asked.
fn answer_asked<S: Store>(
    alloc: Global,
    env: &mut Env,
    store: &mut S,
    asked: &Asked<'_>,
    reply: &mut Vec<u8>,
) -> Result<(), AllocError>
    requires askable { IsAskable (asks_shown asked.now) }
    requires empty { reply.old.items ≡ [] }
    requires script { HasScriptModel env.old }
    requires order { HasOrder env.old }
    ensures answered { Tells result (λ bytes. AnswersTo (asks_shown asked.now) (shell_state env.old (S.files store.old) (S.faults store.old)) bytes
        (shell_state env.new (S.files store.new) (S.faults store.new))) reply.new.items }
    ensures script { HasScriptModel env.new }
    ensures order { HasOrder env.new }
{
    match *asked {
        Asked::Load { file, intupper } => load(alloc, env, store, file, intupper, reply),
        Asked::Solve { options } => search_anew(alloc, env, options, reply),
        Asked::Warm { options } => search_on(alloc, env, options, reply),
        Asked::McSolve { nodes, pivots } => look_for_front(alloc, env, nodes, pivots, reply),
        Asked::Edit { words } => edit(alloc, env, words, reply),
        Asked::Trim { depth } => trim(env, depth, reply),
        Asked::Save { file } => save(alloc, env, store, file, reply),
        Asked::Restore { file } => restore(alloc, env, store, file, reply),
        Asked::Bound {
            which,
            numbers,
            words,
        } => bound(alloc, env, which, numbers, words, reply),
        Asked::Cert { file } => cert(alloc, env, store, file, reply),
        Asked::Write { file } => write(alloc, env, store, file, reply),
        Asked::Quit => reply.extend_from_slice(OK_REPLY),
        Asked::Unknown { word } => write_unknown(reply, word),
        Asked::Misused => reply.extend_from_slice(ARGUMENTS_REPLY),
        Asked::NoNumber { word } => write_no_number(reply, word),
    }
}

impl Machine for Shell {
    ghost use Rattle.sym_shell.specs.Shell.{ShellStep, quits};

    ghost step = { ShellStep };

    ghost ends = { quits };

    fn ends_script(&self, words: &[&[u8]]) -> bool {
        let asked = read_words(words);
        is_quit(&asked)
    }

    fn answer<S: Store>(
        &mut self,
        alloc: Global,
        store: &mut S,
        words: &[&[u8]],
        reply: &mut Vec<u8>,
    ) -> Result<(), AllocError> {
        let asked = read_words(words);
        let told = answer_asked(alloc, &mut self.env, store, &asked, reply);
        let _sound = self.env.search();
        let _held = self.env.held();
        told
    }
}

/// The end of the script is asked for.
fn is_quit(asked: &Asked<'_>) -> bool
    ensures { result ≡ is_quit (asks_shown asked.now) }
{
    matches!(asked, Asked::Quit)
}
