// A model, from a file.
ghost use Rattle.std.specs.Prelude.{◌≡◌, ◌⊎◌, true, [], OnOk, OnErr};
ghost use Rattle.word_names.specs.ScriptModels.{IsScriptModel};
ghost use Rattle.command_words.specs.Names.{is_file_name};
ghost use Rattle.reply_texts.specs.Texts.{ok_text, memory_text};
ghost use Rattle.kept_env.specs.Env.{Holds};
ghost use Rattle.command_family.specs.State.{shell_state, HasScriptModel, HasOrder};
ghost use Rattle.file_commands.specs.Load.{LoadStep};

use command_family::tell_done;
use command_files::{read_model, write_refusal};
use kept_env::Env;
use lp_model::Model;
use reply_texts::OK_REPLY;
use std::alloc::{AllocError, Global};
use sym_io::Store;

/// Replaces the model by the file's. An integer column without an upper bound has `intupper`, if that is handed in.
pub fn load<S: Store>(
    alloc: Global,
    env: &mut Env,
    store: &mut S,
    name: &[u8],
    intupper: Option<u64>,
    reply: &mut Vec<u8>,
) -> Result<(), AllocError>
    requires name { is_file_name name.now ≡ true }
    requires empty { reply.old.items ≡ [] }
    requires script { HasScriptModel env.old }
    requires order { HasOrder env.old }
    ensures answered { OnOk result (LoadStep (shell_state env.old (S.files store.old) (S.faults store.old)) name.now intupper reply.new.items
        (shell_state env.new (S.files store.new) (S.faults store.new))) }
    ensures unfinished { OnErr result (LoadStep (shell_state env.old (S.files store.old) (S.faults store.old)) name.now intupper memory_text
        (shell_state env.new (S.files store.new) (S.faults store.new))) }
    ensures script { HasScriptModel env.new }
    ensures order { HasOrder env.new }
{
    match read_model(alloc, store, name, intupper) {
        Ok(model) => keep(env, model, reply),
        Err(refusal) => write_refusal(reply, refusal),
    }
}

/// Replaces the model, and tells whether there was memory for it.
fn keep(env: &mut Env, model: Model, reply: &mut Vec<u8>) -> Result<(), AllocError>
    requires model { IsScriptModel model }
    requires empty { reply.old.items ≡ [] }
    requires script { HasScriptModel env.old }
    requires order { HasOrder env.old }
    ensures kept { OnOk result (((reply.new.items ≡ ok_text) × Holds model env.new) ⊎ ((reply.new.items ≡ memory_text) × (env.new ≡ env.old))) }
    ensures unfinished { OnErr result (env.new ≡ env.old) }
    ensures script { HasScriptModel env.new }
    ensures order { HasOrder env.new }
{
    if reply.extend_from_slice(OK_REPLY).is_err() {
        drop(model);
        return Err(AllocError);
    }
    let done = env.load(model);
    tell_done(reply, done)
}
