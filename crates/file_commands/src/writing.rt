// The model that is present, as a file.
ghost use Rattle.std.specs.Prelude.{◌≡◌, true, [], OnOk, OnErr};
ghost use Rattle.command_words.specs.Names.{is_file_name};
ghost use Rattle.reply_texts.specs.Texts.{memory_text};
ghost use Rattle.command_family.specs.State.{shell_state, HasScriptModel};
ghost use Rattle.file_commands.specs.Writing.{WriteStep};

use command_files::write_model;
use kept_env::Env;
use reply_texts::NO_MODEL_REPLY;
use std::alloc::{AllocError, Global};
use sym_io::Store;

/// Writes the model that is present to a file.
pub fn write<S: Store>(
    alloc: Global,
    env: &Env,
    store: &mut S,
    name: &[u8],
    reply: &mut Vec<u8>,
) -> Result<(), AllocError>
    requires name { is_file_name name.now ≡ true }
    requires empty { reply.old.items ≡ [] }
    requires script { HasScriptModel env.now }
    ensures answered { OnOk result (WriteStep (shell_state env.now (S.files store.old) (S.faults store.old)) name.now reply.new.items
        (shell_state env.now (S.files store.new) (S.faults store.new))) }
    ensures unfinished { OnErr result (WriteStep (shell_state env.now (S.files store.old) (S.faults store.old)) name.now memory_text
        (shell_state env.now (S.files store.new) (S.faults store.new))) }
{
    match env.model() {
        Some(model) => write_model(alloc, store, name, model, reply),
        None => reply.extend_from_slice(NO_MODEL_REPLY),
    }
}
