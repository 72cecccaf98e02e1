// A search, from a file.
ghost use Rattle.std.specs.Prelude.{◌≡◌, true, [], OnOk, OnErr};
ghost use Rattle.command_words.specs.Names.{is_file_name};
ghost use Rattle.reply_texts.specs.Texts.{memory_text};
ghost use Rattle.command_family.specs.State.{shell_state, HasScriptModel, HasOrder};
ghost use Rattle.file_commands.specs.Saving.{RestoreStep};
ghost use Rattle.file_commands.specs.private.Saving.{TakesText};

use command_files::{read_text, write_refusal};
use kept_env::Env;
use reply_texts::OK_REPLY;
use search_file::search_in;
use shell_replies::write_warm_fault;
use std::alloc::{AllocError, Global};
use sym_io::Store;

/// Replaces model and search by those of the named file.
pub fn restore<S: Store>(
    alloc: Global,
    env: &mut Env,
    store: &mut S,
    name: &[u8],
    reply: &mut Vec<u8>,
) -> Result<(), AllocError>
    requires name { is_file_name name.now ≡ true }
    requires empty { reply.old.items ≡ [] }
    requires script { HasScriptModel env.old }
    requires order { HasOrder env.old }
    ensures answered { OnOk result (RestoreStep (shell_state env.old (S.files store.old) (S.faults store.old)) name.now reply.new.items
        (shell_state env.new (S.files store.new) (S.faults store.new))) }
    ensures unfinished { OnErr result (RestoreStep (shell_state env.old (S.files store.old) (S.faults store.old)) name.now memory_text
        (shell_state env.new (S.files store.new) (S.faults store.new))) }
    ensures script { HasScriptModel env.new }
    ensures order { HasOrder env.new }
{
    match read_text(alloc, store, name) {
        Ok(text) => take_text(alloc, env, &text, reply),
        Err(unread) => write_refusal(reply, unread),
    }
}

/// Takes the search that a text states, or tells the first fault of the text. The reply's memory is taken first: so all stays where there
/// is none, and no search has to be let go for want of it.
fn take_text(
    alloc: Global,
    env: &mut Env,
    text: &[u8],
    reply: &mut Vec<u8>,
) -> Result<(), AllocError>
    requires empty { reply.old.items ≡ [] }
    requires script { HasScriptModel env.old }
    requires order { HasOrder env.old }
    ensures answered { OnOk result (TakesText text.now env.old reply.new.items env.new) }
    ensures unfinished { OnErr result (env.new ≡ env.old) }
    ensures script { HasScriptModel env.new }
    ensures order { HasOrder env.new }
{
    reply.extend_from_slice(OK_REPLY)?;
    match search_in(alloc, text) {
        Ok(search) => {
            let _lawful = search.model().cols();
            env.restore(search);
            Ok(())
        }
        Err(fault) => {
            reply.clear();
            write_warm_fault(reply, fault)
        }
    }
}
