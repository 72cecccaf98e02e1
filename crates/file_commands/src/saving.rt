// The search that is kept, as a file.
ghost use Rattle.std.specs.Prelude.{◌≡◌, ◌≤◌, true, [], OnOk, OnErr};
ghost use Rattle.command_words.specs.Names.{is_file_name};
ghost use Rattle.reply_texts.specs.Texts.{memory_text};
ghost use Rattle.command_family.specs.State.{shell_state, HasScriptModel, HasOrder};
ghost use Rattle.command_files.specs.Filing.{Writes};
ghost use Rattle.search_file.specs.Files.{IsTextOf};
ghost use Rattle.search_file.specs.Saved.{saved_data};
ghost use Rattle.warm_writer.specs.Writable.{IsWritable};
ghost use Rattle.file_commands.specs.Saving.{SaveStep};

use command_files::write_file;
use kept_env::Env;
use reply_texts::{MEMORY_REPLY, NO_MODEL_REPLY};
use search_file::text_of;
use std::alloc::{AllocError, Global};
use sym_io::Store;
use tree_edit::Search;

/// Writes the search that is kept to a file. Its model is one that scripts may have and its lists stand in order, so it has a text that
/// states it.
pub fn save<S: Store>(
    alloc: Global,
    env: &Env,
    store: &mut S,
    name: &[u8],
    reply: &mut Vec<u8>,
) -> Result<(), AllocError>
    requires name { is_file_name name.now ≡ true }
    requires empty { reply.old.items ≡ [] }
    requires script { HasScriptModel env.now }
    requires order { HasOrder env.now }
    ensures answered { OnOk result (SaveStep (shell_state env.now (S.files store.old) (S.faults store.old)) name.now reply.new.items
        (shell_state env.now (S.files store.new) (S.faults store.new))) }
    ensures unfinished { OnErr result (SaveStep (shell_state env.now (S.files store.old) (S.faults store.old)) name.now memory_text
        (shell_state env.now (S.files store.new) (S.faults store.new))) }
{
    match env.search() {
        Some(search) => {
            let _lawful = search.model().cols();
            write_search(alloc, store, name, search, reply)
        }
        None => reply.extend_from_slice(NO_MODEL_REPLY),
    }
}

/// Writes the text of a search to a file, and the reply that tells how it went.
fn write_search<S: Store>(
    alloc: Global,
    store: &mut S,
    name: &[u8],
    search: &Search,
    reply: &mut Vec<u8>,
) -> Result<(), AllocError>
    requires name { is_file_name name.now ≡ true }
    requires empty { reply.old.items ≡ [] }
    requires writable { IsWritable (saved_data search.now) }
    ensures answered { OnOk result (Writes (IsTextOf search.now) name.now (S.files store.old) (S.faults store.old) reply.new.items (S.files store.new) (S.faults store.new)) }
    ensures unfinished { OnErr result (Writes (IsTextOf search.now) name.now (S.files store.old) (S.faults store.old) memory_text (S.files store.new) (S.faults store.new)) }
    ensures later { S.faults store.old ≤ S.faults store.new }
{
    match text_of(alloc, search) {
        Ok(text) => write_file(store, name, &text, reply),
        Err(AllocError) => reply.extend_from_slice(MEMORY_REPLY),
    }
}
