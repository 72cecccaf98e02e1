// An edit of the model that is present.
ghost use Rattle.std.specs.Prelude.{◌≡◌, [], OnOk, OnErr, map};
ghost use Rattle.edit_words.specs.EditWords.{edit_asks};
ghost use Rattle.edit_words.specs.NewBounds.{BringsBounds, IsNearBound};
ghost use Rattle.edit_words.specs.NewNames.{BringsName, IsNewName};
ghost use Rattle.reply_texts.specs.Texts.{memory_text};
ghost use Rattle.command_family.specs.State.{HasScriptModel, HasOrder};
ghost use Rattle.edit_commands.specs.Editing.{RepliesToEdit, RepliesToWords};

use command_family::tell_done;
use edit_words::{EditAsked, read_edit};
use kept_env::Env;
use lp_model::Edit;
use reply_texts::{ARGUMENTS_REPLY, MEMORY_REPLY, OK_REPLY, write_no_number};
use std::alloc::{AllocError, Global};

/// Makes the edit that the words behind `edit` ask for, or tells why not.
pub fn edit(
    alloc: Global,
    env: &mut Env,
    words: &[&[u8]],
    reply: &mut Vec<u8>,
) -> Result<(), AllocError>
    requires empty { reply.old.items ≡ [] }
    requires script { HasScriptModel env.old }
    requires order { HasOrder env.old }
    ensures answered { OnOk result (RepliesToWords (edit_asks (map (λ word. word.now) words.now)) env.old reply.new.items env.new) }
    ensures unfinished { OnErr result (RepliesToWords (edit_asks (map (λ word. word.now) words.now)) env.old memory_text env.new) }
    ensures script { HasScriptModel env.new }
    ensures order { HasOrder env.new }
{
    match read_edit(alloc, words) {
        EditAsked::Edits(edit) => change(env, edit, reply),
        EditAsked::Misused => reply.extend_from_slice(ARGUMENTS_REPLY),
        EditAsked::NoNumber { word } => write_no_number(reply, word),
        EditAsked::Memory => reply.extend_from_slice(MEMORY_REPLY),
    }
}

/// Makes an edit, and tells whether it was made. The reply's memory is taken first, so that all stays where there is none.
fn change(env: &mut Env, edit: Edit, reply: &mut Vec<u8>) -> Result<(), AllocError>
    requires named { BringsName IsNewName edit }
    requires near { BringsBounds IsNearBound edit }
    requires empty { reply.old.items ≡ [] }
    requires script { HasScriptModel env.old }
    requires order { HasOrder env.old }
    ensures answered { OnOk result (RepliesToEdit env.old.search edit env.old reply.new.items env.new) }
    ensures unfinished { OnErr result (RepliesToEdit env.old.search edit env.old memory_text env.new) }
    ensures script { HasScriptModel env.new }
    ensures order { HasOrder env.new }
{
    if reply.extend_from_slice(OK_REPLY).is_err() {
        drop(edit);
        return Err(AllocError);
    }
    let done = env.edit(edit);
    tell_done(reply, done)
}
