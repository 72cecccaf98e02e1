// A tree that is cut down.
ghost use Rattle.std.specs.Prelude.{◌≡◌, [], OnOk, OnErr};
ghost use Rattle.reply_texts.specs.Texts.{memory_text};
ghost use Rattle.command_family.specs.State.{HasScriptModel, HasOrder};
ghost use Rattle.edit_commands.specs.Trimming.{RepliesToTrim};

use command_family::tell_done;
use kept_env::Env;
use reply_texts::OK_REPLY;
use std::alloc::AllocError;

/// Cuts the tree down at a depth. The reply's memory is taken first, so that all stays where there is none.
pub fn trim(env: &mut Env, depth: u64, reply: &mut Vec<u8>) -> Result<(), AllocError>
    requires empty { reply.old.items ≡ [] }
    requires script { HasScriptModel env.old }
    requires order { HasOrder env.old }
    ensures answered { OnOk result (RepliesToTrim env.old.search depth env.old reply.new.items env.new) }
    ensures unfinished { OnErr result (RepliesToTrim env.old.search depth env.old memory_text env.new) }
    ensures script { HasScriptModel env.new }
    ensures order { HasOrder env.new }
{
    if reply.extend_from_slice(OK_REPLY).is_err() {
        return Err(AllocError);
    }
    let done = env.trim(depth);
    tell_done(reply, done)
}
