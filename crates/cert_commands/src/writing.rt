// The certificate of the answer that is held, as a file.
ghost use Rattle.std.specs.Prelude.{◌≡◌, true, [], OnOk, OnErr};
ghost use Rattle.command_words.specs.Names.{is_file_name};
ghost use Rattle.reply_texts.specs.Texts.{memory_text};
ghost use Rattle.command_family.specs.State.{shell_state, HasScriptModel};
ghost use Rattle.cert_commands.specs.Certify.{CertStep};

use crate::certificates::held_certificate;
use command_family::write_env_fault;
use command_files::write_file;
use kept_env::Env;
use std::alloc::{AllocError, Global};
use sym_io::Store;

/// Writes the certificate of the answer that is held to a file.
pub fn cert<S: Store>(
    alloc: Global,
    env: &Env,
    store: &mut S,
    name: &[u8],
    reply: &mut Vec<u8>,
) -> Result<(), AllocError>
    requires script { HasScriptModel env.now }
    requires name { is_file_name name.now ≡ true }
    requires empty { reply.old.items ≡ [] }
    ensures answered { OnOk result (CertStep (shell_state env.now (S.files store.old) (S.faults store.old)) name.now reply.new.items
        (shell_state env.now (S.files store.new) (S.faults store.new))) }
    ensures unfinished { OnErr result (CertStep (shell_state env.now (S.files store.old) (S.faults store.old)) name.now memory_text
        (shell_state env.now (S.files store.new) (S.faults store.new))) }
{
    let text = match held_certificate(alloc, env) {
        Ok(text) => text,
        Err(fault) => return write_env_fault(reply, fault),
    };
    let told = write_file(store, name, &text, reply);
    drop(text);
    told
}
