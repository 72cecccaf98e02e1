// What answers commands.
ghost use Rattle.std.specs.Prelude.{◌≡◌, ◌<◌, ◌≤◌, ℕ, Bool, List, [], length, map, OnOk, OnErr};
ghost use Rattle.sym_io.specs.Files.{Files};
ghost use Rattle.script_session.specs.Stand.{Stand, stand};

use std::alloc::{AllocError, Global};
use sym_io::Store;

/// What answers a script's commands over a store of files. A command is its words, of which there is at least one.
pub trait Machine {
    /// From a machine beside a store so, a command may be answered with these bytes, and leave the machine and the store so.
    ghost step: { Stand Self → List (List ℕ) → List ℕ → Stand Self → Type 0 };

    /// Whether a command ends the script.
    ghost ends: { List (List ℕ) → Bool };

    /// Whether the command of these words ends the script. It is answered all the same.
    fn ends_script(&self, words: &[&[u8]]) -> bool
        ensures { result ≡ ends (map (λ word. word.now) words.now) };

    /// Answers a command: appends the reply's bytes, its line ends included, to `reply`, which is empty. A reply that
    /// begins with `error ` is a refusal, and `error 90 memory` is the one for want of memory.
    ///
    /// # Errors
    ///
    /// Only for want of memory: the step was made, and its reply could not be made whole.
    fn answer<S: Store>(
        &mut self,
        alloc: Global,
        store: &mut S,
        words: &[&[u8]],
        reply: &mut Vec<u8>,
    ) -> Result<(), AllocError>
        requires some { 0 < length words.now }
        requires empty { reply.old.items ≡ [] }
        ensures answered { OnOk result (step (stand self.old (S.files store.old) (S.faults store.old))
            (map (λ word. word.now) words.now) reply.new.items
            (stand self.new (S.files store.new) (S.faults store.new))) }
        ensures unfinished { OnErr result ((bytes : List ℕ) × step (stand self.old (S.files store.old) (S.faults store.old))
            (map (λ word. word.now) words.now) bytes
            (stand self.new (S.files store.new) (S.faults store.new))) }
        ensures store_later { S.faults store.old ≤ S.faults store.new };
}
