// Scripts of a machine whose replies are what a test wants, also for want of memory.
use memory_ends::{MemSink, MemSource, MemStore};
use script_session::{Machine, run_script};
use std::alloc::{AllocError, Global};
use std::collections::BTreeMap;
use std::test::Fail;
use sym_io::Store;

/// Says each command again, its words joined by one blank. But `refuse` is refused, to `starve` memory is wanting, and `lose` has no
/// memory for its reply. A command of three words ends the script.
#[derive(Drop)]
pub(crate) struct Echo;

impl Machine for Echo {
    ghost use Rattle.std.specs.Prelude.{◌==◌, length};

    ghost step = { λ _ _ _ _. Unit {0} };

    ghost ends = { λ words. length words == 3 };

    fn ends_script(&self, words: &[&[u8]]) -> bool {
        words.len() == 3
    }

    fn answer<S: Store>(
        &mut self,
        _alloc: Global,
        _store: &mut S,
        words: &[&[u8]],
        reply: &mut Vec<u8>,
    ) -> Result<(), AllocError> {
        let [first, more @ ..] = words else {
            unreachable!()
        };
        if *first == b"refuse".as_slice() {
            return reply.extend_from_slice(b"error 03 arguments\n");
        }
        if *first == b"starve".as_slice() {
            return reply.extend_from_slice(b"error 90 memory\n");
        }
        if *first == b"lose".as_slice() {
            return Err(AllocError);
        }
        reply.extend_from_slice(first)?;
        for word in more {
            reply.push(b' ')?;
            reply.extend_from_slice(word)?;
        }
        reply.push(b'\n')?;
        Ok(())
    }
}

/// The status of a script, and what is written.
fn answer(alloc: Global, script: &[u8]) -> Result<(u8, Vec<u8>), AllocError> {
    let mut source = MemSource::new(Vec::from_slice(alloc, script)?, Vec::new(alloc));
    let mut sink = MemSink::new(alloc, Vec::new(alloc));
    let mut store = MemStore::new(alloc, BTreeMap::new(alloc), Vec::new(alloc));
    let status = run_script(alloc, &mut Echo, &mut source, &mut sink, &mut store);
    Ok((status, Vec::from_slice(alloc, sink.bytes())?))
}

#[test]
fn scripts_have_their_statuses(rt: HostRuntime) -> Result<(), Fail> {
    let cases: [(&[u8], u8, &[u8]); 5] = [
        (b"a\nx y z\nb\n", 0, b"a\nx y z\n"),
        (b"error of\n", 1, b"error of\n"),
        (b"refuse y z\na\n", 1, b"error 03 arguments\n"),
        (
            b"starve\nrefuse\n",
            5,
            b"error 90 memory\nerror 03 arguments\n",
        ),
        (b"a\nlose\nb\n", 5, b"a\n"),
    ];
    for (script, status, replies) in cases {
        let (found, written) = answer(rt.alloc(), script)?;
        assert_eq!(rt; found, status, "of {script:?}");
        assert_eq!(rt; written.as_slice(), replies, "of {script:?}");
    }
    Ok(())
}
