// Ends that move few bytes at a time, as pipes and terminals do.
use crate::echo::Echo;
use memory_ends::MemStore;
use script_session::run_script;
use std::alloc::Global;
use std::collections::BTreeMap;
use std::io;
use std::io::{Read, Write};
use std::test::Fail;
use sym_io::{StandardInput, StandardOutput};

/// A reader or a writer that moves at most so many bytes a call.
#[derive(Drop)]
struct Few<T> {
    inner: T,
    most: usize,
}

impl<R: Read> Read for Few<R> {
    fn read(&mut self, buf: &mut [u8]) -> io::Result<usize> {
        let count = buf.len().min(self.most);
        self.inner.read(&mut buf[..count])
    }
}

impl<W: Write> Write for Few<W> {
    fn write(&mut self, bytes: &[u8]) -> io::Result<usize> {
        let count = bytes.len().min(self.most);
        self.inner.write(&bytes[..count])
    }

    fn flush(&mut self) -> io::Result<()> {
        self.inner.flush()
    }
}

/// The status of a script that comes, and whose replies go into `room`, in pieces of at most `most` bytes.
fn answer(alloc: Global, script: &[u8], most: usize, room: &mut [u8]) -> u8 {
    let mut source = StandardInput::new(Few {
        inner: script,
        most,
    });
    let mut sink = StandardOutput::new(Few { inner: room, most });
    let mut store = MemStore::new(alloc, BTreeMap::new(alloc), Vec::new(alloc));
    run_script(alloc, &mut Echo, &mut source, &mut sink, &mut store)
}

#[test]
fn pieces_of_any_length_make_one_script(rt: HostRuntime) -> Result<(), Fail> {
    // The room of the second script ends within a reply: a sink that takes nothing more has failed.
    let cases: [(&[u8], u8, &[u8]); 2] = [
        (
            b"a  b\r\n#c\nquite long\nx y z\nb\n",
            0,
            b"a b\nquite long\nx y z\n...",
        ),
        (
            b"ten bytes\nof twenty or more",
            4,
            b"ten bytes\nof twenty or",
        ),
    ];
    for (script, status, written) in cases {
        for most in [1, 2, 3, 5, 64] {
            let mut room = vec![in rt.alloc(); b'.'; written.len()]?;
            let found = answer(rt.alloc(), script, most, &mut room);
            assert_eq!(rt; found, status, "of {script:?} by {most}");
            assert_eq!(rt; room.as_slice(), written, "of {script:?} by {most}");
        }
    }
    Ok(())
}
