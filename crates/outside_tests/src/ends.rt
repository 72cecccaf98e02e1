// The ends of the program, one call at a time.
use memory_ends::{MemSink, MemSource};
use std::io::{ErrorKind, Read};
use std::test::Fail;
use std::{fs, io};
use sym_io::{
    CurrentFolder, Failed, Sink, Source, StandardInput, StandardOutput, Store, StoreFault,
};

/// A reader that can't be read.
#[derive(Drop)]
struct Broken;

impl Read for Broken {
    fn read(&mut self, _: &mut [u8]) -> io::Result<usize> {
        Err(io::Error::from(ErrorKind::BrokenPipe))
    }
}

#[test]
fn standard_input_reads_to_its_end(rt: HostRuntime) {
    let mut buf = [0u8; 3];
    let mut input = StandardInput::new(b"abcd".as_slice());
    assert_eq!(rt; input.read(&mut buf), Ok(3));
    assert_eq!(rt; buf, *b"abc");
    assert_eq!(rt; input.read(&mut buf), Ok(1));
    assert_eq!(rt; input.read(&mut buf), Ok(0));
    let mut input = StandardInput::new(Broken);
    assert_eq!(rt; input.read(&mut buf), Err(Failed));
}

#[test]
fn standard_output_that_takes_nothing_has_failed(rt: HostRuntime) {
    let mut room = [0u8; 3];
    let mut out = StandardOutput::new(room.as_mut_slice());
    assert_eq!(rt; out.write(b"abcd"), Ok(3));
    assert_eq!(rt; out.write(b""), Ok(0));
    assert_eq!(rt; out.write(b"d"), Err(Failed));
    assert_eq!(rt; room, *b"abc");
}

#[test]
fn the_current_folder_keeps_files(rt: HostRuntime) -> Result<(), Fail> {
    let mut folder = CurrentFolder::new(&rt);
    folder.put("kept", b"abc")?;
    folder.put("kept", b"de")?;
    assert_eq!(rt;
        folder.get(rt.alloc(), "kept")?.as_slice(),
        b"de".as_slice()
    );
    assert_eq!(rt; folder.get(rt.alloc(), "none"), Err(StoreFault::Failed));
    assert_eq!(rt; folder.put("no/such/folder", b"abc"), Err(Failed));
    fs::remove_file(&rt, "kept")?;
    Ok(())
}

#[test]
fn listed_calls_fail_in_memory(rt: HostRuntime) -> Result<(), Fail> {
    let alloc = rt.alloc();
    let mut buf = [0u8; 2];
    let mut source = MemSource::new(
        Vec::from_slice(alloc, b"abc")?,
        Vec::from_slice(alloc, &[2, 4])?,
    );
    for wanted in [Ok(2), Err(Failed), Ok(1), Err(Failed), Ok(0)] {
        assert_eq!(rt; source.read(&mut buf), wanted);
    }
    let mut sink = MemSink::new(alloc, Vec::from_slice(alloc, &[2])?);
    for wanted in [Ok(2), Err(Failed), Ok(2)] {
        assert_eq!(rt; sink.write(b"ab"), wanted);
    }
    assert_eq!(rt; sink.bytes(), b"abab".as_slice());
    Ok(())
}
