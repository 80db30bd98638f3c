// Single calls of the sources and sinks, and reading and writing to the end.
ghost use Rattle.std.specs.Prelude.{◌<◌};

use cs_outside::{
    FailSink, FailSource, Failed, MemSink, MemSource, ReadError, Sink, Source, StdSink, StdSource,
    read_to_end, write_whole,
};
use std::alloc::{AllocError, Global};
use std::io;
use std::io::{ErrorKind, Read, Write};
use std::test::Fail;

// Returns a source of `bytes` that returns at most `most` bytes a call, and fails at call `call`.
fn failing(alloc: Global, bytes: &[u8], call: u64, most: usize) -> Result<FailSource, AllocError>
    requires { 0 < most }
{
    Ok(FailSource::new(bytes.to_vec(alloc)?, [call].to_vec(alloc)?, most))
}

// Returns whether a source returns "hello" two bytes at a time, except that the second call fails.
fn gives_hello_but_at_the_second_call(source: &mut FailSource) -> bool {
    let mut into = [0u8; 4];
    source.read(&mut into) == Ok(2)
        && into == *b"he\0\0"
        && source.read(&mut into) == Err(Failed)
        && source.read(&mut into) == Ok(2)
        && into == *b"ll\0\0"
        && source.read(&mut into) == Ok(1)
        && source.read(&mut into) == Ok(0)
}

#[test]
fn listed_calls_of_a_source_fail(rt: HostRuntime) -> Result<(), Fail> {
    let mut source = failing(rt.alloc(), b"hello", 1, 2)?;
    assert!(rt; gives_hello_but_at_the_second_call(&mut source));
    Ok(())
}

// Returns whether a sink accepts three bytes, fails at the second call, and then accepts two bytes and no more.
fn takes_hello_but_at_the_second_call(sink: &mut FailSink) -> bool {
    sink.write(b"hello") == Ok(3)
        && sink.write(b"lo") == Err(Failed)
        && sink.write(b"lo!") == Ok(2)
        && sink.write(b"!") == Err(Failed)
        && sink.taken() == b"hello".as_slice()
}

#[test]
fn listed_calls_of_a_sink_fail_and_so_does_a_full_one(rt: HostRuntime) -> Result<(), Fail> {
    let alloc = rt.alloc();
    let mut sink = FailSink::new(alloc, [1u64].to_vec(alloc)?, 3, 5)?;
    assert!(rt; takes_hello_but_at_the_second_call(&mut sink));
    Ok(())
}

#[test]
fn a_source_is_read_to_its_end(rt: HostRuntime) -> Result<(), Fail> {
    let alloc = rt.alloc();
    let mut source = MemSource::new(b"twelve bytes".to_vec(alloc)?);
    let read = read_to_end(alloc, &mut source, 12).ok().ok_or("refused")?;
    assert!(rt; read.as_slice() == b"twelve bytes".as_slice());
    Ok(())
}

// Returns whether an input of `count` bytes is read to its end.
fn is_read_whole(alloc: Global, count: usize) -> Result<bool, AllocError>
    requires { count < 100000 }
{
    let mut source = MemSource::new(vec![in alloc; 7; count]?);
    Ok(match read_to_end(alloc, &mut source, 65_536) {
        Ok(read) => read.len() == count,
        Err(_) => false,
    })
}

#[test]
fn inputs_of_some_pieces_are_read_whole(rt: HostRuntime) -> Result<(), Fail> {
    for count in [4_095, 4_096, 4_097, 8_192, 8_193, 65_535, 65_536] {
        assert!(rt; is_read_whole(rt.alloc(), count)?, "{count} bytes");
    }
    Ok(())
}

#[test]
fn a_source_is_read_no_further_than_one_byte_past_the_limit(rt: HostRuntime) -> Result<(), Fail> {
    let alloc = rt.alloc();
    let mut source = MemSource::new(b"thirteen byte".to_vec(alloc)?);
    assert!(rt; read_to_end(alloc, &mut source, 11).err() == Some(ReadError::TooLong));
    let mut into = [0u8; 4];
    assert!(rt; source.read(&mut into) == Ok(1));
    Ok(())
}

#[test]
fn a_fault_ends_the_reading(rt: HostRuntime) -> Result<(), Fail> {
    let mut source = failing(rt.alloc(), b"twelve bytes", 2, 3)?;
    assert!(rt; read_to_end(rt.alloc(), &mut source, 12).err() == Some(ReadError::ReadFault));
    Ok(())
}

// Returns whether a sink accepts eight bytes out of eleven.
fn takes_eight_bytes(sink: &mut MemSink) -> bool {
    write_whole(sink, b"hello") == Ok(())
        && write_whole(sink, b" world") == Err(Failed)
        && sink.taken() == b"hello wo".as_slice()
}

#[test]
fn a_piece_is_written_as_far_as_there_is_room(rt: HostRuntime) -> Result<(), Fail> {
    let mut sink = MemSink::new(rt.alloc(), 8)?;
    assert!(rt; takes_eight_bytes(&mut sink));
    Ok(())
}

// Returns whether eleven bytes are written if call `fails` fails and each call accepts at most `most` bytes.
fn are_written(alloc: Global, fails: u64, most: usize) -> Result<bool, AllocError>
    requires { 0 < most }
{
    let mut sink = FailSink::new(alloc, [fails].to_vec(alloc)?, most, 16)?;
    let written = write_whole(&mut sink, b"hello world");
    Ok(written == Ok(()) && sink.taken() == b"hello world".as_slice())
}

#[test]
fn each_write_is_given_all_that_is_left_of_its_piece(rt: HostRuntime) -> Result<(), Fail> {
    let alloc = rt.alloc();
    // The second call fails, so the first must accept the complete piece.
    assert!(rt; are_written(alloc, 1, 16)?);
    // A call accepts at most five bytes, so three calls write all eleven, and the fourth is not made.
    assert!(rt; are_written(alloc, 3, 5)?);
    Ok(())
}

// A reader and writer whose calls all fail.
#[derive(Drop)]
struct Broken;

impl Read for Broken {
    fn read(&mut self, _into: &mut [u8]) -> io::Result<usize> {
        Err(io::Error::from(ErrorKind::BrokenPipe))
    }
}

impl Write for Broken {
    fn write(&mut self, _piece: &[u8]) -> io::Result<usize> {
        Err(io::Error::from(ErrorKind::BrokenPipe))
    }

    fn flush(&mut self) -> io::Result<()> {
        Ok(())
    }
}

#[derive(Drop)]
struct Stuck;

impl Write for Stuck {
    fn write(&mut self, _piece: &[u8]) -> io::Result<usize> {
        Ok(0)
    }

    fn flush(&mut self) -> io::Result<()> {
        Ok(())
    }
}

// A reader and writer whose first call fails.
#[derive(Drop)]
struct FailsOnce {
    failed: bool,
}

impl Read for FailsOnce {
    fn read(&mut self, _into: &mut [u8]) -> io::Result<usize> {
        if self.failed {
            return Ok(0);
        }
        self.failed = true;
        Err(io::Error::from(ErrorKind::BrokenPipe))
    }
}

impl Write for FailsOnce {
    fn write(&mut self, piece: &[u8]) -> io::Result<usize> {
        if self.failed {
            return Ok(piece.len());
        }
        self.failed = true;
        Err(io::Error::from(ErrorKind::BrokenPipe))
    }

    fn flush(&mut self) -> io::Result<()> {
        Ok(())
    }
}

// Returns whether the first read fails, and the second returns the end of the input.
fn fails_at_the_first_read(source: &mut StdSource<FailsOnce>) -> bool {
    let mut into = [0u8; 4];
    source.read(&mut into) == Err(Failed) && source.read(&mut into) == Ok(0)
}

// Returns whether the first write fails, and the second accepts everything.
fn fails_at_the_first_write(sink: &mut StdSink<FailsOnce>) -> bool {
    sink.write(b"hello") == Err(Failed) && sink.write(b"hello") == Ok(5)
}

#[test]
fn a_call_of_std_that_fails_is_not_made_again(rt: HostRuntime) {
    assert!(rt; fails_at_the_first_read(&mut StdSource::new(FailsOnce { failed: false })));
    assert!(rt; fails_at_the_first_write(&mut StdSink::new(FailsOnce { failed: false })));
}

// Returns whether a source returns "hello", with four bytes in the first call.
fn gives_hello(source: &mut StdSource<&[u8]>) -> bool {
    let mut into = [0u8; 4];
    source.read(&mut into) == Ok(4)
        && into == *b"hell"
        && source.read(&mut into) == Ok(1)
        && source.read(&mut into) == Ok(0)
}

#[test]
fn a_reader_of_std_is_a_source(rt: HostRuntime) {
    let mut into = [0u8; 4];
    assert!(rt; gives_hello(&mut StdSource::new(b"hello".as_slice())));
    assert!(rt; StdSource::new(Broken).read(&mut into) == Err(Failed));
}

#[test]
fn a_writer_of_std_is_a_sink(rt: HostRuntime) {
    let mut written = Vec::new(rt.alloc());
    assert!(rt; StdSink::new(&mut written).write(b"hello") == Ok(5));
    assert!(rt; written.as_slice() == b"hello".as_slice());
    assert!(rt; StdSink::new(Broken).write(b"hello") == Err(Failed));
    assert!(rt; StdSink::new(Stuck).write(b"hello") == Err(Failed));
}
