//! `StdSource` and `StdSink`: each call makes one call of the reader or writer, with the same bytes.

use cs_outside::{Failed, Sink, Source, StdSink, StdSource};
use std::alloc::{AllocError, Global};
use std::io;
use std::io::{ErrorKind, Read, Write};
use std::test::Fail;

// The byte counts that calls are tried with.
const SIZES: [usize; 8] = [1, 2, 15, 16, 17, 4_095, 4_096, 20_000];

// A reader and writer that records each call's byte count, and transfers at most `taken` bytes a call, or fails if
// `taken` is `None`.
#[derive(Drop)]
struct Recorder {
    sizes: Vec<usize>,
    taken: Option<usize>,
}

impl Recorder {
    // Returns a recorder that accepts at most `taken` bytes a call, or whose calls fail if `taken` is `None`.
    fn new(alloc: Global, taken: Option<usize>) -> Recorder {
        Recorder {
            sizes: Vec::new(alloc),
            taken,
        }
    }

    // Returns whether exactly one call was made, with `size` bytes.
    fn was_called_once(&self, size: usize) -> bool {
        self.sizes.as_slice() == [size].as_slice()
    }
}

impl Read for Recorder {
    fn read(&mut self, into: &mut [u8]) -> io::Result<usize> {
        self.sizes.push(into.len())?;
        match self.taken {
            Some(most) => Ok(into.len().min(most)),
            None => Err(io::Error::from(ErrorKind::BrokenPipe)),
        }
    }
}

impl Write for Recorder {
    fn write(&mut self, piece: &[u8]) -> io::Result<usize> {
        self.sizes.push(piece.len())?;
        match self.taken {
            Some(most) => Ok(piece.len().min(most)),
            None => Err(io::Error::from(ErrorKind::BrokenPipe)),
        }
    }

    fn flush(&mut self) -> io::Result<()> {
        Ok(())
    }
}

// Calls `read` once on a source over the recorder, with a buffer of `size` bytes.
fn read_into(
    alloc: Global,
    recorder: &mut Recorder,
    size: usize,
) -> Result<Result<usize, Failed>, AllocError> {
    let mut buffer = vec![in alloc; 0_u8; size]?;
    let mut source = StdSource::new(recorder);
    if buffer.is_empty() {
        return Ok(Ok(0));
    }
    Ok(source.read(&mut buffer))
}

// Calls `write` once on a sink over the recorder, with a piece of `size` bytes.
fn write_of(
    alloc: Global,
    recorder: &mut Recorder,
    size: usize,
) -> Result<Result<usize, Failed>, AllocError> {
    let piece = vec![in alloc; 0_u8; size]?;
    let mut sink = StdSink::new(recorder);
    if piece.is_empty() {
        return Ok(Ok(0));
    }
    Ok(sink.write(&piece))
}

#[test]
fn a_reader_is_asked_once_for_all_that_fits(rt: HostRuntime) -> Result<(), Fail> {
    let alloc = rt.alloc();
    for size in SIZES {
        for taken in [Some(usize::MAX), Some(1), Some(0), None] {
            let mut recorder = Recorder::new(alloc, taken);
            let answer = read_into(alloc, &mut recorder, size)?;
            let expected = taken.map(|most| size.min(most)).ok_or(Failed);
            assert!(rt;
                answer == expected && recorder.was_called_once(size),
                "{size} {taken:?}"
            );
        }
    }
    Ok(())
}

#[test]
fn a_writer_is_given_the_whole_piece_once(rt: HostRuntime) -> Result<(), Fail> {
    let alloc = rt.alloc();
    for size in SIZES {
        for taken in [Some(usize::MAX), Some(1), Some(0), None] {
            let mut recorder = Recorder::new(alloc, taken);
            let answer = write_of(alloc, &mut recorder, size)?;
            let some = taken.filter(|most| *most > 0);
            let expected = some.map(|most| size.min(most)).ok_or(Failed);
            assert!(rt;
                answer == expected && recorder.was_called_once(size),
                "{size} {taken:?}"
            );
        }
    }
    Ok(())
}
