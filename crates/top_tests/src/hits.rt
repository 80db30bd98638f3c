//! The command `hits`.

ghost use Rattle.std.specs.Prelude.{◌+◌, ◌*◌, ◌≤◌, length};

use crate::cells::{lone_signal, many_signals, plain_gives, zeros_give};
use crate::faults::{output_with_little_room, output_with_write_fault};
use crate::lengths::refuse_lengths;
use crate::{Output, ROOM, command_line, gives};
use cs_outside::{FailSource, MemSink, StdSink, StdSource};
use lte_top::{Program, Status, run};
use std::alloc::{AllocError, Global};
use std::test::Fail;
use test_support::{PRIMARY, put_sample, silence};

#[test]
fn zeros_hold_no_hit(rt: HostRuntime) -> Result<(), Fail> {
    assert!(rt; zeros_give(rt.alloc(), "hits", "hits 0\n")?);
    assert!(rt; zeros_give(rt.alloc(), "hits --json", "[]\n")?);
    Ok(())
}

#[test]
fn one_second_of_zeros_is_read_whole(rt: HostRuntime) -> Result<(), Fail> {
    let zeros = silence(rt.alloc(), 7_680_000)?;
    assert!(rt; gives(rt.alloc(), "hits", zeros, "hits 0\n")?);
    Ok(())
}

#[test]
fn lengths_that_are_refused(rt: HostRuntime) -> Result<(), Fail> {
    refuse_lengths(&rt, rt.alloc(), Program::Receiver, "hits")
}

// Writes the PSS times 28j from sample `at`.
fn put_turned_signal(bytes: &mut [u8], at: usize)
    requires { 4 * at + 512 ≤ length bytes.old }
{
    for n in 0..128 {
        let (re, im) = (PRIMARY[2 * n], PRIMARY[2 * n + 1]);
        put_sample(bytes, at + n, im.saturating_mul(-28), re.saturating_mul(28));
    }
}

// Returns silence with the PSS times 28j at sample 1,000.
fn turned_signal(alloc: Global) -> Result<Vec<u8>, AllocError> {
    let mut bytes = silence(alloc, 230_400)?;
    put_turned_signal(&mut bytes, 1000);
    Ok(bytes)
}

#[test]
fn a_signal_of_any_phase_and_size_is_one_hit(rt: HostRuntime) -> Result<(), Fail> {
    let alloc = rt.alloc();
    let (plain, turned) = (lone_signal(alloc)?, turned_signal(alloc)?);
    assert!(rt; gives(alloc, "hits", plain, "hits 1\n1000 0\n")?);
    assert!(rt; gives(alloc, "hits", turned, "hits 1\n1000 0\n")?);
    Ok(())
}

// Returns the report on the PSS detections in the first frame of `many_signals`.
fn hits_of_many(alloc: Global) -> Result<String, AllocError> {
    let mut text = String::from_str(alloc, "hits 46\n")?;
    for q in 0..46_u32 {
        let line = format!(in alloc; "{} 0\n", 1000 + 400 * q)?;
        text.push_str(line.as_str())?;
    }
    Ok(text)
}

#[test]
fn signals_past_the_first_frame_are_not_listed(rt: HostRuntime) -> Result<(), Fail> {
    let alloc = rt.alloc();
    assert!(rt; gives(alloc, "hits", many_signals(alloc)?, &hits_of_many(alloc)?)?);
    Ok(())
}

// Returns whether a sink receives nothing from a run with a read fault, and then the complete report from a second run.
fn goes_on_after_a_read_fault(alloc: Global) -> Result<bool, AllocError> {
    let words = command_line(alloc, "hits")?;
    let mut sink = MemSink::new(alloc, ROOM)?;
    let mut source = FailSource::new(silence(alloc, 230_400)?, vec![in alloc; 2; 1]?, 1_000);
    let first = run(alloc, &words, &mut source, &mut sink);
    let nothing = sink.taken().is_empty();
    let mut source = FailSource::new(silence(alloc, 230_400)?, Vec::new(alloc), 1_000);
    let second = run(alloc, &words, &mut source, &mut sink);
    Ok(
        first == Status::ReadFault
            && first.code() == 6
            && nothing
            && second == Status::Done
            && sink.taken() == b"hits 0\n".as_slice(),
    )
}

#[test]
fn a_call_of_the_source_that_fails(rt: HostRuntime) -> Result<(), Fail> {
    assert!(rt; goes_on_after_a_read_fault(rt.alloc())?);
    Ok(())
}

#[test]
fn a_call_of_the_sink_that_fails(rt: HostRuntime) -> Result<(), Fail> {
    let output = output_with_write_fault(rt.alloc(), "hits")?;
    assert!(rt; output.is(Status::WriteFault, b"hit") && output.status.code() == 7);
    Ok(())
}

#[test]
fn a_sink_without_room_keeps_a_front(rt: HostRuntime) -> Result<(), Fail> {
    let output = output_with_little_room(rt.alloc(), "hits")?;
    assert!(rt; output.is(Status::WriteFault, b"hit"));
    Ok(())
}

// Runs `hits` on a reader and a writer from `std`.
fn hits_of_std(alloc: Global, bytes: &[u8]) -> Result<Output, AllocError> {
    let words = command_line(alloc, "hits")?;
    let mut written = Vec::new(alloc);
    let status = run(
        alloc,
        &words,
        &mut StdSource::new(bytes),
        &mut StdSink::new(&mut written),
    );
    Ok(Output { status, written })
}

#[test]
fn readers_and_writers_of_std(rt: HostRuntime) -> Result<(), Fail> {
    let alloc = rt.alloc();
    for (len, refusal) in [
        (0, Status::TooShort),
        (230_399, Status::Ragged),
        (7_680_001, Status::TooLong),
    ] {
        let output = hits_of_std(alloc, &silence(alloc, len)?)?;
        assert!(rt; output.is(refusal, b""), "{len} bytes");
    }
    let zeros = silence(alloc, 230_400)?;
    assert!(rt; hits_of_std(alloc, &zeros)?.is(Status::Done, b"hits 0\n"));
    let signal = lone_signal(alloc)?;
    assert!(rt; hits_of_std(alloc, &signal)?.is(Status::Done, b"hits 1\n1000 0\n"));
    Ok(())
}

// The PSS detections in the plain cell's recording, from the reference implementation, `python/lte_reference/forms.py`.
const AS_JSON: &str =
    "[{\"energy\":1996394,\"n2\":0,\"peak\":3985589003236,\"power\":1996394,\"t\":832},{\"energy\":1996394,\
\"n2\":0,\"peak\":3985589003236,\"power\":1996394,\"t\":10432}]\n";

#[test]
fn hits_of_a_plain_cell_as_json(rt: HostRuntime) -> Result<(), Fail> {
    assert!(rt; plain_gives(rt.alloc(), "hits --json", AS_JSON)?);
    Ok(())
}
