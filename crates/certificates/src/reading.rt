//! Reading and checking a sequence of certificates.
//!
//! Certificates are checked as they are read. The error `Broken` is returned before the bytes read from its offset
//! exceed the length of the longest certificate, and `TooLong` after one byte more than 67,108,864.

ghost use Rattle.std.specs.Prelude.{◌≡◌, ◌<◌, ◌≤◌, ◌+◌, ◌-◌, min, length, take, IfOk, IfErr, OnErr};
ghost use Rattle.cs_outside.specs.Counts.{Rose};
ghost use Rattle.tail_cert.specs.Form.{count_of, head_count, most_count};
ghost use Rattle.certificates.specs.Stream.{most_bytes};
ghost use Rattle.certificates.specs.Reading.{HasReadAnswers, IsCause, IsStep};

use crate::StreamError;
use crate::part_read::PartRead;
use cs_outside::{Failed, Source};
use std::alloc::Global;
use tail_cert::{Certificate, HEAD_BYTES, check, head, parse};

// The limit on the length of the input, in bytes. At most one byte past it is read.
const MOST_BYTES: usize = 67_108_864;

// The state of a certificate after some of its bytes were read.
#[derive(Drop)]
pub(crate) enum Step {
    // The certificate is incomplete; the number of its bytes that may be read so far.
    Partial(usize),
    // The certificate is complete; whether it is accepted.
    Whole(bool),
    // The format is broken; the offset in the certificate of the first byte that breaks it.
    Broken(u64),
}

/// Reads the certificates in a source to the end of the input, and returns in order whether each is accepted. If an
/// error occurs, the earlier answers are dropped. (own)
pub fn read_answers<S: Source>(alloc: Global, source: &mut S) -> Result<Vec<bool>, StreamError>
    ensures ok { IfOk result (λ answers. HasReadAnswers answers.items (S.state source.old) (S.state source.new)) }
    ensures err { IfErr result (IsCause (S.state source.old) (S.state source.new)) }
    ensures never_falls { (S.state source.old).faults ≤ (S.state source.new).faults }
{
    let mut certificate = Certificate::new(alloc)?;
    let mut part = PartRead::new(alloc)?;
    read_each(alloc, source, &mut certificate, &mut part)
}

// Returns in order whether each certificate in a source is accepted. `certificate` and `part` hold the current one and
// its bytes.
fn read_each<S: Source>(
    alloc: Global,
    source: &mut S,
    certificate: &mut Certificate,
    part: &mut PartRead,
) -> Result<Vec<bool>, StreamError>
    requires { length part.old ≡ head_count }
    ensures ok { IfOk result (λ answers. HasReadAnswers answers.items (S.state source.old) (S.state source.new)) }
    ensures err { IfErr result (IsCause (S.state source.old) (S.state source.new)) }
    ensures never_falls { (S.state source.old).faults ≤ (S.state source.new).faults }
{
    let mut answers = Vec::new(alloc);
    // the number of bytes in complete certificates, and for the next certificate the number of bytes read and the
    // number that may be read so far
    let mut done = 0;
    let mut filled = 0;
    let mut aim = HEAD_BYTES;
    loop {
        match part.read(source, filled, part_end(aim, done)) {
            Err(Failed) => return Err(StreamError::ReadFault),
            Ok(0) if filled == 0 => return Ok(answers),
            Ok(0) => return Err(StreamError::Broken((done + filled) as u64)),
            Ok(n) => filled += n,
        }
        match judge(part.front(filled), certificate) {
            Step::Broken(place) => return Err(broken_at(done as u64 + place)),
            Step::Partial(next) => {
                if done + filled > MOST_BYTES {
                    return Err(StreamError::TooLong);
                }
                aim = next;
                part.make_room(aim)?;
            }
            Step::Whole(answer) => {
                if done + filled > MOST_BYTES {
                    return Err(StreamError::TooLong);
                }
                if answers.push(answer).is_err() {
                    return Err(StreamError::OutOfMemory);
                }
                done += filled;
                filled = 0;
                aim = HEAD_BYTES;
            }
        }
    }
}

// Returns the error for a byte at offset `place` of the input that breaks the format: `Broken` within the limit,
// `TooLong` for the byte past it.
fn broken_at(place: u64) -> StreamError
    ensures within { place < most_bytes → result ≡ StreamError.Broken place }
    ensures past { most_bytes ≤ place → result ≡ StreamError.TooLong }
{
    if place < MOST_BYTES as u64 {
        StreamError::Broken(place)
    } else {
        StreamError::TooLong
    }
}

// Returns how many bytes of the current certificate may be read if `done` bytes are in complete ones: up to `aim`, but
// at most one byte past the limit.
fn part_end(aim: usize, done: usize) -> usize
    requires { done ≤ most_bytes }
    ensures { result ≡ min aim (most_bytes + 1 - done) }
{
    aim.min(MOST_BYTES + 1 - done)
}

// Returns the state of a certificate after its bytes `part` were read. A complete one is read into `certificate`.
fn judge(part: &[u8], certificate: &mut Certificate) -> Step
    requires most { length part.now ≤ most_count }
    requires fits { length part.now ≤ count_of part.now }
    ensures { IsStep part.now result }
{
    let front = &part[..part.len().min(HEAD_BYTES)];
    match head(front) {
        Err(bad) if bad.place < front.len() as u64 => Step::Broken(bad.place),
        Err(_) => Step::Partial(HEAD_BYTES),
        Ok(whole) if part.len() < whole => Step::Partial(whole),
        Ok(_) => judge_whole(part, certificate),
    }
}

// Returns the state of a certificate after all its bytes were read: whether it is accepted, or where its format is
// broken.
fn judge_whole(part: &[u8], certificate: &mut Certificate) -> Step
    requires most { length part.now ≤ most_count }
    requires fits { length part.now ≡ count_of part.now }
    ensures { IsStep part.now result }
{
    match parse(part, certificate) {
        Ok(()) => Step::Whole(check(certificate)),
        Err(bad) => Step::Broken(bad.place),
    }
}
