//! Certificates for the MIBs in a recording's cell list.
//!
//! A certificate holds the combined soft values for the entry's frames, their minimum-cost word, which carries the MIB,
//! and the word's cost. Writing does not allocate. If a sink with known free space fails, the free space was too small
//! for all certificates.

ghost use Rattle.std.specs.Prelude.{◌≡◌, ◌≤◌, OnOk, OnErr};
ghost use Rattle.std.specs.Vec.{vec_capacity};
ghost use Rattle.std.specs.List.{AllZip};
ghost use Rattle.cs_outside.specs.Counts.{Rose};
ghost use Rattle.explain.specs.Receiver.{Receiver, hits_by};
ghost use Rattle.explain.specs.Entries.{IsEntryFor, IsListFor};
ghost use Rattle.explain.specs.Laws.{IsEntryOfSome};
ghost use Rattle.explain.specs.Readings.{IsReadingFor};
ghost use Rattle.tail_cert.specs.Certificate.{IsWhole};
ghost use Rattle.tail_cert.specs.Form.{bytes_of, most_count};
ghost use Rattle.certificates.specs.Certifying.{HasSmallValues, IsCertificateOf, HasCertified, HasCertifiedFront, HasCertifiedAll, HasCertifiedSome};

use cs_outside::{Failed, Sink, write_whole};
use explain::Reading;
use lte_types::Entry;
use sample_file::Recording;
use std::alloc::{AllocError, Global};
use tail_cert::{Certificate, MOST_BYTES, fill, length, to_bytes};
use tailbite::Trellis;

/// The memory in which certificates are made: for one certificate, for the search for its word, and for the bytes of
/// the longest certificate. Its contents have no meaning between two calls.
#[derive(Drop)]
pub struct CertificateWork {
    certificate: Certificate,
    trellis: Trellis,
    buffer: Vec<u8>,
    ghost room: { most_count ≤ vec_capacity buffer },
}

impl CertificateWork {
    /// Allocates everything up front. Fails only if an allocation fails.
    pub fn new(alloc: Global) -> Result<CertificateWork, AllocError> {
        let certificate = Certificate::new(alloc)?;
        let trellis = Trellis::new(alloc)?;
        let buffer = Vec::with_capacity(alloc, MOST_BYTES)?;
        Ok(CertificateWork {
            certificate,
            trellis,
            buffer,
        })
    }
}

/// Writes an accepted certificate for each entry of a recording's list to `sink`, in order. `readings` has each entry's
/// reading. Fails if the sink reports a fault; only a prefix of the certificates is then written. (own)
pub fn certify<K: Sink>(
    recording: &Recording,
    entries: &[Entry],
    readings: &[Reading],
    work: &mut CertificateWork,
    sink: &mut K,
) -> Result<(), Failed>
    ghost receiver: { Receiver }
    requires small { HasSmallValues receiver }
    requires list { IsListFor receiver recording.now entries.now }
    requires readings { AllZip (IsReadingFor receiver recording.now) entries.now readings.now }
    ensures ok { OnOk result
        (HasCertifiedAll receiver recording.now entries.now (K.state sink.old) (K.state sink.new)) }
    ensures err { OnErr result
        (HasCertifiedSome receiver recording.now entries.now (K.state sink.old) (K.state sink.new)) }
    ensures fault { OnErr result (Rose (K.state sink.old).faults (K.state sink.new).faults) }
    ensures never_falls { (K.state sink.old).faults ≤ (K.state sink.new).faults }
{
    for (i, entry) in entries.iter().enumerate() {
        certify_one(recording, entry, &readings[i], work, sink)?;
    }
    Ok(())
}

// Writes an entry's certificate to `sink`. Fails if the sink reports a fault.
fn certify_one<K: Sink>(
    recording: &Recording,
    entry: &Entry,
    reading: &Reading,
    work: &mut CertificateWork,
    sink: &mut K,
) -> Result<(), Failed>
    ghost receiver: { Receiver }
    requires entry { IsEntryOfSome (IsEntryFor receiver recording.now)
        (hits_by receiver.carrier recording.now) entry.now }
    requires reading { IsReadingFor receiver recording.now entry.now reading.now }
    ensures ok { OnOk result (HasCertified receiver recording.now entry.now (K.state sink.old) (K.state sink.new)) }
    ensures err { OnErr result
        (HasCertifiedFront receiver recording.now entry.now (K.state sink.old) (K.state sink.new)) }
    ensures fault { OnErr result (Rose (K.state sink.old).faults (K.state sink.new).faults) }
    ensures never_falls { (K.state sink.old).faults ≤ (K.state sink.new).faults }
{
    make(recording, entry, reading, work);
    write_whole(sink, work.buffer.as_slice())
}

// Makes an entry's certificate and its bytes in `work`.
fn make(recording: &Recording, entry: &Entry, reading: &Reading, work: &mut CertificateWork)
    ghost receiver: { Receiver }
    requires entry { IsEntryOfSome (IsEntryFor receiver recording.now)
        (hits_by receiver.carrier recording.now) entry.now }
    requires reading { IsReadingFor receiver recording.now entry.now reading.now }
    ensures { IsCertificateOf receiver recording.now entry.now work.new.buffer.items }
{
    let values = reading.sums.rows();
    fill(&mut work.certificate, &values, &mut work.trellis);
    put(&work.certificate, &mut work.buffer)
}

// Replaces the content of `buffer`, which has capacity for the longest certificate, with a certificate's bytes.
fn put(certificate: &Certificate, buffer: &mut Vec<u8>)
    requires { most_count ≤ vec_capacity buffer.old }
    ensures bytes { buffer.new.items ≡ bytes_of certificate.now }
    ensures whole { IsWhole certificate.now }
    ensures room { most_count ≤ vec_capacity buffer.new }
{
    match buffer.resize(length(certificate), 0) {
        Ok(()) => to_bytes(certificate, buffer.as_mut_slice()),
        Err(_) => unreachable!(),
    }
}
