// Calls on arbitrary values, under the precondition of the call alone.
ghost use Rattle.std.specs.Prelude.{◌≡◌, ◌+◌, ◌*◌, ◌^◌, ◌<◌, ◌≤◌, All, length, nat_abs, pos, ◌<ℤ◌, ◌≤ℤ◌};
ghost use Rattle.cs_num.specs.Complex.{largest_part};
ghost use Rattle.finite.specs.Sizes.{RowsWithin};
ghost use Rattle.tail_cert.specs.Certificate.{tables_there};
ghost use Rattle.turbo_code.specs.Table.{IsSize};

use cs_num::{Cpx, Sample, clamp_div};
use explain::{EntryList, Workspace};
use lte_top::Words;
use pss_search::{HitList, Metric, Sweep};
use sample_file::Recording;
use std::alloc::AllocError;
use tail_cert::Certificate;
use tailbite::Trellis;
use turbo_code::Coded;
use uper::{Reader, Writer};

fn product(a: Cpx, b: Cpx) -> Cpx
    requires { largest_part a * largest_part b ≤ 2 ^ 61 }
{
    a.mul(b)
}

fn conjugate(a: Cpx) -> Cpx
    requires { nat_abs a.im < 2 ^ 63 }
{
    a.conj()
}

fn square(a: Cpx) -> u128 {
    a.norm()
}

fn rounded(a: Cpx, bits: u32) -> Cpx
    requires bits { (1 ≤ bits) × (bits ≤ 40) }
    requires magnitude { largest_part a ≤ 2 ^ 62 }
{
    a.round_shift(bits)
}

fn quotient(top: i64, bottom: i64, limit: i16) -> i16
    requires bottom { pos 0 <ℤ bottom }
    requires limit { pos 0 ≤ℤ limit }
{
    clamp_div(top, bottom, limit)
}

fn sample_at(recording: &Recording, i: usize) -> Sample
    requires { i < length recording.now }
{
    recording.get(i)
}

fn next_metrics(sweep: &mut Sweep<'_>) -> Option<[Metric; 3]> {
    sweep.step()
}

fn list_hits(recording: &Recording, list: &mut HitList) {
    pss_search::hits(recording, list);
}

fn list_cells(recording: &Recording, work: &mut Workspace, list: &mut EntryList) {
    explain::explain(recording, work, list);
}

fn next_number(reader: &mut Reader<'_>, n: u32) -> Option<u32>
    requires { n ≤ 32 }
{
    reader.take(n)
}

fn put_number(writer: &mut Writer, value: u32, n: u32) -> bool
    requires few { n ≤ 32 }
    requires fits { value < 2 ^ n }
{
    writer.put(value, n)
}

fn push_word(words: &mut Words, word: &str) -> Result<(), AllocError> {
    words.push(word)
}

fn sent_bit(coded: &Coded, rv: u8, i: usize) -> bool
    requires k { IsSize coded.now.k }
    requires version { rv < 4 }
    requires index { i ≤ 4096 }
{
    turbo_code::match_out(coded, rv, i)
}

fn is_accepted(certificate: &Certificate) -> bool {
    tail_cert::check(certificate)
}

fn length_of(certificate: &Certificate) -> usize {
    tail_cert::length(certificate)
}

fn write_certificate(certificate: &Certificate, out: &mut [u8])
    requires { length out.old ≡ 10501 + 10240 * tables_there certificate.now.tables }
{
    tail_cert::to_bytes(certificate, out);
}

fn refill(certificate: &mut Certificate, values: &[[i32; 3]; 40], work: &mut Trellis)
    requires { RowsWithin 2032 values.now }
{
    tail_cert::fill(certificate, values, work);
}

// Returns whether `square`, `rounded` and `quotient` return the expected numbers.
fn have_values(a: Cpx) -> bool
    requires { largest_part a ≤ 2 ^ 30 }
{
    square(a) == 5 && rounded(a, 1) == Cpx { re: 0, im: 1 } && quotient(-7, 2, 127) == -3
}

#[test]
fn numbers_have_their_values(rt: HostRuntime) {
    assert!(rt; have_values(Cpx { re: -1, im: 2 }));
    assert!(rt; conjugate(Cpx { re: -1, im: 2 }) == Cpx { re: -1, im: -2 });
    assert!(rt; product(Cpx { re: 0, im: 1 }, Cpx { re: 0, im: 1 }) == Cpx { re: -1, im: 0 });
}

#[test]
fn readers_and_writers_go_on(rt: HostRuntime) {
    let mut reader = Reader::new(&[true, false, true]);
    assert!(rt; next_number(&mut reader, 2) == Some(2) && next_number(&mut reader, 1) == Some(1));
    let mut writer = Writer::new();
    assert!(rt; put_number(&mut writer, 2, 2) && put_number(&mut writer, 1, 1));
    assert!(rt; writer.bits() == [true, false, true].as_slice());
}
