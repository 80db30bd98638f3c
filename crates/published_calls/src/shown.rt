// Published values can be compared and printed, so callers can write `assert_eq!`.
use cell_tx::CellError;
use cs_bits::Bits;
use cs_num::{Cpx, Sample};
use cs_outside::Failed;
use dci::Grant;
use grid_map::{Place, Reg};
use lte_top::Status;
use lte_types::{
    Bandwidth, CellId, Cfi, Duration, Half, Hit, Mib, Mnc, Plmn, Resource, Sfn, Sib1Reason,
};
use pbch::Master;
use pss_search::Metric;
use sample_file::FileError;
use std::fmt::Debug;
use tail_cert::BadCertificate;
use turbo_code::Row;

// Returns whether two values of a printable type are equal.
fn is<T: Debug + PartialEq>(value: &T, other: &T) -> bool {
    value == other
}

fn numbers_are_shown(sample: &Sample, number: &Cpx, word: &Bits<21>) -> bool {
    is(sample, sample) && is(number, number) && is(word, word)
}

fn parts_are_shown(id: &CellId, sfn: &Sfn, cfi: &Cfi, mib: &Mib) -> bool {
    is(id, id) && is(sfn, sfn) && is(cfi, cfi) && is(mib, mib)
}

fn words_are_shown(width: &Bandwidth, duration: &Duration, resource: &Resource) -> bool {
    is(width, width) && is(duration, duration) && is(resource, resource)
}

fn fields_are_shown(half: &Half, hit: &Hit, mnc: &Mnc, plmn: &Plmn, reason: &Sib1Reason) -> bool {
    is(half, half) && is(hit, hit) && is(mnc, mnc) && is(plmn, plmn) && is(reason, reason)
}

fn places_are_shown(place: &Place, group: &Reg, grant: &Grant, row: &Row) -> bool {
    is(place, place) && is(group, group) && is(grant, grant) && is(row, row)
}

fn received_are_shown(master: &Master, metric: &Metric) -> bool {
    is(master, master) && is(metric, metric)
}

fn answers_are_shown(status: &Status, cause: &CellError, error: &FileError) -> bool {
    is(status, status) && is(cause, cause) && is(error, error)
}

fn failures_are_shown(failed: &Failed, broken: &BadCertificate) -> bool {
    is(failed, failed) && is(broken, broken)
}

#[test]
fn values_are_shown(rt: HostRuntime) {
    assert!(rt; failures_are_shown(&Failed, &BadCertificate { place: 3 }));
    assert!(rt; answers_are_shown(&Status::Usage, &CellError::Form, &FileError::Ragged));
}
