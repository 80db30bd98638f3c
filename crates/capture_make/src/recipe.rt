//! The recipe: the cell of each recording and how the cell is transmitted.

ghost use Rattle.std.specs.Prelude.{◌≡◌, ◌⊎◌, ◌≤◌, ◌%◌, ◌-ℤ◌, [], ◌∷◌, pos, length, None};
ghost use Rattle.lte_types.specs.declared.carrier.Carrier.TheVariants.{OnePort, TwoPorts, FourPorts};
ghost use Rattle.lte_types.specs.Codes.{duration as duration_with, resource as resource_with};
ghost use Rattle.cell_plan.specs.Gains.{IsCount, power_of_four};
ghost use Rattle.cell_plan.specs.Plan.{refusal_of};
ghost use Rattle.capture_make.specs.Recipe.{network, message as message_of, information as information_of};
ghost use Rattle.capture_make.specs.Recipe.{plan as plan_of, number, offset, sample_count, gain as gain_with};
ghost use Rattle.capture_make.specs.Recipe.{first_gain, second_gain, gains_of_four, gains as gains_of, IsBound};

use cell_plan::{Cell, CellPlan, Emission};
use cs_num::{Cpx, Gain};
use lte_types::{
    Carrier, Duration, Mnc, Plmn, Plmns, Resource, Schedule, Sfn, SiMessage, Sib1, Sibs, Timing,
};

// The number of samples in a frame.
const FRAME: u32 = lte_types::FRAME_LENGTH as u32;

// Returns the list with the network 001/01 (country code and network code).
fn networks() -> Plmns
    ensures { result ≡ network ∷ [] }
{
    let mut plmns = Plmns::new();
    plmns.push(Plmn {
        mcc: Some([0, 0, 1]),
        mnc: Mnc::Two([0, 1]),
        reserved: false,
    });
    plmns
}

// Returns a schedule entry with the codes of its period and SIB types.
fn message(period: u8, codes: &[u8]) -> SiMessage
    requires { length codes.now ≤ 31 }
    ensures { result ≡ message_of period codes.now }
{
    let mut sibs = Sibs::new();
    for code in codes {
        sibs.push(*code);
    }
    SiMessage { period, sibs }
}

// Returns two schedule entries: one without SIB types, and one with SIB types 3 and 5.
fn schedule(period: u8) -> Schedule
    ensures { result ≡ message_of period [] ∷ message_of period (0 ∷ 2 ∷ []) ∷ [] }
{
    let mut schedule = Schedule::new();
    schedule.push(message(period, &[]));
    schedule.push(message(period, &[0, 2]));
    schedule
}

// Returns the SystemInformationBlockType1 of recording `n`.
fn information(n: u32) -> Sib1
    ensures { result ≡ information_of n }
{
    Sib1 {
        plmns: networks(),
        tac: (n % 65_536) as u16,
        cell: n % (1 << 28),
        barred: false,
        intra: true,
        csg: false,
        csg_identity: None,
        q_rx: (n % 49) as i8 - 70,
        q_offset: None,
        p_max: None,
        band: 1 + (n % 64) as u8,
        scheduling: schedule((n % 7) as u8),
        tdd: None,
        window: (n % 7) as u8,
        tag: (n % 32) as u8,
        extended: false,
    }
}

// Returns the phich-Duration of recording `n`.
fn duration(n: u32) -> Duration
    ensures { result ≡ duration_with (n % 2) }
{
    match Duration::from_code((n % 2) as u8) {
        Some(duration) => duration,
        None => unreachable!(),
    }
}

// Returns the phich-Resource of recording `n`.
fn resource(n: u32) -> Resource
    ensures { result ≡ resource_with (n % 4) }
{
    match Resource::from_code((n % 4) as u8) {
        Some(resource) => resource,
        None => unreachable!(),
    }
}

/// Returns the plan of the cell in recording `n`.
pub fn plan(n: u32) -> CellPlan
    ensures { result ≡ plan_of n }
{
    CellPlan {
        identity: (n % 504) as u16,
        duration: duration(n),
        resource: resource(n),
        spare: (n % 1024) as u16,
        cfi: 2 + (n % 2) as u8,
        start: 0,
        blocks: 6,
        mcs: 5,
        column: 2,
        sib1: information(n),
    }
}

// Returns the cell of recording `n`; its plan meets the conditions of every transmission scheme (`Plans`).
fn cell(carrier: Carrier, n: u32) -> Cell
    ensures plan { result ≡ plan_of n }
    ensures accepted { refusal_of carrier result ≡ None }
{
    match Cell::of(carrier, plan(n)) {
        Ok(cell) => cell,
        Err(_) => unreachable!(),
    }
}

/// Returns the gain of recording `n` with one antenna port.
pub fn gain(n: u32) -> Gain
    ensures { result ≡ gain_with n }
{
    match Gain::new((1 + n % 19) as i16, (n % 20) as i16) {
        Some(gain) => gain,
        None => unreachable!(),
    }
}

// Returns port 0's gain for two antenna ports.
fn first_gain(n: u32) -> Cpx
    ensures { result ≡ first_gain n }
{
    Cpx {
        re: (1 + n % 9) as i64,
        im: (n % 10) as i64,
    }
}

// Returns port 1's gain for two antenna ports, which may be 0.
fn second_gain(n: u32) -> Cpx
    ensures { result ≡ second_gain n }
{
    Cpx {
        re: (n % 11) as i64,
        im: -((n % 8) as i64),
    }
}

// Returns `n` modulo `count`, minus `middle`.
fn about(n: u32, count: u32, middle: u32) -> i64
    requires { 1 ≤ count }
    ensures { result ≡ pos (n % count) -ℤ pos middle }
{
    (n % count) as i64 - middle as i64
}

// Returns the gains of ports 0 to 3 for four antenna ports.
fn gains_of_four(n: u32) -> [Cpx; 4]
    ensures { result ≡ gains_of_four n }
{
    let first = Cpx {
        re: 4,
        im: about(n, 7, 3),
    };
    let second = Cpx {
        re: about(n, 5, 2),
        im: 4,
    };
    let third = Cpx {
        re: -3,
        im: about(n, 4, 2),
    };
    let fourth = Cpx {
        re: about(n, 3, 1),
        im: -4,
    };
    [first, second, third, fourth]
}

/// Returns the gains of the antenna ports in recording `n`, with 0 for ports beyond the transmission scheme's port
/// count.
pub fn gains(carrier: Carrier, n: u32) -> [Cpx; 4]
    ensures { result ≡ gains_of carrier n }
{
    match carrier.ports() {
        1 => [gain(n).value(), Cpx::ZERO, Cpx::ZERO, Cpx::ZERO],
        2 => [first_gain(n), second_gain(n), Cpx::ZERO, Cpx::ZERO],
        _ => gains_of_four(n),
    }
}

/// Returns the number of recording `n`'s first frame, and the sample of this frame at which the recording begins.
pub fn timing(n: u32) -> Timing
    ensures number { result.sfn ≡ number n }
    ensures offset { result.offset ≡ offset n }
{
    Timing {
        sfn: Sfn::modulo(n as u64),
        offset: n % FRAME,
    }
}

// Returns the sample count of recording `n`, which is 10 to 99 frames.
fn sample_count(n: u32) -> u32
    ensures value { result ≡ sample_count n }
    ensures bound { IsCount result }
{
    FRAME * (10 + n % 90)
}

/// Returns the emission of recording `n` for transmission scheme `carrier`.
pub(crate) fn emission(carrier: Carrier, n: u32) -> Emission
    ensures carrier { result.carrier ≡ carrier }
    ensures cell { result.cell ≡ plan_of n }
    ensures number { result.timing.sfn ≡ number n }
    ensures offset { result.timing.offset ≡ offset n }
    ensures count { result.samples ≡ sample_count n }
    ensures gains { result.gains ≡ gains_of carrier n }
    ensures load { result.load ≡ None }
{
    Emission {
        cell: cell(carrier, n),
        carrier,
        timing: timing(n),
        samples: sample_count(n),
        gains: gains(carrier, n),
        load: None,
    }
}

// Returns the error bound for one antenna port: the largest integer that is at most twice the gain's magnitude.
fn bound_of_one(n: u32) -> u16
    ensures bound { IsBound OnePort n (pos result) }
    ensures small { result ≤ 56 }
{
    let (re, im) = (1 + n % 19, n % 20);
    (4 * (re * re + im * im)).isqrt() as u16
}

// Returns the smaller of two numbers.
fn least(a: u32, b: u32) -> u32
    ensures first { result ≤ a }
    ensures second { result ≤ b }
    ensures one { (result ≡ a) ⊎ (result ≡ b) }
{
    if a < b { a } else { b }
}

// Returns the error bound for two antenna ports: the largest integer whose square is at most a quarter of the total
// power, and at most four times port 0's power.
fn bound_of_two(n: u32) -> u16
    ensures bound { IsBound TwoPorts n (pos result) }
    ensures small { result ≤ 56 }
{
    let (a, b, c, d) = (1 + n % 9, n % 10, n % 11, n % 8);
    let first = a * a + b * b;
    let both = first + c * c + d * d;
    least(both / 4, 4 * first).isqrt() as u16
}

// Returns the total power for four antenna ports: the sum of the gains' squared magnitudes.
fn power_of_four(n: u32) -> u32
    ensures value { result ≡ power_of_four (gains_of_four n) }
    ensures small { result ≤ 75 }
{
    let gains = gains_of_four(n);
    let power = gains[0].norm() + gains[1].norm() + gains[2].norm() + gains[3].norm();
    power as u32
}

// Returns the error bound for four antenna ports: the largest integer whose square is at most 1/64 of the total power.
fn bound_of_four(n: u32) -> u16
    ensures bound { IsBound FourPorts n (pos result) }
    ensures small { result ≤ 56 }
{
    (power_of_four(n) / 64).isqrt() as u16
}

/// Returns the largest error bound that a clean recording with the gains of recording `n` allows, at most 56.
pub(crate) fn bound(carrier: Carrier, n: u32) -> u16
    ensures bound { IsBound carrier n (pos result) }
    ensures small { result ≤ 56 }
{
    match carrier.ports() {
        1 => bound_of_one(n),
        2 => bound_of_two(n),
        _ => bound_of_four(n),
    }
}
