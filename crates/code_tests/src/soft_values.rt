ghost use Rattle.std.specs.Prelude.{◌≡◌, ℕ, ◌^◌, ◌<◌, ◌≤◌, ◌⊎◌, All};
ghost use Rattle.cs_num.specs.Complex.{IsWithin};

use cs_num::Cpx;
use lte_types::CellId;
use soft_bits::{Slot, soft};

// A channel with gain 64 (`Plain`), or with gain 1,792 and a phase of a quarter cycle (`Turned`).
#[derive(Clone, Copy)]
enum Channel {
    Plain,
    Turned,
}

fn seen_of(sent: Cpx, channel: Channel) -> Cpx
    ensures { IsWithin (2 ^ 25) result }
{
    let re = sent.re.clamp(-90, 90);
    let im = sent.im.clamp(-90, 90);
    match channel {
        Channel::Plain => Cpx {
            re: 64 * re,
            im: 64 * im,
        },
        Channel::Turned => Cpx {
            re: -1792 * im,
            im: 1792 * re,
        },
    }
}

// Returns `value` on every subcarrier.
fn level(value: Cpx) -> [Cpx; 72]
    requires { IsWithin (2 ^ 25) value }
    ensures { All (IsWithin (2 ^ 25)) result }
{
    [value; 72]
}

// Returns a received symbol with only reference signals.
fn references(id: CellId, number: u8, symbol: u8, channel: Channel) -> [Cpx; 72]
    requires number { number < 20 }
    requires symbol { (symbol ≡ 0) ⊎ (symbol ≡ 4) }
    ensures { All (IsWithin (2 ^ 25)) result }
{
    let pilots = crs::pilots(id, number, symbol);
    let mut seen = level(Cpx::ZERO);
    for m in 0..12 {
        let (k, sent) = pilots[m];
        if k < 72 {
            seen[k as usize] = seen_of(sent, channel);
        }
    }
    seen
}

// Returns a received slot with reference signals in symbols 0 and 4, and `value` in the other symbols; `None` for an
// invalid identity.
fn slot_of(identity: u16, number: u8, first: Channel, second: Channel, value: Cpx) -> Option<Slot>
    requires number { number < 20 }
    requires small { IsWithin (2 ^ 25) value }
{
    let id = CellId::new(identity)?;
    let other = level(value);
    let seen = [
        references(id, number, 0, first),
        other,
        other,
        other,
        references(id, number, 4, second),
        other,
        other,
    ];
    Some(Slot::new(seen, number, id))
}

// Returns whether `values` are the slot's soft values at a resource element.
fn has_values(slot: &Slot, symbol: u8, k: u8, values: [i16; 2]) -> bool {
    symbol < 7 && k < 72 && soft(slot, symbol, k) == values
}

// Returns whether the slot is number 19 of cell 503.
fn is_last_of_503(slot: &Slot) -> bool {
    slot.id().value() == 503 && slot.number() == 19
}

#[test]
fn values_are_rounded_toward_zero_and_stop_at_127(rt: HostRuntime) {
    let value = Cpx {
        re: 5760,
        im: -5760,
    };
    let slot = slot_of(503, 19, Channel::Plain, Channel::Plain, value).expect(&rt, "a cell");
    assert!(rt; has_values(&slot, 6, 0, [67, -67]));
    assert!(rt; has_values(&slot, 1, 71, [67, -67]));
    assert!(rt; is_last_of_503(&slot));
    let value = Cpx { re: 11520, im: 0 };
    let slot = slot_of(0, 0, Channel::Plain, Channel::Plain, value).expect(&rt, "a cell");
    assert!(rt; has_values(&slot, 2, 35, [127, 0]));
}

// Returns whether all soft values of the slot are 0.
fn is_silent(slot: &Slot) -> bool {
    for symbol in 0..7_u8 {
        for k in 0..72_u8 {
            if soft(slot, symbol, k) != [0, 0] {
                return false;
            }
        }
    }
    true
}

#[test]
fn a_silent_slot_speaks_for_no_bit(rt: HostRuntime) {
    let id = CellId::new(7).expect(&rt, "in range");
    let nothing = level(Cpx::ZERO);
    let seen = [
        nothing, nothing, nothing, nothing, nothing, nothing, nothing,
    ];
    let slot = Slot::new(seen, 3, id);
    assert!(rt; is_silent(&slot));
}

#[test]
fn a_turned_channel_is_equalised(rt: HostRuntime) {
    let value = Cpx {
        re: 100000,
        im: -70000,
    };
    let slot = slot_of(1, 10, Channel::Turned, Channel::Turned, value).expect(&rt, "a cell");
    assert!(rt; has_values(&slot, 5, 40, [-29, -41]));
}

#[test]
fn the_channel_is_taken_between_the_pilots(rt: HostRuntime) {
    let value = Cpx {
        re: 200000,
        im: 90000,
    };
    let slot = slot_of(2, 7, Channel::Plain, Channel::Turned, value).expect(&rt, "a cell");
    for (k, values) in [
        (0, [5, 2]),
        (2, [5, 2]),
        (3, [29, -53]),
        (4, [52, -110]),
        (70, [52, -110]),
        (71, [75, -127]),
    ] {
        assert!(rt; has_values(&slot, 3, k, values), "subcarrier {k}");
    }
}
