//! Slots that are received through a channel with its own gain at each resource element.
//!
//! A channel may have a different gain at each resource element. If only the seven symbols of a slot have different
//! gains, the soft values still have the right signs under one of these bounds on each symbol's error energy and on the
//! difference between any two gains:
//!
//! - `slow`: at most 1400 times the square of the symbol's gain, and gains that differ by at most 50 thousandths;
//! - `turning`: at most 600 times that square, and at most 162 thousandths, as under a frequency offset of 60 Hz
//!   between the first and last symbol;
//! - `still`: at most 1800 times that square, and equal gains.
//!
//! In a cell, the two synchronisation signals of a slot share a gain.
//!
//! Later paths are faint and 1 to 9 samples late, which the cyclic prefix covers (TS 36.211 section 6.12). A single
//! echo may have 1/17 of the first path's gain if it is up to 7 samples late, 1/19 at 8 samples and 1/21 at 9. Each of
//! several echoes uses a fraction of its limit, and the fractions add up to at most 1. The error energy of each symbol
//! is at most 1024 times the square of the first path's gain.

ghost use Rattle.clean_air.specs.Through.{SlotThroughIsHeard, ReceivedSlotIsThrough, FaithfulIsThrough};
ghost use Rattle.clean_air.specs.Echo.{SlotOverIsThrough, EchoesAreThrough, LoadedIsEchoed};
ghost use Rattle.clean_air.specs.Fading.{FadingSlotIsThrough, FadingIsThrough, FaithfulIsFading, LeaveFadingRoom};

/// A law: a slot's soft values have the signs of the carried bits if its pilots and all elements with a QPSK symbol are
/// received through a channel whose bounds leave room for soft values of magnitude 1.
pub fn slot_through_is_heard()
    ensures { SlotThroughIsHeard }
{}

/// A law: a cell with one antenna port to which a recording is faithful is received through channels (`IsCellThrough`;
/// `cell`), and so is each slot that is received with one gain (`slot`).
pub fn faithful_is_seen_through()
    ensures slot { ReceivedSlotIsThrough }
    ensures cell { FaithfulIsThrough }
{}

/// A law: a slot is received through a channel if each of its seven symbols has its own gain, any two gains differ by
/// at most `bend` thousandths of either one's magnitude, and the bounds leave room.
pub fn fading_slot_is_seen_through()
    ensures through { FadingSlotIsThrough }
    ensures slow { LeaveFadingRoom 1400 50 }
    ensures turning { LeaveFadingRoom 600 162 }
    ensures still { LeaveFadingRoom 1800 0 }
{}

/// A law: a cell with one antenna port whose gain varies slowly is received through channels (`IsCellThrough`), if the
/// bounds leave room (`LeaveFadingRoom`). A faithful recording is the special case of a constant gain (`faithful`).
pub fn fading_is_seen_through()
    ensures through { FadingIsThrough }
    ensures faithful { FaithfulIsFading }
{}

/// A law: a cell with one antenna port that arrives over several paths, with faint later ones (`AreFaint`), is received
/// through channels (`IsCellThrough`; `cell`), and so is such a slot (`slot`). A clean recording has one path
/// (`clean`).
pub fn echoes_are_seen_through()
    ensures slot { SlotOverIsThrough }
    ensures cell { EchoesAreThrough }
    ensures clean { LoadedIsEchoed }
{}
