//! SIB1, the first system information block.

ghost use Rattle.std.specs.Prelude.{◌≡◌, ◌↔◌, All, IsTrue, IfSome};
ghost use Rattle.lte_types.specs.Ranges.{AreDigits, IsValidPlmn, ArePlmns, IsValidMessage, AreMessages, IsGroup};
ghost use Rattle.lte_types.specs.Ranges.{IsLevel, IsLevelOffset, IsPower, IsBand, IsTddConfig, IsAccess};
ghost use Rattle.lte_types.specs.Ranges.{IsWindow, IsSelection, IsValid};
ghost use Rattle.lte_types.specs.Parts.{access_of, selection_of};

use crate::{Mnc, Plmn, Plmns, Schedule, SiMessage, Sib1Reason};

/// SystemInformationBlockType1 (TS 36.331 section 6.2.2). Periods and the window are given by their codes.
#[derive(Debug, PartialEq, Drop)]
pub struct Sib1 {
    /// 1 to 6 PLMN identities, the first with a country code.
    pub plmns: Plmns,
    /// trackingAreaCode.
    pub tac: u16,
    /// cellIdentity, 28 bits.
    pub cell: u32,
    /// cellBarred.
    pub barred: bool,
    /// Whether intraFreqReselection is allowed.
    pub intra: bool,
    /// csg-Indication.
    pub csg: bool,
    /// csg-Identity, 27 bits.
    pub csg_identity: Option<u32>,
    /// q-RxLevMin, -70 to -22, in units of 2 dBm.
    pub q_rx: i8,
    /// q-RxLevMinOffset, 1 to 8, in units of 2 dB.
    pub q_offset: Option<u8>,
    /// p-Max, -30 to 33 dBm.
    pub p_max: Option<i8>,
    /// freqBandIndicator, 1 to 64.
    pub band: u8,
    /// 1 to 32 entries of schedulingInfoList.
    pub scheduling: Schedule,
    /// subframeAssignment, 0 to 6, and specialSubframePatterns, 0 to 8.
    pub tdd: Option<(u8, u8)>,
    /// The si-WindowLength code: 0 to 6 for 1 to 40 ms.
    pub window: u8,
    /// systemInfoValueTag, 0 to 31.
    pub tag: u8,
    /// Whether nonCriticalExtension is present.
    pub extended: bool,
}

impl Sib1 {
    /// Returns whether every field is in its range.
    pub fn valid(&self) -> bool
        ensures { IsTrue result ↔ IsValid self.now }
    {
        self.access_fits()
            && self.selection_fits()
            && power_fits(self.p_max)
            && band_fits(self.band)
            && messages_fit(&self.scheduling)
            && tdd_fits(self.tdd)
            && window_fits(self.window)
            && self.tag <= 31
    }

    /// Returns a copy.
    pub fn copy(&self) -> Sib1
        ensures { result ≡ self.now }
    {
        Sib1 {
            plmns: self.plmns.copy(),
            tac: self.tac,
            cell: self.cell,
            barred: self.barred,
            intra: self.intra,
            csg: self.csg,
            csg_identity: self.csg_identity,
            q_rx: self.q_rx,
            q_offset: self.q_offset,
            p_max: self.p_max,
            band: self.band,
            scheduling: self.scheduling.copy(),
            tdd: self.tdd,
            window: self.window,
            tag: self.tag,
            extended: self.extended,
        }
    }

    fn access_fits(&self) -> bool
        ensures { IsTrue result ↔ IsAccess (access_of self.now) }
    {
        plmns_fit(&self.plmns) && self.cell < 1 << 28 && identity_fits(self.csg_identity)
    }

    fn selection_fits(&self) -> bool
        ensures { IsTrue result ↔ IsSelection (selection_of self.now) }
    {
        level_fits(self.q_rx) && offset_fits(self.q_offset)
    }
}

fn level_fits(level: i8) -> bool
    ensures { IsTrue result ↔ IsLevel level }
{
    -70 <= level && level <= -22
}

fn band_fits(band: u8) -> bool
    ensures { IsTrue result ↔ IsBand band }
{
    1 <= band && band <= 64
}

fn window_fits(code: u8) -> bool
    ensures { IsTrue result ↔ IsWindow code }
{
    code <= 6
}

fn are_digits(digits: &[u8]) -> bool
    ensures { IsTrue result ↔ AreDigits digits.now }
{
    digits.iter().all(|digit| *digit <= 9)
}

fn plmn_fits(plmn: &Plmn) -> bool
    ensures { IsTrue result ↔ IsValidPlmn plmn.now }
{
    let mcc = match &plmn.mcc {
        Some(digits) => are_digits(digits),
        None => true,
    };
    let mnc = match &plmn.mnc {
        Mnc::Two(digits) => are_digits(digits),
        Mnc::Three(digits) => are_digits(digits),
    };
    mcc && mnc
}

fn plmns_fit(plmns: &Plmns) -> bool
    ensures { IsTrue result ↔ ArePlmns plmns.now }
{
    match plmns.slice() {
        [] => false,
        [first, ..] => first.mcc.is_some() && plmns.slice().iter().all(plmn_fits),
    }
}

fn message_fits(message: &SiMessage) -> bool
    ensures { IsTrue result ↔ IsValidMessage message.now }
{
    message.period <= 6 && message.sibs.slice().iter().all(|code| *code <= 79)
}

fn are_messages(messages: &[SiMessage]) -> bool
    ensures { IsTrue result ↔ All IsValidMessage messages.now }
{
    messages.iter().all(message_fits)
}

fn messages_fit(schedule: &Schedule) -> bool
    ensures { IsTrue result ↔ AreMessages schedule.now }
{
    let entries = schedule.slice();
    !entries.is_empty() && are_messages(entries)
}

fn identity_fits(identity: Option<u32>) -> bool
    ensures { IsTrue result ↔ IfSome identity IsGroup }
{
    match identity {
        Some(identity) => identity < 1 << 27,
        None => true,
    }
}

fn offset_fits(offset: Option<u8>) -> bool
    ensures { IsTrue result ↔ IfSome offset IsLevelOffset }
{
    match offset {
        Some(offset) => 1 <= offset && offset <= 8,
        None => true,
    }
}

fn power_fits(power: Option<i8>) -> bool
    ensures { IsTrue result ↔ IfSome power IsPower }
{
    match power {
        Some(power) => -30 <= power && power <= 33,
        None => true,
    }
}

fn tdd_fits(config: Option<(u8, u8)>) -> bool
    ensures { IsTrue result ↔ IfSome config IsTddConfig }
{
    match config {
        Some((assignment, patterns)) => assignment <= 6 && patterns <= 8,
        None => true,
    }
}

/// Returns whether `answer` and `other` hold the same SIB1 or the same reason.
pub fn same_answers(answer: &Result<Sib1, Sib1Reason>, other: &Result<Sib1, Sib1Reason>) -> bool
    ensures { IsTrue result ↔ (answer.now ≡ other.now) }
{
    answer == other
}
