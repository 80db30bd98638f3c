//! Entries of the SI schedule.

ghost use Rattle.std.specs.Prelude.{◌≡◌, []};

use crate::Sibs;

/// An entry of schedulingInfoList (TS 36.331 section 6.2.2).
#[derive(Debug, PartialEq, Drop)]
pub struct SiMessage {
    /// The si-Periodicity code: 0 to 6 for 8 to 512 frames.
    pub period: u8,
    /// The codes of the SIBs in the message: 0 to 15 from the first enumeration, 16 and above from an extension.
    pub sibs: Sibs,
}

impl SiMessage {
    /// Returns a copy.
    pub fn copy(&self) -> SiMessage
        ensures { result ≡ self.now }
    {
        SiMessage {
            period: self.period,
            sibs: self.sibs.copy(),
        }
    }
}

// Fills unused elements of a list: a period of 8 frames, no SIBs.
impl Default for SiMessage {
    fn default() -> SiMessage
        ensures { result ≡ record { period = 0; sibs = [] } }
    {
        SiMessage {
            period: 0,
            sibs: Sibs::new(),
        }
    }
}
