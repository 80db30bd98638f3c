//! The constants of a receiver.

ghost use Rattle.std.specs.Prelude.{◌≡◌};
ghost use Rattle.explain.specs.Receiver.{is_wanted};

use lte_types::Carrier;

/// The constants of a receiver: its transmission scheme, how many frames it combines, and which MIBs it accepts. (own)
#[derive(Clone, Copy)]
pub struct Scheme {
    /// The transmission scheme.
    pub carrier: Carrier,
    /// The maximum number of frames in a period whose soft values are added for one MIB: 1 to 4.
    pub most_frames: u8,
    /// The antenna port count that a MIB must carry; `None` accepts every count.
    pub ports: Option<u8>,
}

impl Scheme {
    // Returns whether a MIB with the antenna port count `count` is accepted.
    pub(crate) fn takes(&self, count: u8) -> bool
        ensures { result ≡ is_wanted self.now.ports count }
    {
        match self.ports {
            Some(wanted) => count == wanted,
            None => true,
        }
    }
}
