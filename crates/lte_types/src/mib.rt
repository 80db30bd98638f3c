//! The master information block.

ghost use Rattle.std.specs.Prelude.{◌≡◌, ◌≤◌, IsSome, IfSome, ◌↔◌};

use crate::{Bandwidth, Duration, Resource};

/// A master information block (TS 36.331 section 6.2.2).
#[derive(Clone, Copy, Debug, PartialEq, Eq)]
pub struct Mib {
    /// dl-Bandwidth.
    pub bandwidth: Bandwidth,
    /// phich-Duration.
    pub duration: Duration,
    /// phich-Resource.
    pub resource: Resource,
    /// The upper 8 bits of the frame number.
    pub upper: u8,
    /// The last 10 bits as a number, 0 to 1023: schedulingInfoSIB1-BR in the upper five, spare bits in the lower five.
    pub spare: u16,
    ghost spare_range: { spare ≤ 1023 },
}

impl Mib {
    ghost use Rattle.lte_types.specs.Block.{HasFields, br as br_of, rest as rest_of};

    /// Creates a MIB from its fields, or returns `None` if `spare` is above 1023.
    pub fn new(
        bandwidth: Bandwidth,
        duration: Duration,
        resource: Resource,
        upper: u8,
        spare: u16,
    ) -> Option<Mib>
        ensures valid { IsSome result ↔ (spare ≤ 1023) }
        ensures fields { IfSome result (λ mib. HasFields mib bandwidth duration resource upper spare) }
    {
        if spare <= 1023 {
            Some(Mib {
                bandwidth,
                duration,
                resource,
                upper,
                spare,
            })
        } else {
            None
        }
    }

    /// Returns schedulingInfoSIB1-BR, 0 to 31: the first five of the last ten bits, which were spare before Release 13.
    pub fn br(&self) -> u8
        ensures value { result ≡ br_of self.now }
        ensures small { result ≤ 31 }
    {
        (self.spare / 32) as u8
    }

    /// Returns the last five bits as a number, 0 to 31. They are still spare in Release 13.
    pub fn rest(&self) -> u8
        ensures value { result ≡ rest_of self.now }
        ensures small { result ≤ 31 }
    {
        (self.spare % 32) as u8
    }
}
