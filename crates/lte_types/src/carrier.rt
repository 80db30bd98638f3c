//! Transmission schemes.

ghost use Rattle.std.specs.Prelude.{◌≡◌};
ghost use Rattle.std.specs.List.{Contains};
ghost use Rattle.lte_types.specs.Carrier.{prefix_of, ports_of, has_control_by, carriers};

use crate::Prefix;

/// A supported transmission scheme: a cyclic prefix and the number of antenna ports that send the PBCH.
#[derive(Clone, Copy, Debug, PartialEq, Eq)]
pub enum Carrier {
    /// One antenna port, normal cyclic prefix.
    OnePort,
    /// Two antenna ports with transmit diversity (TS 36.211 section 6.3.4.3), normal cyclic prefix.
    TwoPorts,
    /// One antenna port, extended cyclic prefix (TS 36.211 section 6.12).
    LongPrefix,
    /// Four antenna ports with transmit diversity (TS 36.211 section 6.3.4.3), normal cyclic prefix.
    FourPorts,
}

impl Carrier {
    /// All transmission schemes, in the order in which their cells are listed.
    pub const ALL: [Carrier; 4] = [
        Carrier::OnePort,
        Carrier::TwoPorts,
        Carrier::LongPrefix,
        Carrier::FourPorts,
    ];

    /// Returns the cyclic prefix.
    pub fn prefix(self) -> Prefix
        ensures { result ≡ prefix_of self }
    {
        match self {
            Carrier::OnePort | Carrier::TwoPorts | Carrier::FourPorts => Prefix::NORMAL,
            Carrier::LongPrefix => Prefix::EXTENDED,
        }
    }

    /// Returns the number of antenna ports, 1, 2 or 4.
    pub fn ports(self) -> u8
        ensures { result ≡ ports_of self }
    {
        match self {
            Carrier::OnePort | Carrier::LongPrefix => 1,
            Carrier::TwoPorts => 2,
            Carrier::FourPorts => 4,
        }
    }

    /// Returns whether the control region and SIB1 are supported: only with the normal prefix and at most two ports.
    /// (own)
    pub fn has_control(self) -> bool
        ensures { result ≡ has_control_by self }
    {
        !self.prefix().is_extended() && self.ports() <= 2
    }
}

/// A law: `Carrier::ALL` is complete, and prefix and port count identify a transmission scheme.
pub fn carriers_are()
    ensures all { Carrier.ALL ≡ carriers }
    ensures each { (carrier : Carrier) → Contains carriers carrier }
    ensures pairs { (a b : Carrier) → prefix_of a ≡ prefix_of b → ports_of a ≡ ports_of b → a ≡ b }
{}
