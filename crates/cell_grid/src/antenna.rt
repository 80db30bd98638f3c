//! The antenna ports of a cell.

use lte_types::Carrier;

/// An antenna port: the cell's transmission scheme and the port number, 0 to 3 (TS 36.211 sections 6.3.4.3 and 6.12).
/// Contracts are also defined for greater numbers, but no cell has such a port.
#[derive(Clone, Copy, Debug, PartialEq, Eq)]
pub struct Port {
    /// The cell's transmission scheme, with `Carrier::ports` ports.
    pub carrier: Carrier,
    /// The port number, below `Carrier::ports`.
    pub number: u8,
}

impl Port {
    ghost use Rattle.std.specs.Prelude.{◌≡◌, ◌≤◌};
    ghost use Rattle.cell_grid.specs.Ports.{port_symbols, port_block_bits, has_control, port_mask};

    // Returns the number of symbols in a slot: 7, or 6 with the extended cyclic prefix.
    pub(crate) fn symbols(self) -> u8
        ensures value { result ≡ port_symbols self }
        ensures low { 6 ≤ result }
        ensures high { result ≤ 7 }
    {
        self.carrier.prefix().symbols() as u8
    }

    // Returns the number of PBCH bits in a frame: 480, or 432 with the extended cyclic prefix (TS 36.211 section
    // 6.6.1).
    pub(crate) fn block_bits(self) -> usize
        ensures value { result ≡ port_block_bits self }
        ensures bound { result ≤ 480 }
    {
        if self.carrier.prefix().is_extended() {
            432
        } else {
            480
        }
    }

    // Returns whether the cell transmits a control region and system information. (own)
    pub(crate) fn has_control(self) -> bool
        ensures { result ≡ has_control self }
    {
        self.carrier.has_control()
    }

    // Returns the mask of the MIB's CRC, which states the port count (TS 36.212 section 5.3.1.1).
    pub(crate) fn mask(self) -> u16
        ensures { result ≡ port_mask self }
    {
        match self.carrier.ports() {
            1 => 0,
            2 => 0xffff,
            _ => 0x5555,
        }
    }
}
