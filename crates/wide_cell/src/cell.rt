//! Cells.

ghost use Rattle.std.specs.Prelude.{◌≡◌, ◌≤◌, IsSome, IfSome, ◌↔◌};
ghost use Rattle.wide_cell.specs.Cell.{IsCell, IsPortCount, blocks_of, subcarriers};

use lte_types::{Bandwidth, CellId, Duration, Resource};
use std::marker::Model;

/// A cell: identity, one, two or four antenna ports, and from its MIB (TS 36.331 section 6.2.2) resource blocks, PHICH
/// duration and PHICH resource. In contracts it is a record of the five.
#[derive(Clone, Copy, Debug, PartialEq, Eq)]
pub struct WideCell {
    id: CellId,
    ports: u8,
    blocks: u8,
    duration: Duration,
    resource: Resource,
}

impl Model for WideCell {
    ghost use Rattle.wide_cell.specs.Cell.{Cell, IsCell};

    ghost Value = { Cell };

    ghost view = { λ c. record {
      identity = c.id;
      ports = c.ports;
      blocks = c.blocks;
      duration = c.duration;
      resource = c.resource;
    } };

    ghost invariant = { λ c. IsCell (record {
      identity = c.id;
      ports = c.ports;
      blocks = c.blocks;
      duration = c.duration;
      resource = c.resource;
    }) };

    ghost inverse = { λ n. record {
      id = n.identity;
      ports = n.ports;
      blocks = n.blocks;
      duration = n.duration;
      resource = n.resource;
    } };
}

impl WideCell {
    /// Returns a cell, or `None` if `ports` is not 1, 2 or 4.
    pub fn new(
        id: CellId,
        ports: u8,
        bandwidth: Bandwidth,
        duration: Duration,
        resource: Resource,
    ) -> Option<Self>
        ensures valid { IsSome result ↔ IsPortCount ports }
        ensures value { IfSome result (λ cell. cell ≡ record {
          identity = id;
          ports = ports;
          blocks = blocks_of bandwidth;
          duration = duration;
          resource = resource;
        }) }
    {
        if ports == 1 || ports == 2 || ports == 4 {
            let blocks = block_count(bandwidth);
            Some(WideCell {
                id,
                ports,
                blocks,
                duration,
                resource,
            })
        } else {
            None
        }
    }

    /// Returns the identity, 0 to 503.
    pub fn id(&self) -> CellId
        ensures value { result ≡ self.now.identity }
        ensures valid { IsCell self.now }
    {
        self.id
    }

    /// Returns the number of antenna ports: 1, 2 or 4.
    pub fn ports(&self) -> u8
        ensures value { result ≡ self.now.ports }
        ensures valid { IsCell self.now }
    {
        self.ports
    }

    /// Returns the number of resource blocks: 6, 15, 25, 50, 75 or 100.
    pub fn blocks(&self) -> u8
        ensures value { result ≡ self.now.blocks }
        ensures bounds { (6 ≤ result) × (result ≤ 100) }
        ensures valid { IsCell self.now }
    {
        self.blocks
    }

    /// Returns the number of subcarriers, twelve for each resource block: 72 to 1,200.
    pub fn subcarriers(&self) -> u16
        ensures value { result ≡ subcarriers self.now.blocks }
        ensures bounds { (72 ≤ result) × (result ≤ 1200) }
    {
        12 * self.blocks as u16
    }

    /// Returns the PHICH duration.
    pub fn duration(&self) -> Duration
        ensures { result ≡ self.now.duration }
    {
        self.duration
    }

    /// Returns the PHICH resource.
    pub fn resource(&self) -> Resource
        ensures { result ≡ self.now.resource }
    {
        self.resource
    }
}

// Returns the number of resource blocks in a bandwidth.
fn block_count(bandwidth: Bandwidth) -> u8
    ensures value { result ≡ blocks_of bandwidth }
{
    match bandwidth {
        Bandwidth::N6 => 6,
        Bandwidth::N15 => 15,
        Bandwidth::N25 => 25,
        Bandwidth::N50 => 50,
        Bandwidth::N75 => 75,
        Bandwidth::N100 => 100,
    }
}
