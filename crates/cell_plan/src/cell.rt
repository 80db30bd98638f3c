//! Cell plans, and the cells that can be sent.

ghost use Rattle.std.specs.Prelude.{◌≡◌, ◌+◌, ◌≤◌, ◌&&◌, ◌||◌, nat_eq, nat_le, false, if◌then◌else◌, length, Some};
ghost use Rattle.std.specs.Prelude.{true, None, MatchOption, MatchResult, IfSome, IfOk};
ghost use Rattle.std.specs.Option.{option_map_or};
ghost use Rattle.lte_types.specs.Ranges.{IsValid};
ghost use Rattle.dci.specs.Sizes.{size_of};
ghost use Rattle.sib1.specs.Text.{text_of};
ghost use Rattle.turbo_code.specs.Table.{IsSize};
ghost use Rattle.cell_plan.specs.Parts.{assignment_of};
ghost use Rattle.cell_plan.specs.Transport.{block_size, has_block, is_whole_of, is_resolvable};
ghost use Rattle.cell_plan.specs.Plan.{needs_each_bit, is_enough};
ghost use Rattle.lte_types.specs.Numerology.{block_count};

use crate::CellError;
use crate::transport::{block_fills, coded_block};
use grid_map::block_places;
use lte_types::{Assignment, Carrier, CellId, Cfi, Duration, Resource, Sib1};
use std::fmt::{self, Debug, Formatter, Write};
use std::marker::Model;
use turbo_code::Coded;
use uper::Writer;

/// The content of a cell, for any transmission scheme. The MIB has bandwidth n6 and the upper bits of the frame number,
/// and its CRC mask states the antenna port count. With the extended cyclic prefix or four antenna ports, only the
/// identity, the PHICH fields and the spare bits are sent, without control region and SIB1 (own).
#[derive(Debug, Drop)]
pub struct CellPlan {
    /// The physical-layer cell identity, 0 to 503 (TS 36.211 section 6.11).
    pub identity: u16,
    /// The PHICH duration, phich-Duration of the MIB (TS 36.331 section 6.2.2).
    pub duration: Duration,
    /// The PHICH resource, phich-Resource of the MIB (TS 36.331 section 6.2.2).
    pub resource: Resource,
    /// The 10 spare bits of the MIB, 0 to 1023.
    pub spare: u16,
    /// The control format indicator, 2 or 3 (TS 36.212 section 5.3.4).
    pub cfi: u8,
    /// The first resource block that carries SIB1, 0 to 5.
    pub start: u8,
    /// The number of resource blocks that carry SIB1, 1 to 6. `start + blocks` is at most 6.
    pub blocks: u8,
    /// The modulation and coding scheme of SIB1 (I_TBS). The table has a transport block size for this scheme in
    /// `column`.
    pub mcs: u8,
    /// The column of the transport block size table (TS 36.213 section 7.1.7.2): N_PRB, 2 or 3.
    pub column: u8,
    /// The fields of SIB1, which has neither TDD-Config nor an extension.
    pub sib1: Sib1,
}

/// A cell that can be sent: a plan that meets all conditions. Contracts see a cell as its plan.
#[derive(Drop)]
pub struct Cell {
    plan: CellPlan,
    // The plan's identity, resource assignment and transport block size, as values of types with their ranges.
    id: CellId,
    assignment: Assignment,
    size: u16,
    // The turbo-encoded transport block of the plan.
    coded: Coded,
}

impl CellPlan {
    ghost use Rattle.std.specs.Prelude.{◌*◌};
    ghost use Rattle.grid_map.specs.Shared.{block_places_of};

    /// Returns the number of resource elements that the assigned blocks have for the shared channel of `carrier`: at
    /// most 612 with six blocks.
    pub fn assigned_places(&self, carrier: Carrier) -> usize
        ensures value { result ≡ block_places_of carrier self.now.cfi * self.now.blocks }
        ensures bound { self.now.blocks ≤ block_count → result ≤ 612 }
    {
        block_places(carrier, self.cfi) * self.blocks as usize
    }
}

// Returns the plan's control format indicator, or `None` if it is neither 2 nor 3.
fn indicator_of(plan: &CellPlan) -> Option<Cfi>
    ensures { MatchOption result ((nat_le 2 plan.now.cfi && nat_le plan.now.cfi 3) ≡ false)
        (λ cfi. ((nat_le 2 plan.now.cfi && nat_le plan.now.cfi 3) ≡ true) × (cfi ≡ plan.now.cfi)) }
{
    if plan.cfi < 2 {
        None
    } else {
        Cfi::new(plan.cfi)
    }
}

// Returns the plan's resource assignment, or `None` if the resource blocks are not among the six.
fn assignment_of(plan: &CellPlan, cfi: Cfi) -> Option<Assignment>
    requires indicator { cfi ≡ plan.now.cfi }
    requires wide { 2 ≤ plan.now.cfi }
    ensures { MatchOption result
        ((nat_le 1 plan.now.blocks && nat_le (plan.now.start + plan.now.blocks) block_count) ≡ false)
        (λ assignment. ((nat_le 1 plan.now.blocks && nat_le (plan.now.start + plan.now.blocks) block_count) ≡ true)
        × (assignment ≡ assignment_of plan.now)) }
{
    Assignment::new(cfi, plan.start, plan.blocks)
}

// Returns the plan's transport block size in bits, or `None` if `column` is neither 2 nor 3 or has no size for `mcs`.
fn size_of(plan: &CellPlan) -> Option<u16>
    ensures value { result ≡ (if nat_eq plan.now.column 2 || nat_eq plan.now.column 3
        then size_of plan.now.mcs plan.now.column else None) }
    ensures row { IfSome result (λ size. IsSize (size + 24)) }
    ensures room { IfSome result (λ size. size ≤ 1000) }
{
    if plan.column == 2 || plan.column == 3 {
        dci::size(plan.mcs, plan.column)
    } else {
        None
    }
}

// Returns the encoded SIB1 `fields`, which have no extension, or `None` if the text has more than `size` bits.
fn text_of(fields: &Sib1, size: u16) -> Option<Writer>
    requires valid { IsValid fields.now }
    requires plain { fields.now.extended ≡ false }
    requires size { size ≤ 1000 }
    ensures { MatchOption result
        (option_map_or (λ text. nat_le (length text) size) (text_of fields.now) false ≡ false)
        (λ text. (text_of fields.now ≡ Some text) × (length text ≤ size)) }
{
    let mut text = Writer::new();
    if sib1::write(fields, &mut text) && text.bits().len() <= size as usize {
        Some(text)
    } else {
        None
    }
}

// Returns whether the assigned resource blocks carry each coded bit of the transport block of `size` bits and its CRC:
// three streams, each with four tail bits.
fn is_sent_whole(carrier: Carrier, plan: &CellPlan, size: u16) -> bool
    requires blocks { plan.now.blocks ≤ block_count }
    requires size { block_size plan.now ≡ size }
    ensures { result ≡ is_whole_of carrier plan.now }
{
    3 * (size as usize + 24 + 4) <= 2 * plan.assigned_places(carrier)
}

// Returns whether the plan has a transport block, and the bits that its resource blocks carry resolve this block.
fn has_resolvable_block(plan: &CellPlan, size: u16) -> bool
    requires valid { IsValid plan.now.sib1 }
    requires blocks { plan.now.blocks ≤ block_count }
    requires size { block_size plan.now ≡ size }
    requires row { IsSize (size + 24) }
    requires room { size ≤ 1000 }
    ensures { result ≡ (has_block plan.now && is_resolvable plan.now) }
{
    if plan.sib1.tdd.is_some() || plan.sib1.extended {
        return false;
    }
    match text_of(&plan.sib1, size) {
        Some(text) => block_fills(
            text.bits(),
            size,
            2 * plan.assigned_places(Carrier::OnePort) as u16,
        ),
        None => false,
    }
}

// Returns whether a transmission scheme must send each coded bit of the transport block: only two antenna ports with a
// control region must.
fn needs_each_bit(carrier: Carrier) -> bool
    ensures { result ≡ needs_each_bit carrier }
{
    carrier.has_control() && carrier.ports() == 2
}

// Returns whether a transmission scheme sends enough of the plan's transport block of `size` bits: each coded bit or,
// if not all are needed, enough bits with one antenna port to resolve the block.
fn is_sent_enough(carrier: Carrier, plan: &CellPlan, size: u16) -> bool
    requires valid { IsValid plan.now.sib1 }
    requires blocks { plan.now.blocks ≤ block_count }
    requires size { block_size plan.now ≡ size }
    requires row { IsSize (size + 24) }
    requires room { size ≤ 1000 }
    ensures { result ≡ is_enough carrier plan.now }
{
    if needs_each_bit(carrier) {
        is_sent_whole(carrier, plan, size)
    } else {
        is_sent_whole(Carrier::OnePort, plan, size) || has_resolvable_block(plan, size)
    }
}

impl Model for Cell {
    ghost use Rattle.cell_plan.specs.declared.cell.CellPlan.{CellPlan as Plan};
    ghost use Rattle.cell_plan.specs.Parts.{ArePartsOf};
    ghost use Rattle.cell_plan.specs.Plan.{IsSendable};
    ghost use Rattle.cell_plan.specs.Transport.{IsCoded};

    ghost Value = { Plan };

    ghost view = { λ c. c.plan };

    ghost invariant = { λ c. IsSendable c.plan × ArePartsOf c.plan c.id c.assignment c.size × IsCoded c.plan c.coded };
}

// A cell is printed as its plan.
impl Debug for Cell {
    fn fmt<W: Write>(&self, f: &mut Formatter<W>) -> fmt::Result {
        self.plan.fmt(f)
    }
}

impl Cell {
    ghost use Rattle.dci.specs.Sizes.{size_of};
    ghost use Rattle.cell_plan.specs.Plan.{IsSendable, IsSendableBy, plan_refusal, refusal_of};
    ghost use Rattle.cell_plan.specs.Transport.{IsCoded};

    /// Creates the cell of `plan` for `carrier`. If a condition fails, returns the first such condition's error, in
    /// `CellError`'s order. With the extended cyclic prefix or four antenna ports, the conditions for one port apply.
    /// (own)
    pub fn of(carrier: Carrier, plan: CellPlan) -> Result<Cell, CellError>
        requires { IsValid plan.sib1 }
        ensures refusal { MatchResult result (λ _. refusal_of carrier plan ≡ None)
            (λ cause. refusal_of carrier plan ≡ Some cause) }
        ensures plan { IfOk result (λ cell. cell ≡ plan) }
        ensures sendable { IfOk result (λ cell. IsSendableBy carrier cell) }
    {
        let Some(id) = CellId::new(plan.identity) else {
            return Err(CellError::Identity);
        };
        if plan.spare > 1023 {
            return Err(CellError::Spare);
        }
        let Some(cfi) = indicator_of(&plan) else {
            return Err(CellError::Cfi);
        };
        let Some(assignment) = assignment_of(&plan, cfi) else {
            return Err(CellError::Assignment);
        };
        let Some(size) = size_of(&plan) else {
            return Err(CellError::Mcs);
        };
        if !is_sent_enough(carrier, &plan, size) {
            return Err(CellError::Punctured);
        }
        if plan.sib1.tdd.is_some() {
            return Err(CellError::Duplex);
        }
        if plan.sib1.extended {
            return Err(CellError::Extension);
        }
        let Some(text) = text_of(&plan.sib1, size) else {
            return Err(CellError::Sib1Long);
        };
        let coded = coded_block(text.bits(), size);
        Ok(Cell {
            plan,
            id,
            assignment,
            size,
            coded,
        })
    }

    /// Creates the cell of `plan` for one antenna port and the normal cyclic prefix, or returns the first failed
    /// condition's error.
    pub fn new(plan: CellPlan) -> Result<Cell, CellError>
        requires { IsValid plan.sib1 }
        ensures refusal { MatchResult result (λ _. plan_refusal plan ≡ None)
            (λ cause. plan_refusal plan ≡ Some cause) }
        ensures plan { IfOk result (λ cell. cell ≡ plan) }
        ensures sendable { IfOk result IsSendable }
    {
        Cell::of(Carrier::OnePort, plan)
    }

    /// Returns the cell's plan.
    pub fn plan(&self) -> &CellPlan
        ensures plan { result.now ≡ self.now }
        ensures sendable { IsSendable self.now }
    {
        &self.plan
    }

    /// Returns the physical-layer cell identity, 0 to 503.
    pub fn id(&self) -> CellId
        ensures value { result ≡ self.now.identity }
        ensures sendable { IsSendable self.now }
    {
        self.id
    }

    /// Returns the control format indicator, 2 or 3.
    pub fn cfi(&self) -> Cfi
        ensures value { result ≡ self.now.cfi }
    {
        self.assignment.cfi()
    }

    /// Returns the assigned resource blocks together with the control format indicator.
    pub fn assignment(&self) -> &Assignment
        ensures { result.now ≡ assignment_of self.now }
    {
        &self.assignment
    }

    /// Returns the size of the transport block in bits, without its CRC (TS 36.213 section 7.1.7.2).
    pub fn size(&self) -> u16
        ensures value { result ≡ block_size self.now }
        ensures entry { size_of self.now.mcs self.now.column ≡ Some result }
    {
        self.size
    }

    /// Returns the turbo-encoded transport block with its CRC (TS 36.212 section 5.3.2).
    pub fn coded(&self) -> &Coded
        ensures { IsCoded self.now result.now }
    {
        &self.coded
    }
}
