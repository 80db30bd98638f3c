//! Access to a cell.

use crate::Plmns;

/// cellAccessRelatedInfo of SystemInformationBlockType1 (TS 36.331 section 6.2.2). The fields are described in
/// `Sib1`.
#[derive(Debug, Drop)]
pub struct CellAccessRelatedInfo {
    pub plmns: Plmns,
    pub tac: u16,
    pub cell: u32,
    pub barred: bool,
    pub intra: bool,
    pub csg: bool,
    pub csg_identity: Option<u32>,
}
