//! Cell selection.

/// cellSelectionInfo of SystemInformationBlockType1 (TS 36.331 section 6.2.2). The fields are described in `Sib1`.
#[derive(Clone, Copy, Debug)]
pub struct CellSelectionInfo {
    pub q_rx: i8,
    pub q_offset: Option<u8>,
}
