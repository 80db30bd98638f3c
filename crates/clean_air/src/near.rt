//! Laws of cells that one PSS detection is enough to find, although soft values may have wrong signs.
//!
//! A receiver's list contains each cell that the receiver reads at each detection near one (`specs/Near.antt`). The
//! receiver reads the words that are nearest to the soft values (`specs/Nearest.antt`).

ghost use Rattle.clean_air.specs.Nearest.{NearestMasterIsDecoded, DecodedMasterIsListed};

/// A law: the receiver decodes each MIB that is nearest to the soft values, at each detection that gives the cell.
pub fn nearest_masters_are_decoded()
    ensures { NearestMasterIsDecoded }
{}

/// A law: the list of a receiver contains each cell, of any bandwidth, whose MIB the receiver decodes at each detection
/// that gives the cell near one. The entry has the sent identity, antenna port count and MIB.
pub fn decoded_masters_are_listed()
    ensures { DecodedMasterIsListed }
{}
