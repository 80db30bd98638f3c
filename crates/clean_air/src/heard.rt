//! Laws of reception: the conditions under which a receiver hears a cell.
//!
//! A primary signal stands out by the rule of PSS detections if the error energy of its 128 samples is at most 14,000
//! times its gain's square (`primary`). Synchronisation signals that are received through a channel give the identity,
//! with either cyclic prefix (`identity`).

ghost use Rattle.explain.specs.Receiver.{one_port_receiver};
ghost use Rattle.clean_air.specs.HeardLaws.{PrimaryStandsOutByRule, ShownIdentityIsBest};
ghost use Rattle.clean_air.specs.HeardLaws.{ThroughIsHeard, FaithfulIsHeard, FadingIsHeard, EchoesAreHeard};

/// A law: the receiver hears a cell with one antenna port (`IsHeardBy`), if the recording is faithful to the cell, or
/// the cell is received through channels, or with a slowly varying gain, or over several paths.
pub fn cells_are_heard()
    ensures primary { PrimaryStandsOutByRule }
    ensures identity { ShownIdentityIsBest }
    ensures through { ThroughIsHeard one_port_receiver }
    ensures faithful { FaithfulIsHeard one_port_receiver }
    ensures fading { FadingIsHeard }
    ensures echoes { EchoesAreHeard }
{}
