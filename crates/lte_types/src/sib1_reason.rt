//! Reasons why SIB1 was not decoded.

ghost use Rattle.std.specs.Prelude.{◌≡◌, Some};
ghost use Rattle.lte_types.specs.Reasons.{reason_words, words_text};

use crate::Bandwidth;
use std::fmt;

/// The reason why a cell's SIB1 was not decoded. (own)
#[derive(Clone, Copy, Debug, PartialEq, Eq)]
pub enum Sib1Reason {
    /// The cell has the given number of antenna ports, 2 or 4, for which the receiver does not decode SIB1.
    NotOnePort(u8),
    /// The carrier is not 6 resource blocks wide.
    Bandwidth(Bandwidth),
    /// The control region has only the given number of control channel elements, too few for a PDCCH candidate.
    NoSearchSpace(u8),
    /// No DCI passed its CRC.
    NoControl,
    /// The DCI is not format 1A.
    NotFormat1A,
    /// The DCI allocates distributed virtual resource blocks.
    Distributed,
    /// The given resource indication value does not denote a range of resource blocks.
    BadRiv(u8),
    /// The given modulation and coding scheme is reserved.
    ReservedMcs(u8),
    /// The modulation and coding scheme gives no transport block size up to 1,000 bits.
    BlockTooLarge,
    /// No transport block passed its CRC.
    NotDecoded,
    /// The message is not a SIB1.
    NotSib1,
    /// The field that begins at the given bit is truncated or out of range.
    BadFields(u16),
    /// The cell uses the extended cyclic prefix, for which only the MIB is decoded.
    LongPrefix,
}

impl fmt::Display for Sib1Reason {
    ghost output = { λ reason. Some (reason_words reason) };

    fn fmt<W: fmt::Write>(&self, f: &mut fmt::Formatter<W>) -> fmt::Result {
        match self.words() {
            Words::Plain(word) => f.write_str(word),
            Words::WithNumber(word, number) => write!(f, "{word}{number}"),
            Words::WithWidth(word, width) => write!(f, "{word}{width}"),
        }
    }
}

impl Sib1Reason {
    fn words(&self) -> Words
        ensures { words_text result ≡ reason_words self.now }
    {
        match self {
            Sib1Reason::NotOnePort(ports) => Words::WithNumber("ports ", *ports as u16),
            Sib1Reason::Bandwidth(width) => Words::WithWidth("bandwidth ", *width),
            Sib1Reason::NoSearchSpace(count) => Words::WithNumber(
                "no-search-space ",
                *count as u16,
            ),
            Sib1Reason::NoControl => Words::Plain("no-control"),
            Sib1Reason::NotFormat1A => Words::Plain("not-1a"),
            Sib1Reason::Distributed => Words::Plain("distributed"),
            Sib1Reason::BadRiv(riv) => Words::WithNumber("bad-riv ", *riv as u16),
            Sib1Reason::ReservedMcs(mcs) => Words::WithNumber("reserved-mcs ", *mcs as u16),
            Sib1Reason::BlockTooLarge => Words::Plain("block-too-large"),
            Sib1Reason::NotDecoded => Words::Plain("not-decoded"),
            Sib1Reason::NotSib1 => Words::Plain("not-sib1"),
            Sib1Reason::BadFields(bit) => Words::WithNumber("bad-fields ", *bit),
            Sib1Reason::LongPrefix => Words::Plain("long-prefix"),
        }
    }
}

// The text of a reason in parts: its name, and the number or bandwidth after it.
enum Words {
    Plain(&'static str),
    WithNumber(&'static str, u16),
    WithWidth(&'static str, Bandwidth),
}
