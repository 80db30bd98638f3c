//! The downlink grant.

ghost use Rattle.std.specs.Prelude.{◌≡◌, ◌≤◌, Bool, List, Result, length};
ghost use Rattle.lte_types.specs.declared.sib1_reason.Sib1Reason.{Sib1Reason};
ghost use Rattle.dci.specs.declared.grant.Grant.{Grant};
ghost use Rattle.dci.specs.Format1A.{Carries, IsSentFor, Says, IsGrant, sent_word};

/// A downlink grant: the resource blocks and the format in which a transport block is sent.
#[derive(Clone, Copy, Debug, PartialEq, Eq)]
pub struct Grant {
    /// The first resource block, 0 to 5.
    pub start: u8,
    /// The number of resource blocks, 1 to 6; `start + blocks` is at most 6.
    pub blocks: u8,
    /// The modulation and coding scheme, 0 to 26.
    pub mcs: u8,
    /// The column in the table of transport block sizes: 2 or 3.
    pub column: u8,
    /// The redundancy version, 0 to 3.
    pub rv: u8,
    /// The transport block size in bits, without the CRC.
    pub size: u16,
}

/// A law: the bits of a DCI carry exactly one grant or are refused for exactly one reason. A carried grant is valid,
/// and a valid grant is sent as exactly one word of 21 bits.
pub fn grants_and_bits()
    ensures one_answer { (bits : List Bool) (a b : Result Grant Sib1Reason) → Says bits a → Says bits b → a ≡ b }
    ensures some_answer { (bits : List Bool) → (answer : Result Grant Sib1Reason) × Says bits answer }
    ensures grant { (bits : List Bool) (grant : Grant) → Carries bits grant → IsGrant grant }
    ensures sent { (grant : Grant) → IsGrant grant → IsSentFor (sent_word grant) grant }
    ensures one_word { (bits : List Bool) (grant : Grant) → length bits ≡ 21 →
        IsSentFor bits grant → bits ≡ sent_word grant }
{}
