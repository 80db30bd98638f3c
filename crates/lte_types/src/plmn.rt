//! PLMN identities.

ghost use Rattle.std.specs.Prelude.{◌≡◌, None, [], ◌∷◌, false};
ghost use Rattle.lte_types.specs.declared.mnc.Mnc.TheVariants.{Two};

use crate::Mnc;

/// An entry of plmn-IdentityList (TS 36.331 section 6.2.2).
#[derive(Clone, Copy, Debug, PartialEq, Eq)]
pub struct Plmn {
    /// The digits of the mobile country code, each 0 to 9. If absent, the country code of the previous entry applies.
    pub mcc: Option<[u8; 3]>,
    /// The mobile network code.
    pub mnc: Mnc,
    /// Whether the cell is reserved for operator use.
    pub reserved: bool,
}

// Fills unused elements of a list: network code 00, no country code, not reserved.
impl Default for Plmn {
    fn default() -> Plmn
        ensures { result ≡ record { mcc = None; mnc = Two (0 ∷ 0 ∷ []); reserved = false } }
    {
        Plmn {
            mcc: None,
            mnc: Mnc::Two([0, 0]),
            reserved: false,
        }
    }
}
