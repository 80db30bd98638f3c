//! Encoding plmn-IdentityList.

ghost use Rattle.std.specs.Prelude.{◌≤◌, ℕ, All, length, IfSome, is_some, true, if◌then◌else◌};
ghost use Rattle.lte_types.specs.Ranges.{AreDigits, HasDigits, IsValidPlmn, ArePlmns};
ghost use Rattle.uper.specs.Grammar.{times, if_present};
ghost use Rattle.uper.specs.Sheet.{Puts};
ghost use Rattle.sib1.specs.Layout.{digit, mnc, plmn_identity_info, plmn_identity_list};

use lte_types::{Mnc, Plmn};
use uper::Sheet;

fn put_digits(sheet: &mut Sheet, digits: &[u8])
    requires { AreDigits digits.now }
    ensures { Puts (times (length digits.now) digit) digits.now sheet.old sheet.new }
{
    for digit in digits {
        sheet.put(*digit as u32, 4);
    }
}

fn put_mcc(sheet: &mut Sheet, code: &Option<[u8; 3]>)
    requires { IfSome code.now AreDigits }
    ensures { Puts (if_present (is_some code.now) (times 3 digit)) code.now sheet.old sheet.new }
{
    if let Some(digits) = code {
        put_digits(sheet, digits);
    }
}

fn put_mnc(sheet: &mut Sheet, code: &Mnc)
    requires { HasDigits code.now }
    ensures { Puts mnc code.now sheet.old sheet.new }
{
    match code {
        Mnc::Two(digits) => {
            sheet.flag(false);
            put_digits(sheet, digits);
        }
        Mnc::Three(digits) => {
            sheet.flag(true);
            put_digits(sheet, digits);
        }
    }
}

// Appends an entry of plmn-IdentityList. With a country code, the entry is also valid as the list's first entry, which
// must have one.
fn put_plmn_identity_info(sheet: &mut Sheet, network: &Plmn)
    requires { IsValidPlmn network.now }
    ensures { (least : ℕ) → least ≤ (if is_some network.now.mcc then 1 else 0)
        → Puts (plmn_identity_info least) network.now sheet.old sheet.new }
{
    sheet.put(network.mcc.is_some() as u32, 1);
    put_mcc(sheet, &network.mcc);
    put_mnc(sheet, &network.mnc);
    sheet.flag(!network.reserved);
}

fn put_other_plmns(sheet: &mut Sheet, others: &[Plmn])
    requires { All IsValidPlmn others.now }
    ensures { Puts (times (length others.now) (plmn_identity_info 0)) others.now sheet.old sheet.new }
{
    for other in others {
        put_plmn_identity_info(sheet, other);
    }
}

pub(crate) fn put_plmn_identity_list(sheet: &mut Sheet, list: &[Plmn])
    requires { ArePlmns list.now }
    ensures { Puts plmn_identity_list list.now sheet.old sheet.new }
{
    if let [first, others @ ..] = list {
        sheet.put(others.len() as u32, 3);
        put_plmn_identity_info(sheet, first);
        put_other_plmns(sheet, others);
    }
}
