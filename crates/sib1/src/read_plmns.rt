//! Decoding plmn-IdentityList.

ghost use Rattle.std.specs.Prelude.{◌≡◌, ◌≤◌, ◌<◌, IfOk};
ghost use Rattle.uper.specs.Grammar.{times, if_present};
ghost use Rattle.uper.specs.Reading.{Reads};
ghost use Rattle.sib1.specs.Layout.{digit, mnc, plmn_identity_info, plmn_identity_list};

use lte_types::{Mnc, Plmn, Plmns};
use uper::Reader;

fn read_digit(reader: &mut Reader<'_>) -> Result<u8, usize>
    ensures { Reads digit reader.old result reader.new }
{
    Ok(reader.number(4, 0, 9)? as u8)
}

fn read_two_digits(reader: &mut Reader<'_>) -> Result<[u8; 2], usize>
    ensures { Reads (times 2 digit) reader.old result reader.new }
{
    let a = read_digit(reader)?;
    let b = read_digit(reader)?;
    Ok([a, b])
}

fn read_three_digits(reader: &mut Reader<'_>) -> Result<[u8; 3], usize>
    ensures { Reads (times 3 digit) reader.old result reader.new }
{
    let a = read_digit(reader)?;
    let b = read_digit(reader)?;
    let c = read_digit(reader)?;
    Ok([a, b, c])
}

fn read_mcc(reader: &mut Reader<'_>, present: bool) -> Result<Option<[u8; 3]>, usize>
    ensures { Reads (if_present present (times 3 digit)) reader.old result reader.new }
{
    if present {
        let digits = read_three_digits(reader)?;
        Ok(Some(digits))
    } else {
        Ok(None)
    }
}

fn read_mnc(reader: &mut Reader<'_>) -> Result<Mnc, usize>
    ensures { Reads mnc reader.old result reader.new }
{
    let is_long = reader.flag()?;
    if is_long {
        let digits = read_three_digits(reader)?;
        Ok(Mnc::Three(digits))
    } else {
        let short = read_two_digits(reader)?;
        Ok(Mnc::Two(short))
    }
}

// Reads an entry of plmn-IdentityList. If `least` is 1, the entry must have a country code.
fn read_plmn_identity_info(reader: &mut Reader<'_>, least: u32) -> Result<Plmn, usize>
    requires { least ≤ 1 }
    ensures { Reads (plmn_identity_info least) reader.old result reader.new }
{
    let has_mcc = reader.number(1, least, 1)?;
    let mcc = read_mcc(reader, has_mcc == 1)?;
    let mnc = read_mnc(reader)?;
    let not_reserved = reader.flag()?;
    Ok(Plmn {
        mcc,
        mnc,
        reserved: !not_reserved,
    })
}

pub(crate) fn read_plmn_identity_list(reader: &mut Reader<'_>) -> Result<Plmns, usize>
    ensures { Reads plmn_identity_list reader.old result reader.new }
{
    let further = reader.number(3, 0, 5)?;
    let first = read_plmn_identity_info(reader, 1)?;
    let mut list = Plmns::new();
    list.push(first);
    for _ in 0..further {
        let other = read_plmn_identity_info(reader, 0)?;
        list.push(other);
    }
    Ok(list)
}
