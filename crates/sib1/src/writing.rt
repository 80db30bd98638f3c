//! Encoding SystemInformationBlockType1.

ghost use Rattle.std.specs.Prelude.{◌≡◌, ◌≤◌, ◌<◌, ◌≤ℤ◌, ◌-ℤ◌, [], pos, negsuc, false, IfSome, is_some, if◌then◌else◌};
ghost use Rattle.lte_types.specs.Ranges.{IsGroup, IsLevelOffset, IsPower, IsTddConfig, IsAccess, IsSelection, IsValid};
ghost use Rattle.uper.specs.Grammar.{if_present};
ghost use Rattle.uper.specs.Sheet.{Puts};
ghost use Rattle.sib1.specs.Layout.{cell_access_related_info, csg_identity, q_rx_lev_min_offset, cell_selection_info, p_max, tdd_config, sib1};
ghost use Rattle.sib1.specs.Message.{Writes};
ghost use Rattle.lte_types.specs.Parts.{access_of, selection_of};

use crate::write_plmns::put_plmn_identity_list;
use crate::write_schedule::put_scheduling_info_list;
use lte_types::Sib1;
use uper::{Sheet, Writer};

fn put_csg_identity(sheet: &mut Sheet, identity: Option<u32>)
    requires { IfSome identity IsGroup }
    ensures { Puts (if_present (is_some identity) csg_identity) identity sheet.old sheet.new }
{
    if let Some(number) = identity {
        sheet.put(number, 27);
    }
}

fn put_cell_access_related_info(sheet: &mut Sheet, fields: &Sib1)
    requires { IsAccess (access_of fields.now) }
    ensures { Puts cell_access_related_info (access_of fields.now) sheet.old sheet.new }
{
    sheet.flag(fields.csg_identity.is_some());
    put_plmn_identity_list(sheet, fields.plmns.slice());
    sheet.put(fields.tac as u32, 16);
    sheet.put(fields.cell, 28);
    sheet.flag(!fields.barred);
    sheet.flag(!fields.intra);
    sheet.flag(fields.csg);
    put_csg_identity(sheet, fields.csg_identity);
}

fn put_q_rx_lev_min_offset(sheet: &mut Sheet, value: Option<u8>)
    requires { IfSome value IsLevelOffset }
    ensures { Puts (if_present (is_some value) q_rx_lev_min_offset) value sheet.old sheet.new }
{
    if let Some(number) = value {
        sheet.put(number as u32 - 1, 3);
    }
}

// Returns the encoded number, 0 to 48, for q-RxLevMin in units of 2 dBm.
fn number_of_q_rx_lev_min(level: i8) -> u32
    requires low { negsuc 69 ≤ℤ level }
    requires high { level ≤ℤ negsuc 21 }
    ensures is { pos result -ℤ pos 70 ≡ level }
    ensures bound { result ≤ 48 }
{
    (level + 70) as u32
}

// Returns the encoded number, 0 to 63, for p-Max in dBm.
fn number_of_p_max(power: i8) -> u32
    requires low { negsuc 29 ≤ℤ power }
    requires high { power ≤ℤ pos 33 }
    ensures is { pos result -ℤ pos 30 ≡ power }
    ensures bound { result ≤ 63 }
{
    (power + 30) as u32
}

fn put_cell_selection_info(sheet: &mut Sheet, fields: &Sib1)
    requires { IsSelection (selection_of fields.now) }
    ensures { Puts cell_selection_info (selection_of fields.now) sheet.old sheet.new }
{
    sheet.flag(fields.q_offset.is_some());
    sheet.put(number_of_q_rx_lev_min(fields.q_rx), 6);
    put_q_rx_lev_min_offset(sheet, fields.q_offset);
}

fn put_p_max(sheet: &mut Sheet, value: Option<i8>)
    requires { IfSome value IsPower }
    ensures { Puts (if_present (is_some value) p_max) value sheet.old sheet.new }
{
    if let Some(level) = value {
        sheet.put(number_of_p_max(level), 6);
    }
}

fn put_tdd_config(sheet: &mut Sheet, value: Option<(u8, u8)>)
    requires { IfSome value IsTddConfig }
    ensures { Puts (if_present (is_some value) tdd_config) value sheet.old sheet.new }
{
    if let Some((assignment, patterns)) = value {
        sheet.put(assignment as u32, 3);
        sheet.put(patterns as u32, 4);
    }
}

fn put_fields(sheet: &mut Sheet, fields: &Sib1)
    requires { IsValid fields.now }
    ensures { Puts sib1 fields.now sheet.old sheet.new }
{
    sheet.put(0, 1);
    sheet.put(1, 1);
    sheet.flag(fields.p_max.is_some());
    sheet.flag(fields.tdd.is_some());
    sheet.flag(fields.extended);
    put_cell_access_related_info(sheet, fields);
    put_cell_selection_info(sheet, fields);
    put_p_max(sheet, fields.p_max);
    sheet.put(fields.band as u32 - 1, 6);
    put_scheduling_info_list(sheet, fields.scheduling.slice());
    put_tdd_config(sheet, fields.tdd);
    sheet.put(fields.window as u32, 3);
    sheet.put(fields.tag as u32, 5);
}

/// Writes the encoding of `fields`, which are in range and have no extension, to `out`, which must be empty. Returns
/// false, and leaves `out` empty, if the encoding has more than 1,000 bits.
pub fn write(fields: &Sib1, out: &mut Writer) -> bool
    requires empty { out.old ≡ [] }
    requires valid { IsValid fields.now }
    requires plain { fields.now.extended ≡ false }
    ensures { Writes fields.now result out.new }
{
    let mut sheet = Sheet::new();
    put_fields(&mut sheet, fields);
    match sheet.finish() {
        Some(bits) => {
            *out = bits;
            true
        }
        None => false,
    }
}
