//! Encoding schedulingInfoList.

ghost use Rattle.std.specs.Prelude.{◌≤◌, All, length};
ghost use Rattle.lte_types.specs.Ranges.{IsValidMessage, AreMessages};
ghost use Rattle.uper.specs.Grammar.{times};
ghost use Rattle.uper.specs.Sheet.{Puts};
ghost use Rattle.sib1.specs.Layout.{sib_type, scheduling_info, scheduling_info_list};

use lte_types::SiMessage;
use uper::Sheet;

fn put_sib_type(sheet: &mut Sheet, code: u8)
    requires { code ≤ 79 }
    ensures { Puts sib_type code sheet.old sheet.new }
{
    if code >= 16 {
        sheet.flag(true);
        sheet.put(0, 1);
        sheet.put(code as u32 - 16, 6);
    } else {
        sheet.flag(false);
        sheet.put(code as u32, 4);
    }
}

fn put_sib_types(sheet: &mut Sheet, codes: &[u8])
    requires { All (λ code. code ≤ 79) codes.now }
    ensures { Puts (times (length codes.now) sib_type) codes.now sheet.old sheet.new }
{
    for code in codes {
        put_sib_type(sheet, *code);
    }
}

fn put_scheduling_info(sheet: &mut Sheet, item: &SiMessage)
    requires { IsValidMessage item.now }
    ensures { Puts scheduling_info item.now sheet.old sheet.new }
{
    sheet.put(item.period as u32, 3);
    let codes = item.sibs.slice();
    sheet.put(codes.len() as u32, 5);
    put_sib_types(sheet, codes);
}

fn put_scheduling_infos(sheet: &mut Sheet, list: &[SiMessage])
    requires { All IsValidMessage list.now }
    ensures { Puts (times (length list.now) scheduling_info) list.now sheet.old sheet.new }
{
    for item in list {
        put_scheduling_info(sheet, item);
    }
}

pub(crate) fn put_scheduling_info_list(sheet: &mut Sheet, list: &[SiMessage])
    requires { AreMessages list.now }
    ensures { Puts scheduling_info_list list.now sheet.old sheet.new }
{
    sheet.put(list.len() as u32 - 1, 5);
    put_scheduling_infos(sheet, list);
}
