//! Decoding schedulingInfoList.

ghost use Rattle.std.specs.Prelude.{◌≡◌, ◌≤◌};
ghost use Rattle.uper.specs.Grammar.{times};
ghost use Rattle.uper.specs.Reading.{Reads};
ghost use Rattle.sib1.specs.Layout.{sib_type, scheduling_info, scheduling_info_list};

use lte_types::{Schedule, SiMessage, Sibs};
use uper::Reader;

fn read_sib_type(reader: &mut Reader<'_>) -> Result<u8, usize>
    ensures { Reads sib_type reader.old result reader.new }
{
    let is_extension = reader.flag()?;
    if is_extension {
        reader.number(1, 0, 0)?;
        let n = reader.number(6, 0, 63)?;
        Ok(n as u8 + 16)
    } else {
        let code = reader.number(4, 0, 15)?;
        Ok(code as u8)
    }
}

fn read_sib_types(reader: &mut Reader<'_>, count: u32) -> Result<Sibs, usize>
    requires { count ≤ 31 }
    ensures { Reads (times count sib_type) reader.old result reader.new }
{
    let mut list = Sibs::new();
    for _ in 0..count {
        let code = read_sib_type(reader)?;
        list.push(code);
    }
    Ok(list)
}

fn read_scheduling_info(reader: &mut Reader<'_>) -> Result<SiMessage, usize>
    ensures { Reads scheduling_info reader.old result reader.new }
{
    let period = reader.number(3, 0, 6)?;
    let count = reader.number(5, 0, 31)?;
    let sibs = read_sib_types(reader, count)?;
    Ok(SiMessage {
        period: period as u8,
        sibs,
    })
}

fn read_scheduling_infos(reader: &mut Reader<'_>, count: u32) -> Result<Schedule, usize>
    requires { count ≤ 32 }
    ensures { Reads (times count scheduling_info) reader.old result reader.new }
{
    let mut list = Schedule::new();
    for _ in 0..count {
        let item = read_scheduling_info(reader)?;
        list.push(item);
    }
    Ok(list)
}

pub(crate) fn read_scheduling_info_list(reader: &mut Reader<'_>) -> Result<Schedule, usize>
    ensures { Reads scheduling_info_list reader.old result reader.new }
{
    let further = reader.number(5, 0, 31)?;
    read_scheduling_infos(reader, further + 1)
}
