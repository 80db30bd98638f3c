use uper::{Reader, Sheet, Writer};

// Returns whether a reader over eight bits reads all of them and none past the end.
fn ends_after_eight(reader: &mut Reader) -> bool {
    reader.take(9) == None
        && reader.place() == 0
        && reader.take(3) == Some(5)
        && reader.take(0) == Some(0)
        && reader.take(5) == Some(18)
        && reader.place() == 8
        && reader.take(1) == None
}

#[test]
fn nothing_is_read_past_the_end(rt: HostRuntime) {
    let mut reader = Reader::new(&[true, false, true, true, false, false, true, false]);
    assert!(rt; ends_after_eight(&mut reader));
}

// Returns whether a reader reports a field out of range at bit 4, and a field past the end at bit 5.
fn has_bad_fields_at_4_and_5(reader: &mut Reader) -> bool {
    reader.flag() == Ok(true)
        && reader.number(3, 0, 3) == Ok(3)
        && reader.number(1, 1, 1) == Err(4)
        && reader.place() == 4
        && reader.flag() == Ok(false)
        && reader.flag() == Err(5)
}

#[test]
fn a_bad_field_is_reported_by_its_place(rt: HostRuntime) {
    let mut reader = Reader::new(&[true, false, true, true, false]);
    assert!(rt; has_bad_fields_at_4_and_5(&mut reader));
}

// Returns whether a writer with 992 bits accepts eight more and then no bit.
fn takes_eight_more(writer: &mut Writer) -> bool {
    writer.put(0b1000_0001, 8) && !writer.put(0, 1) && writer.put(0, 0)
}

// Returns whether `bits` has 1,000 bits, which end in 10000001.
fn ends_as_put(bits: &[bool]) -> bool {
    bits.len() == 1000 && bits[992] && !bits[993] && bits[999]
}

#[test]
fn no_bit_is_put_after_the_thousandth(rt: HostRuntime) {
    let mut writer = Writer::new();
    for _ in 0..31_u32 {
        assert!(rt; writer.put(0x8000_0001, 32));
    }
    assert!(rt; takes_eight_more(&mut writer));
    assert!(rt; ends_as_put(writer.bits()));
}

// Returns a `Sheet` with 992 bits.
fn nearly_full() -> Sheet {
    let mut sheet = Sheet::new();
    for _ in 0..31_u32 {
        sheet.put(0, 32);
    }
    sheet
}

fn has_thousand_bits(writer: Option<Writer>) -> bool {
    match writer {
        Some(writer) => writer.bits().len() == 1000,
        None => false,
    }
}

#[test]
fn a_sheet_gives_nothing_after_what_had_no_room(rt: HostRuntime) {
    let mut sheet = nearly_full();
    sheet.put(5, 8);
    assert!(rt; has_thousand_bits(sheet.finish()));
    let mut sheet = nearly_full();
    sheet.put(5, 9);
    sheet.flag(true);
    assert!(rt; sheet.finish().is_none());
}
