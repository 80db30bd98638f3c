//! The commands `tell` and `apply` of `lte_tune`.

use crate::lengths::refuse_lengths;
use crate::{command_line, gives_by, output_by, output_unread, sent_by};
use lte_top::{Program, Status};
use std::alloc::{AllocError, Global};
use std::test::Fail;
use test_support::silence;

#[test]
fn words_of_forms_of_the_tuner_read(rt: HostRuntime) -> Result<(), Fail> {
    for line in [
        "tell",
        "apply",
        "apply 0",
        "apply 2047",
        "apply -2048",
        "apply -1",
        "tell --json",
        "tell --format cu8",
        "tell --json --format cu8",
        "apply --format cu8",
        "apply -2048 --format cu8",
    ] {
        let words = command_line(rt.alloc(), line)?;
        let (output, _) = output_unread(rt.alloc(), Program::Tuner, &words)?;
        assert!(rt; output.status == Status::ReadFault, "{line}");
    }
    Ok(())
}

#[test]
fn zeros_have_no_offset(rt: HostRuntime) -> Result<(), Fail> {
    let (alloc, tuner) = (rt.alloc(), Program::Tuner);
    let zeros = silence(alloc, 230_400)?;
    assert!(rt; gives_by(alloc, tuner, "tell", zeros.clone()?, "hits 0\n")?);
    let none = "{\"candidates\":[],\"told\":null}\n";
    assert!(rt; gives_by(alloc, tuner, "tell --json", zeros.clone()?, none)?);
    assert!(rt; output_by(alloc, tuner, "apply", zeros.clone()?)?.is(Status::Done, &zeros));
    Ok(())
}

#[test]
fn lengths_that_are_refused(rt: HostRuntime) -> Result<(), Fail> {
    for line in ["tell", "apply", "apply 9"] {
        refuse_lengths(&rt, rt.alloc(), Program::Tuner, line)?;
    }
    Ok(())
}

// The plain cell's estimate and candidates, from the reference implementation, `python/lte_reference/forms.py`.
const AS_JSON: &str =
    "{\"candidates\":[{\"coarse\":0,\"energy\":1996394,\"peak\":3985589003236,\"power\":1996394,\"turn\":0},\
{\"coarse\":8,\"energy\":2013870,\"peak\":2925206624674,\"power\":1996394,\"turn\":255},{\"coarse\":-12,\
\"energy\":1985425,\"peak\":2838976729760,\"power\":1996394,\"turn\":-375},{\"coarse\":-4,\"energy\":1952070,\
\"peak\":2139102564229,\"power\":1996394,\"turn\":-131}],\"told\":{\"cells\":1,\"hits\":2,\"turn\":0}}\n";

#[test]
fn a_plain_cell_as_json(rt: HostRuntime) -> Result<(), Fail> {
    let (alloc, tuner) = (rt.alloc(), Program::Tuner);
    let bytes = sent_by(alloc, "")?.written;
    assert!(rt; gives_by(alloc, tuner, "tell --json", bytes, AS_JSON)?);
    Ok(())
}

// Returns an 8-bit recording that contains every byte value.
fn of_8_bits(alloc: Global) -> Result<Vec<u8>, AllocError> {
    let mut bytes = Vec::new(alloc);
    for i in 0..115_200_u32 {
        let [low, _, _, _] = i.to_le_bytes();
        bytes.push(low)?;
    }
    Ok(bytes)
}

// Widens 8-bit components to 16 bits: v becomes 2v - 255.
fn of_16_bits(alloc: Global, bytes: &[u8]) -> Result<Vec<u8>, AllocError> {
    let mut wide = Vec::new(alloc);
    for &v in bytes {
        let component = i16::from(v).saturating_mul(2).saturating_sub(255);
        wide.extend_from_slice(&component.to_le_bytes())?;
    }
    Ok(wide)
}

#[test]
fn recordings_of_8_bits_are_applied_as_those_of_16(rt: HostRuntime) -> Result<(), Fail> {
    let (alloc, tuner) = (rt.alloc(), Program::Tuner);
    let bytes = of_8_bits(alloc)?;
    let wide = output_by(alloc, tuner, "apply 5", of_16_bits(alloc, &bytes)?)?;
    assert!(rt; wide.status == Status::Done && wide.written.len() == 230_400);
    let applied = output_by(alloc, tuner, "apply 5 --format cu8", bytes)?;
    assert!(rt; applied.is(Status::Done, &wide.written));
    Ok(())
}

#[test]
fn silence_of_8_bits_has_no_offset(rt: HostRuntime) -> Result<(), Fail> {
    let (alloc, tuner) = (rt.alloc(), Program::Tuner);
    let silent = vec![in alloc; 127_u8; 115_200]?;
    assert!(rt;
        gives_by(
            alloc,
            tuner,
            "tell --format cu8",
            silent.clone()?,
            "hits 0\n"
        )?
    );
    let applied = output_by(alloc, tuner, "apply --format cu8", silent)?;
    assert!(rt; applied.is(Status::Done, &silence(alloc, 230_400)?));
    Ok(())
}
