//! The command `ids`.

use crate::cells::{lone_signal, many_signals, plain_gives, zeros_give};
use crate::faults::is_broken_off;
use crate::gives;
use std::alloc::{AllocError, Global};
use std::test::Fail;
use test_support::{SECONDARY, put_signal};

// Returns the report on the identities in the first frame of `many_signals`.
fn ids_of_many(alloc: Global) -> Result<String, AllocError> {
    let mut text = String::from_str(alloc, "ids 46\n")?;
    for q in 0..46_u32 {
        let line = format!(in alloc; "{} 0 0 {}\n", 1000 + 400 * q, 168 + 400 * q)?;
        text.push_str(line.as_str())?;
    }
    Ok(text)
}

#[test]
fn each_of_many_hits_has_its_identity(rt: HostRuntime) -> Result<(), Fail> {
    let alloc = rt.alloc();
    assert!(rt; gives(alloc, "ids", many_signals(alloc)?, &ids_of_many(alloc)?)?);
    Ok(())
}

#[test]
fn zeros_hold_no_identity(rt: HostRuntime) -> Result<(), Fail> {
    assert!(rt; zeros_give(rt.alloc(), "ids", "ids 0\n")?);
    assert!(rt; zeros_give(rt.alloc(), "ids --json", "[]\n")?);
    Ok(())
}

#[test]
fn both_signals_give_identity_subframe_and_frame_start(rt: HostRuntime) -> Result<(), Fail> {
    let mut bytes = lone_signal(rt.alloc())?;
    put_signal(&mut bytes, 863, &SECONDARY);
    assert!(rt; gives(rt.alloc(), "ids", bytes, "ids 1\n1000 501 5 9768\n")?);
    Ok(())
}

#[test]
fn without_a_secondary_signal_the_first_pair_stands(rt: HostRuntime) -> Result<(), Fail> {
    let bytes = lone_signal(rt.alloc())?;
    assert!(rt; gives(rt.alloc(), "ids", bytes, "ids 1\n1000 0 0 168\n")?);
    Ok(())
}

#[test]
fn faults_of_identities(rt: HostRuntime) -> Result<(), Fail> {
    assert!(rt; is_broken_off(rt.alloc(), "ids", b"ids")?);
    Ok(())
}

// The identities in the plain cell's recording, from the reference implementation, `python/lte_reference/forms.py`.
const AS_JSON: &str =
    "[{\"at\":0,\"energy\":1996394,\"identity\":0,\"n2\":0,\"peak\":3985589003236,\"power\":1996394,\
\"secondary\":{\"best\":{\"group\":0,\"score\":519218053738,\"subframe\":0},\"second\":{\"group\":165,\
\"score\":251614439592,\"subframe\":0}},\"subframe\":0,\"t\":832},{\"at\":0,\"energy\":1996394,\
\"identity\":0,\"n2\":0,\"peak\":3985589003236,\"power\":1996394,\"secondary\":{\"best\":{\"group\":0,\
\"score\":519209529351,\"subframe\":5},\"second\":{\"group\":88,\"score\":251626081825,\"subframe\":0}},\
\"subframe\":5,\"t\":10432}]\n";

#[test]
fn identities_of_a_plain_cell_as_json(rt: HostRuntime) -> Result<(), Fail> {
    assert!(rt; plain_gives(rt.alloc(), "ids --json", AS_JSON)?);
    Ok(())
}
