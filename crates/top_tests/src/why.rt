//! The command `why`. The expected texts are from the reference implementation, `python/lte_reference/why.py`.

use crate::cells::{plain_gives, zeros_give};
use crate::faults::is_broken_off;
use std::test::Fail;

// The answers for several identities in the plain cell's recording, whose cell has identity 0.
const OF_PLAIN: [(&str, &str); 8] = [
    ("why 0", "why 0 one-port 1\nlisted at 0 sfn 0 ports 1\n"),
    (
        "why 3",
        "why 3 one-port 2
other-identity hit 832 ratio 1000 identity 0 score 519218053738 own 50306027046
other-identity hit 10432 ratio 1000 identity 0 score 519209529351 own 251076757801
",
    ),
    (
        "why 1",
        "why 1 one-port 1\nno-hit best 9764 ratio 116 needs 250\n",
    ),
    (
        "why 0 --ports 2",
        "why 0 two-ports 2
ports hit 832 ratio 1000 at 0 phase 0 cost 0 total 32160 ports 1
ports hit 10432 ratio 1000 at 0 phase 0 cost 0 total 32160 ports 1
",
    ),
    (
        "why 503 --prefix long",
        "why 503 long-prefix 1\nno-hit best 832 ratio 148 needs 250\n",
    ),
    (
        "why 0 --json",
        "{\"identity\":0,\"list\":\"one-port\",\"reasons\":[{\"at\":0,\"ports\":1,\"rule\":\"listed\",\"sfn\":0}]}\n",
    ),
    (
        "why 3 --json",
        "{\"identity\":3,\"list\":\"one-port\",\"reasons\":[{\"hit\":832,\"identity\":0,\"own\":50306027046,\
\"ratio\":1000,\"rule\":\"other-identity\",\"score\":519218053738},{\"hit\":10432,\"identity\":0,\
\"own\":251076757801,\"ratio\":1000,\"rule\":\"other-identity\",\"score\":519209529351}]}\n",
    ),
    (
        "why 0 --ports 4 --json",
        "{\"identity\":0,\"list\":\"four-ports\",\"reasons\":[{\"at\":0,\"cost\":2,\"hit\":832,\"phase\":0,\
\"ports\":1,\"ratio\":1000,\"rule\":\"ports\",\"total\":30487},{\"at\":0,\"cost\":2,\"hit\":10432,\"phase\":0,\
\"ports\":1,\"ratio\":1000,\"rule\":\"ports\",\"total\":30487}]}\n",
    ),
];

#[test]
fn reasons_over_a_plain_cell(rt: HostRuntime) -> Result<(), Fail> {
    for (line, text) in OF_PLAIN {
        assert!(rt; plain_gives(rt.alloc(), line, text)?, "{line}");
    }
    Ok(())
}

#[test]
fn no_signal_is_in_zeros(rt: HostRuntime) -> Result<(), Fail> {
    let text = "why 5 one-port 1\nno-hit best 128 ratio 0 needs 250\n";
    assert!(rt; zeros_give(rt.alloc(), "why 5", text)?);
    Ok(())
}

#[test]
fn faults_of_reasons(rt: HostRuntime) -> Result<(), Fail> {
    assert!(rt; is_broken_off(rt.alloc(), "why 5", b"why")?);
    Ok(())
}
