//! The commands on 8-bit recordings.

use crate::{gives, output_of};
use lte_top::Status;
use std::alloc::{AllocError, Global};
use std::test::Fail;

/// Returns `count` bytes of value 127, each an 8-bit component that stands for -1.
pub(crate) fn quiet(alloc: Global, count: usize) -> Result<Vec<u8>, AllocError> {
    vec![in alloc; 127u8; count]
}

#[test]
fn each_report_reads_8_bit_numbers(rt: HostRuntime) -> Result<(), Fail> {
    for (line, output) in [
        ("hits --format cu8", "hits 0\n"),
        ("ids --format cu8", "ids 0\n"),
        ("search --format cu8", "cells 0\n"),
        ("search --json --format cu8", "[]\n"),
        ("evidence --format cu8", "evidence 0\n"),
        ("hits --json --format cu8", "[]\n"),
        ("ids --json --format cu8", "[]\n"),
        ("ids --deep --format cu8", "deep 0 of 5\n"),
        ("evidence --json --format cu8", "[]\n"),
        ("search --ports 2 --format cu8", "cells 0\n"),
        ("search --ports 2 --json --format cu8", "[]\n"),
        ("search --ports 4 --format cu8", "cells 0\n"),
        ("search --ports 4 --json --format cu8", "[]\n"),
        ("search --prefix long --format cu8", "cells 0\n"),
        ("search --prefix long --json --format cu8", "[]\n"),
        ("search --cancel --format cu8", "cells 0\ncancelled none\n"),
        (
            "search --cancel --json --format cu8",
            "{\"cells\":[],\"ended\":true,\"rounds\":[]}\n",
        ),
        (
            "search --all --format cu8",
            "rule one-port\ncells 0\nrule two-ports\ncells 0\nrule long-prefix\ncells 0\nrule four-ports\ncells 0\n",
        ),
        ("search --all --json --format cu8", "[]\n"),
        (
            "evidence --all --format cu8",
            "rule one-port\nevidence 0\nrule two-ports\nevidence 0\nrule long-prefix\nevidence 0\nrule four-ports\nevidence 0\n",
        ),
        ("evidence --all --json --format cu8", "[]\n"),
        ("certify --format cu8", ""),
    ] {
        let bytes = quiet(rt.alloc(), 115_200)?;
        assert!(rt; gives(rt.alloc(), line, bytes, output)?, "{line}");
    }
    Ok(())
}

#[test]
fn lengths_of_8_bit_recordings(rt: HostRuntime) -> Result<(), Fail> {
    for (count, refusal) in [
        (0, Status::TooShort),
        (115_198, Status::TooShort),
        (115_199, Status::Ragged),
        (115_201, Status::Ragged),
        (3_840_000, Status::Done),
        (3_840_001, Status::TooLong),
    ] {
        let output = output_of(rt.alloc(), "search --format cu8", quiet(rt.alloc(), count)?)?;
        assert!(rt; output.status == refusal, "{count} bytes");
    }
    Ok(())
}
