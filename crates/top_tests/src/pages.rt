//! The help and version pages, word for word.

use crate::{command_line, output_unread};
use lte_top::{Program, Status};
use std::alloc::{AllocError, Global};
use std::test::Fail;

const HELP_OF_THE_RECEIVER: &str =
    "usage: lte_cli COMMAND [OPTION].. < INPUT > OUTPUT      (options in the order shown)

A recording is read from standard input: 30 ms to 1 s of raw I/Q samples, centred on the cell.
  hits [INPUT OPTION]..            PSS detections
  ids [INPUT OPTION]..             each PSS detection with its cell identity and frame start
  ids --deep [all] [INPUT OPTION]..
                                   cells detected over all half-frames of the first 170 ms
                                   (all: of the complete recording, without --rate)
  search [LIST] [INPUT OPTION]..   the cell list, with MIB and SIB1
  evidence [LIST] [INPUT OPTION]..
                                   measurements that support each listed cell
  why PCI [LIST] [INPUT OPTION]..  why a cell is listed, or the first rule that it fails
  certify [LIST] [INPUT OPTION]..  a certificate for the MIB of each listed cell

LIST: which cells are listed (default: one antenna port, normal cyclic prefix)
  --ports 2 | --ports 4            two or four antenna ports
  --prefix long                    extended cyclic prefix
  --all                            all four lists (search, evidence)
  --cancel                         the list, and a new list after each cancelled cell (search)

INPUT OPTION, in this order
  --json                           one line of JSON instead of text (not certify)
  --format cu8                     8-bit I/Q as rtl_sdr writes it (default: signed 16-bit, low byte first)
  --rate R                         R million samples per second: 1.92, 3.84, 7.68, 15.36 or 30.72
                                   (default: 1.92); only the first 170 ms are then used, and search reads
                                   SIB1 at any bandwidth, also at 1.92 (except with --cancel)

Without a recording
  check                            whether each certificate on standard input is accepted
  transmit [--ports 2 | --ports 4 | --prefix long] [--load N]
                                   the samples of the cell described in JSON on standard input
                                   (--load N: with traffic number N)
  make N [--ports 2 | --ports 4 | --prefix long]
                                   the list of synthetic recording number N
  help, --help, -h                 this page
  version, --version, -V           versions of the program and of its definition

Exit code: 0 if the input was read and the output written, also without a cell; else 2 to 10.
Example: lte_cli search --json --format cu8 < recording.cu8
";

const HELP_OF_THE_TUNER: &str =
    "usage: lte_tune COMMAND [OPTION].. < INPUT > OUTPUT      (options in the order shown)

A recording is read from standard input: 30 ms to 1 s of raw I/Q samples, centred on the cell.
  tell [--json] [--format cu8] [--rate R]
                                   the frequency offset, in steps of 117.1875 Hz
  apply [M] [--format cu8] [--rate R]
                                   the recording in 16-bit I/Q with its offset corrected: the estimated
                                   offset, or M steps of 117.1875 Hz (-2048 to 2047)

INPUT OPTION, in this order
  --json                           one line of JSON instead of text (tell)
  --format cu8                     8-bit I/Q as rtl_sdr writes it (default: signed 16-bit, low byte first)
  --rate R                         R million samples per second: 1.92, 3.84, 7.68, 15.36 or 30.72
                                   (default: 1.92); tell then uses only the first 170 ms

Without a recording
  help, --help, -h                 this page
  version, --version, -V           versions of the program and of its definition

Exit code: 0 if the input was read and the output written; else 2 to 8.
Example: lte_tune apply --format cu8 < recording.cu8 | lte_cli search
";

// Returns whether each command in `lines` reads nothing, ends with `Done`, and writes exactly `text`.
fn print(alloc: Global, program: Program, lines: &[&str], text: &str) -> Result<bool, AllocError> {
    for line in lines {
        let (output, unread) = output_unread(alloc, program, &command_line(alloc, line)?)?;
        if !unread || !output.is(Status::Done, text.as_bytes()) {
            return Ok(false);
        }
    }
    Ok(true)
}

#[test]
fn each_program_has_its_pages(rt: HostRuntime) -> Result<(), Fail> {
    for (program, help, version) in [
        (
            Program::Receiver,
            HELP_OF_THE_RECEIVER,
            "lte_cli 0.9.0\ndefinition 2\n",
        ),
        (
            Program::Tuner,
            HELP_OF_THE_TUNER,
            "lte_tune 0.9.0\ndefinition 2\n",
        ),
    ] {
        assert!(rt; print(rt.alloc(), program, &["help", "--help", "-h"], help)?);
        assert!(rt;
            print(
                rt.alloc(),
                program,
                &["version", "--version", "-V"],
                version
            )?
        );
    }
    Ok(())
}
