//! How a run ends.

ghost use Rattle.std.specs.Prelude.{◌≡◌, Some};
ghost use Rattle.lte_top.specs.Answers.{code_of, text_of};
ghost use Rattle.lte_top.specs.Errors.{of_read, of_file, of_json, of_stream};
ghost use Rattle.lte_top.specs.declared.status.Status.TheVariants.{OutOfMemory};

use cell_json::JsonError;
use cell_plan::CellError;
use certificates::StreamError;
use cs_outside::ReadError;
use sample_file::FileError;
use std::alloc::AllocError;
use std::fmt;

/// How a run ended: `Done`, a refusal of the arguments or the input, a fault, or a failed allocation.
#[derive(Clone, Copy, Debug, PartialEq, Eq)]
pub enum Status {
    /// The input was read to its end, and the complete output was written.
    Done,
    /// The arguments select no command form.
    Usage,
    /// The recording ends within a sample.
    Ragged,
    /// The recording has fewer than 57,600 samples.
    TooShort,
    /// The input is longer than its limit, and no byte within the limit was refused.
    TooLong,
    /// A read failed, and the source counted a fault.
    ReadFault,
    /// A write failed, and the sink counted a fault.
    WriteFault,
    /// An allocation failed.
    OutOfMemory,
    /// The description fails a condition: the first one in the order of `CellError`.
    BadCell(CellError),
    /// The input breaks the certificate format at a byte offset, which is the input's length if the input ends within a
    /// certificate.
    BadCertificate(u64),
}

impl Status {
    /// Returns the exit code: 0 for `Done`, and 2 to 10 for the other statuses in order of declaration.
    pub fn code(&self) -> u8
        ensures { result ≡ code_of self.now }
    {
        match self {
            Status::Done => 0,
            Status::Usage => 2,
            Status::Ragged => 3,
            Status::TooShort => 4,
            Status::TooLong => 5,
            Status::ReadFault => 6,
            Status::WriteFault => 7,
            Status::OutOfMemory => 8,
            Status::BadCell(_) => 9,
            Status::BadCertificate(_) => 10,
        }
    }
}

impl From<ReadError> for Status {
    ghost from_gives = { λ error status. status ≡ of_read error };

    fn from(error: ReadError) -> Status {
        match error {
            ReadError::TooLong => Status::TooLong,
            ReadError::ReadFault => Status::ReadFault,
            ReadError::OutOfMemory => Status::OutOfMemory,
        }
    }
}

impl From<FileError> for Status {
    ghost from_gives = { λ error status. status ≡ of_file error };

    fn from(error: FileError) -> Status {
        match error {
            FileError::Ragged => Status::Ragged,
            FileError::TooShort => Status::TooShort,
            FileError::TooLong => Status::TooLong,
            FileError::ReadFault => Status::ReadFault,
            FileError::OutOfMemory => Status::OutOfMemory,
        }
    }
}

impl From<JsonError> for Status {
    ghost from_gives = { λ error status. status ≡ of_json error };

    fn from(error: JsonError) -> Status {
        match error {
            JsonError::Cell(cause) => Status::BadCell(cause),
            JsonError::OutOfMemory => Status::OutOfMemory,
        }
    }
}

impl From<StreamError> for Status {
    ghost from_gives = { λ error status. status ≡ of_stream error };

    fn from(error: StreamError) -> Status {
        match error {
            StreamError::Broken(place) => Status::BadCertificate(place),
            StreamError::TooLong => Status::TooLong,
            StreamError::ReadFault => Status::ReadFault,
            StreamError::OutOfMemory => Status::OutOfMemory,
        }
    }
}

impl From<AllocError> for Status {
    ghost from_gives = { λ _ status. status ≡ OutOfMemory };

    fn from(_error: AllocError) -> Status {
        Status::OutOfMemory
    }
}

/// Writes the text that follows the program's name on standard error.
impl fmt::Display for Status {
    ghost output = { λ status. Some (text_of status) };

    fn fmt<W: fmt::Write>(&self, f: &mut fmt::Formatter<W>) -> fmt::Result {
        match self {
            Status::Done => f.write_str("done"),
            Status::Usage => f.write_str(
                "usage: no command has these arguments; a file is read from standard input (< FILE), \
                 and options have one order (see the command help); --rate takes 1.92, 3.84, 7.68, 15.36 or 30.72",
            ),
            Status::Ragged => f.write_str(
                "ragged: the input ends within a sample; check the format, or cut the last bytes",
            ),
            Status::TooShort => f.write_str(
                "too short: the recording has less than 30 ms (57,600 samples without --rate); record more",
            ),
            Status::TooLong => f.write_str(
                "too long: the input exceeds its limit; cut it, a recording to 1 s (1,920,000 samples without --rate)",
            ),
            Status::ReadFault => f.write_str(
                "read fault: standard input could not be read; check the file or the pipe",
            ),
            Status::WriteFault => f.write_str(
                "write fault: standard output could not be written, and what it has is incomplete",
            ),
            Status::OutOfMemory => f.write_str(
                "out of memory: an allocation failed; free memory and try again",
            ),
            Status::BadCell(cause) => write!(
                f,
                "bad cell: {cause}; see the descriptions in FORMATS"
            ),
            Status::BadCertificate(place) => write!(
                f,
                "bad certificate at byte {place}; the input is damaged, or no file of certificates"
            ),
        }
    }
}
