//! The exit statuses of faults, and the exit code of a status. 0 and 1 are those of a run that came
//! to its end.

ghost use Rattle.std.specs.Prelude.{◌≡◌};
ghost use Rattle.std.specs.Process.{exit_status};

use std::process::ExitCode;

/// The command line is wrong, or asks for what can't be.
pub const USAGE: u8 = 2;

/// A read, a write or a flush failed, or too many of them were made.
pub const STREAM_FAULT: u8 = 3;

/// Memory ran out.
pub const OUT_OF_MEMORY: u8 = 4;

/// The input is faulty.
pub const BAD_INPUT: u8 = 5;

/// Returns the code with which the process ends.
pub fn exit_code(status: u8) -> ExitCode
    ensures { exit_status result ≡ status }
{
    ExitCode::from(status)
}
