// How a program ends.
ghost use Rattle.std.specs.Prelude.{◌≡◌, is_ok, if◌then◌else◌};

use std::process::ExitCode;

// The status of a program that is done: 0 where all went well, else 1, whatever went wrong.
pub fn status<E: Drop>(done: Result<(), E>) -> ExitCode
    ensures { result ≡ (if is_ok done then ExitCode.SUCCESS else ExitCode.FAILURE) }
{
    match done {
        Ok(()) => ExitCode::SUCCESS,
        Err(_) => ExitCode::FAILURE,
    }
}
