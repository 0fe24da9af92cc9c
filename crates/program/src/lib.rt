// How the programs of the draw end: a status, and a line on the error output of what went wrong.
#![tactic(auto)]

ghost use Rattle.std.specs.Prelude.{◌≡◌};
ghost use Rattle.std.specs.Process.{exit_status};
ghost use Rattle.program.specs.Status.{status_of};

use std::process::ExitCode;

// The status of a program that ended so. An error is told on the error output, after the program's name; no clause can say
// what is printed, and where it cannot be printed the status tells it.
pub fn finish(rt: &HostRuntime, name: &str, ended: anyhow::Result<ExitCode>) -> ExitCode
    ensures { exit_status result ≡ status_of ended }
{
    match ended {
        Ok(status) => status,
        Err(e) => {
            let _ = eprintln!(rt; "{name}: {e:#}");
            ExitCode::FAILURE
        }
    }
}
