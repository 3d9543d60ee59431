ghost use Rattle.std.specs.Prelude.{◌≡◌};
ghost use Rattle.std.specs.Process.{exit_status};
ghost use Rattle.commands.specs.Endings.{status_of};

use std::process::{ExitCode, Termination};

// A command is done, or it has failed and has said why.
#[derive(Clone, Copy)]
pub enum Ending {
    Done,
    Failed,
}

// That a command ran, and how it ended. Only a command makes one: a `main` that returns it has called a command.
#[derive(Clone, Copy)]
pub struct Ran {
    ending: Ending,
}

impl Ran {
    pub(crate) fn new(ending: Ending) -> Ran
        ensures { result.ending ≡ ending }
    {
        Ran { ending }
    }

    // The status that the process ends with.
    pub fn status(self) -> u8
        ensures { result ≡ status_of self.ending }
    {
        match self.ending {
            Ending::Done => 0,
            Ending::Failed => 1,
        }
    }
}

impl Termination for Ran {
    fn report<R: Eprint>(self, _rt: &R) -> ExitCode
        ensures { exit_status result ≡ status_of self.ending }
    {
        ExitCode::from(self.status())
    }
}
