ghost use Rattle.std.specs.Prelude.{◌≡◌, ◌<◌, ◌≤◌};
ghost use Rattle.replayer.specs.Answers.{step_refusal_from};
ghost use Rattle.replayer.specs.declared.answers.Ended.TheVariants.{Finished, Stopped};

use cores::interface::Request;
use records::faults::{Refusal, SessionFault};
use records::format::Source;

// An instruction that was carried out: its request, its count, and the number that it brought.
#[derive(Clone, Copy, PartialEq, Eq, Debug)]
pub struct Done {
    pub request: Request,
    pub count: u16,
    pub number: u16,
}

// Why a step is refused, or waits: 1 no such core, 2 halted, 4 no such cell, 6 waits, 7 replayed, 8 bad setting, 9 log fault.
#[derive(Clone, Copy, PartialEq, Eq, Debug)]
pub enum StepRefusal {
    NoSuchCore,
    Halted,
    NoSuchCell,
    Waits(Source),
    Replayed,
    BadSetting,
    LogFault(SessionFault),
}

impl From<Refusal> for StepRefusal {
    ghost from_gives = { λ e r. r ≡ step_refusal_from e };

    fn from(e: Refusal) -> StepRefusal {
        match e {
            Refusal::BadSetting => StepRefusal::BadSetting,
            Refusal::LogFault(fault) => StepRefusal::LogFault(fault),
        }
    }
}

// How a run ended, with the steps that it carried out.
#[derive(Clone, Copy, PartialEq, Eq, Debug)]
pub enum Ended {
    Finished(u32),
    Stopped(u32),
}

impl Ended {
    // How a run ends that carried out so many steps of as many as were left.
    pub(crate) fn of(steps: u32, left: u32) -> Ended
        ensures stopped { steps < left → result ≡ Stopped steps }
        ensures finished { left ≤ steps → result ≡ Finished steps }
    {
        if steps < left {
            Ended::Stopped(steps)
        } else {
            Ended::Finished(steps)
        }
    }
}
