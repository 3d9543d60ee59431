// Each answer as one number, and the checksum over them.
ghost use Rattle.std.specs.Prelude.{◌≡◌, []};
ghost use Rattle.logs.specs.Session.{done_as};
ghost use Rattle.records.specs.Faults.{fault, session_fault, log_fault, refusal as refusal_numbers};
ghost use Rattle.recorder.specs.Refusals.{number_of};
ghost use Rattle.recorder.specs.Turns.{begun_said, said};
ghost use Rattle.replayer.specs.Answers.{step_refusal, step_numbers, run_numbers};
ghost use Rattle.exports.specs.Answers.{extended, packed, mixed, begin_number, turn_number, opening_number, step_number, run_number};

use recorder::recording::Recorded;
use recorder::rules::Refusal;
use records::faults::{ByteFault, Location, RecordFault, Refusal as LogRefusal, SessionFault};
use replayer::answers::{Done, Ended, StepRefusal};

// The base of the digits of an answer: one digit takes a count, an offset or a number in a cell.
const DIGIT: u64 = 65536;

// The base of a run's digits: one takes the steps of all cores.
const RUN_DIGIT: u64 = 4294967296;

// One more digit behind a number; what no longer fits goes.
fn extend(base: u64, sum: u64, digit: u64) -> u64
    ensures { result ≡ extended base sum digit }
{
    base.wrapping_mul(sum).wrapping_add(digit)
}

// The checksum with one more answer.
pub(crate) fn mix(sum: u64, number: u64) -> u64
    ensures { result ≡ mixed sum number }
{
    extend(31, sum, number)
}

fn refusal_number(refusal: Refusal) -> u64
    ensures { result ≡ number_of refusal }
{
    match refusal {
        Refusal::NoSuchCore => 1,
        Refusal::Halted => 2,
        Refusal::CountSpent => 3,
        Refusal::NoSuchCell => 4,
        Refusal::LogFull => 5,
        Refusal::BadSetting => 8,
    }
}

// A begin: 0, or its refusal.
pub(crate) fn begin_number(answer: Result<(), Refusal>) -> u64
    ensures { result ≡ begin_number (begun_said answer) }
{
    match answer {
        Ok(()) => 0,
        Err(refusal) => refusal_number(refusal),
    }
}

// A turn: its count, the number brought and the arcs, or its refusal.
pub(crate) fn turn_number(answer: Result<Recorded, Refusal>) -> u64
    ensures { result ≡ turn_number (said answer) }
{
    match answer {
        Ok(done) => {
            let count = extend(DIGIT, 0, u64::from(done.count));
            extend(
                DIGIT,
                extend(DIGIT, count, u64::from(done.number)),
                u64::from(done.arcs),
            )
        }
        Err(refusal) => refusal_number(refusal),
    }
}

// A fault: its layer, core, offset and cause.
fn fault_number(layer: u64, at: Location, cause: u64) -> u64
    ensures { result ≡ packed 65536 (log_fault (fault layer at cause)) }
{
    let core = extend(DIGIT, extend(DIGIT, 9, layer), u64::from(at.core));
    extend(DIGIT, extend(DIGIT, core, at.offset as u64), cause)
}

fn session_fault_number(fault: SessionFault) -> u64
    ensures { result ≡ packed 65536 (log_fault (session_fault fault)) }
{
    match fault {
        SessionFault::Read(RecordFault::Bytes(ByteFault::Cut(at))) => fault_number(1, at, 1),
        SessionFault::Read(RecordFault::Bytes(ByteFault::Mark(at))) => fault_number(1, at, 2),
        SessionFault::Read(RecordFault::BadHead(at)) => fault_number(2, at, 3),
        SessionFault::Read(RecordFault::BadArc(at)) => fault_number(2, at, 4),
        SessionFault::Read(RecordFault::BadEnd(at)) => fault_number(2, at, 5),
        SessionFault::Source(at) => fault_number(3, at, 6),
    }
}

fn log_refusal_number(refusal: LogRefusal) -> u64
    ensures { result ≡ packed 65536 (refusal_numbers refusal) }
{
    match refusal {
        LogRefusal::BadSetting => 8,
        LogRefusal::LogFault(fault) => session_fault_number(fault),
    }
}

// An opening: 0, or its refusal with the fault.
pub(crate) fn opening_number(answer: Result<(), LogRefusal>) -> u64
    ensures { result ≡ opening_number (done_as answer) }
{
    match answer {
        Ok(()) => 0,
        Err(refusal) => log_refusal_number(refusal),
    }
}

fn step_refusal_number(refusal: StepRefusal) -> u64
    ensures { result ≡ packed 65536 (step_refusal refusal) }
{
    match refusal {
        StepRefusal::NoSuchCore => 1,
        StepRefusal::Halted => 2,
        StepRefusal::NoSuchCell => 4,
        StepRefusal::Waits(source) => {
            let core = extend(DIGIT, 6, u64::from(source.core));
            extend(DIGIT, core, u64::from(source.count))
        }
        StepRefusal::Replayed => 7,
        StepRefusal::BadSetting => 8,
        StepRefusal::LogFault(fault) => session_fault_number(fault),
    }
}

// A step: its count and the number brought, or its refusal with its values.
pub(crate) fn step_number(answer: Result<Done, StepRefusal>) -> u64
    ensures { result ≡ step_number (step_numbers answer) }
{
    match answer {
        Ok(done) => {
            let count = extend(DIGIT, 0, u64::from(done.count));
            extend(DIGIT, count, u64::from(done.number))
        }
        Err(refusal) => step_refusal_number(refusal),
    }
}

// How a run ended, with the steps that it carried out, or its refusal.
pub(crate) fn run_number(answer: Result<Ended, LogRefusal>) -> u64
    ensures { result ≡ run_number (run_numbers answer) }
{
    match answer {
        Ok(Ended::Finished(steps)) => u64::from(steps),
        Ok(Ended::Stopped(steps)) => extend(RUN_DIGIT, 1, u64::from(steps)),
        Err(refusal) => log_refusal_number(refusal),
    }
}
