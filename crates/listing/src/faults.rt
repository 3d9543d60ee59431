ghost use Rattle.std.specs.Prelude.{◌≡◌, Some};
ghost use Rattle.records.specs.Faults.{fault, session_fault};
ghost use Rattle.listing.specs.Faults.{cause_words, fault_text};

use records::faults::{ByteFault, Location, RecordFault, SessionFault};
use std::fmt;

// A fault by its numbers (the layer, where it is, the cause), and what the cause says.
#[tactic(auto, unfolding(crate::specs::Faults::cause_words))]
fn parts_of(found: SessionFault) -> (u8, Location, u8, &'static str)
    ensures numbers { fault result.0 result.1 result.2 ≡ session_fault found }
    ensures words { result.3.now ≡ cause_words (session_fault found).cause }
{
    match found {
        SessionFault::Read(RecordFault::Bytes(ByteFault::Cut(at))) => (
            1,
            at,
            1,
            "the record or its mark is cut by the end of the log",
        ),
        SessionFault::Read(RecordFault::Bytes(ByteFault::Mark(at))) => (
            1,
            at,
            2,
            "the mark is not that of a head, an arc or an end",
        ),
        SessionFault::Read(RecordFault::BadHead(at)) => (
            2,
            at,
            3,
            "the first record is not this log's head, or a head comes later",
        ),
        SessionFault::Read(RecordFault::BadArc(at)) => (
            2,
            at,
            4,
            "the arc has a source core that is this core or not of the session, a count of 0, a target below the one before, or the same target and source core twice",
        ),
        SessionFault::Read(RecordFault::BadEnd(at)) => (
            2,
            at,
            5,
            "the end gives another number of arcs, or fewer instructions than the last target",
        ),
        SessionFault::Source(at) => (
            3,
            at,
            6,
            "the source count is above the instructions of the source core",
        ),
    }
}

// A fault as it is told: its numbers, then what its cause says.
#[derive(Clone, Copy)]
pub(crate) struct FaultLine {
    pub(crate) found: SessionFault,
}

impl fmt::Display for FaultLine {
    ghost output = { λ x. Some (fault_text (session_fault x.found)) };

    fn fmt<W: fmt::Write>(&self, f: &mut fmt::Formatter<W>) -> fmt::Result {
        let (layer, at, cause, words) = parts_of(self.found);
        let Location { core, offset } = at;
        write!(
            f,
            "layer {layer} fault in the log of core {core} at offset {offset}, cause {cause}: {words}"
        )
    }
}
