ghost use Rattle.std.specs.Prelude.{◌≡◌, Some};
ghost use Rattle.records.specs.Format.{entry};
ghost use Rattle.listing.specs.Lines.{ending, record_text};
ghost use Rattle.listing.specs.Listing.{verdict_text};

use crate::faults::FaultLine;
use records::faults::Refusal;
use records::format::{Arc, Record, Source};
use records::settings::Heading;
use std::fmt;

// A noun's ending behind a number.
fn ending(n: u16) -> &'static str
    ensures { result.now ≡ ending n }
{
    if n == 1 { "" } else { "s" }
}

// A record of a core's log, and its offset there.
#[derive(Clone, Copy)]
pub(crate) struct RecordLine {
    pub(crate) core: usize,
    pub(crate) offset: usize,
    pub(crate) record: Record,
}

impl fmt::Display for RecordLine {
    ghost output = { λ x. Some (record_text x.core x.offset (entry x.«record»)) };

    fn fmt<W: fmt::Write>(&self, f: &mut fmt::Formatter<W>) -> fmt::Result {
        let here = self.core;
        let at = self.offset;
        match self.record {
            Record::Head(Heading { core, cores, cells }) => {
                let s = ending(cells);
                write!(f, "  {at} head core {core} of {cores}, {cells} cell{s}")
            }
            Record::Arc(
                Arc {
                    source: Source { core, count },
                    target,
                },
            ) => write!(f, "  {at} arc from {core}:{count} to {here}:{target}"),
            Record::End { instructions, arcs } => {
                let s = ending(instructions);
                let t = ending(arcs);
                write!(f, "  {at} end {instructions} instruction{s}, {arcs} arc{t}")
            }
        }
    }
}

// Whether a session is accepted, by what reading its logs answered.
#[derive(Clone, Copy)]
pub(crate) struct VerdictLine {
    pub(crate) verdict: Result<[u16; 4], Refusal>,
}

impl fmt::Display for VerdictLine {
    ghost output = { λ x. Some (verdict_text x.verdict) };

    #[tactic(auto, unfolding(crate::specs::Listing::bad_words))]
    fn fmt<W: fmt::Write>(&self, f: &mut fmt::Formatter<W>) -> fmt::Result {
        match self.verdict {
            Ok(_) => write!(f, "accepted"),
            Err(Refusal::BadSetting) => write!(
                f,
                "refused: bad setting: cores 1 to 4, cells 1 to 256, log bytes 12 to 16384, and a store of at least cores x log bytes"
            ),
            Err(Refusal::LogFault(found)) => {
                let line = FaultLine { found };
                write!(f, "refused: {line}")
            }
        }
    }
}
