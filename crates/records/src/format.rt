ghost use Rattle.std.specs.Prelude.{◌≡◌, length};
ghost use Rattle.records.specs.Format.{head, arc as arc_entry, end, entry, bytes_of};
ghost use Rattle.records.specs.Reading.{entry_at, read_as};

use crate::faults::{ByteFault, Location};
use crate::settings::Heading;

// Instruction `count` of core `core`, which an arc comes from.
#[derive(Clone, Copy, PartialEq, Eq, Debug)]
pub struct Source {
    pub core: u8,
    pub count: u16,
}

// An arc in the log of its target core: from the source to this core's instruction `target`.
#[derive(Clone, Copy, PartialEq, Eq, Debug)]
pub struct Arc {
    pub source: Source,
    pub target: u16,
}

// How many bytes an end record takes.
pub const END_SIZE: usize = 6;

// One record of a log.
#[derive(Clone, Copy, PartialEq, Eq, Debug)]
pub enum Record {
    Head(Heading),
    Arc(Arc),
    End { instructions: u16, arcs: u16 },
}

impl Record {
    // How many bytes it takes.
    #[inline(always)]
    pub(crate) fn size(self) -> usize
        ensures { result ≡ length (bytes_of (entry self)) }
    {
        match self {
            Record::Head(_) => 6,
            Record::Arc(_) => 7,
            Record::End { .. } => END_SIZE,
        }
    }
}

impl Heading {
    #[inline(always)]
    pub(crate) fn bytes(self) -> [u8; 6]
        ensures { result ≡ bytes_of (head self.core self.cores self.cells) }
    {
        let [high, low] = self.cells.to_be_bytes();
        [0x48, 0x43, self.core, self.cores, high, low]
    }
}

impl Arc {
    #[inline(always)]
    pub(crate) fn bytes(self) -> [u8; 7]
        ensures { result ≡ bytes_of (arc_entry (record { source = self.source.core; count = self.source.count; target = self.target })) }
    {
        let [a, b] = self.source.count.to_be_bytes();
        let [c, d] = self.target.to_be_bytes();
        [0x41, 0x52, self.source.core, a, b, c, d]
    }
}

#[inline(always)]
pub(crate) fn end_bytes(instructions: u16, arcs: u16) -> [u8; 6]
    ensures { result ≡ bytes_of (end instructions arcs) }
{
    let [a, b] = instructions.to_be_bytes();
    let [c, d] = arcs.to_be_bytes();
    [0x45, 0x44, a, b, c, d]
}

// The record at the front of `rest`, which is what is left of a log.
#[inline(always)]
pub(crate) fn read_record(rest: &[u8], at: Location) -> Result<Record, ByteFault>
    ensures { read_as result ≡ entry_at at.core at.offset rest.now }
{
    match rest {
        [0x48, 0x43, core, cores, high, low, ..] => Ok(Record::Head(Heading {
            core: *core,
            cores: *cores,
            cells: u16::from_be_bytes([*high, *low]),
        })),
        [0x41, 0x52, core, a, b, c, d, ..] => Ok(Record::Arc(Arc {
            source: Source {
                core: *core,
                count: u16::from_be_bytes([*a, *b]),
            },
            target: u16::from_be_bytes([*c, *d]),
        })),
        [0x45, 0x44, a, b, c, d, ..] => Ok(Record::End {
            instructions: u16::from_be_bytes([*a, *b]),
            arcs: u16::from_be_bytes([*c, *d]),
        }),
        [] | [_] | [0x48, 0x43, ..] | [0x41, 0x52, ..] | [0x45, 0x44, ..] => Err(ByteFault::Cut(
            at,
        )),
        _ => Err(ByteFault::Mark(at)),
    }
}
