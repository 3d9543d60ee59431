ghost use Rattle.recorder.specs.Sound.{Sound};

use records::settings::CheckedSizes;

// One core's log: how many instructions and arcs it tells of, and the offset of its end record.
#[derive(Clone, Copy)]
pub struct Log {
    pub instructions: u16,
    pub arcs: u16,
    pub end: usize,
}

impl Log {
    // No records but head and end.
    pub(crate) const EMPTY: Log = Log {
        instructions: 0,
        arcs: 0,
        end: 6,
    };
}

// The sizes of the session, each core's log, and how many turns were accepted.
#[derive(Clone, Copy)]
pub struct Ledger {
    pub(crate) sizes: CheckedSizes,
    pub(crate) logs: [Log; 4],
    pub(crate) position: u32,
    ghost sound: { Sound sizes logs position },
}
