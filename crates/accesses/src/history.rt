ghost use Rattle.std.specs.Prelude.{◌≡◌, replicate};
ghost use Rattle.reducers.specs.declared.interface.AccessKind.TheVariants.{Write};
ghost use Rattle.accesses.specs.Histories.{untouched, remembered, remembering, from_core, candidates_of, candidates_at, other as other_than, position_of, latest_first};

use crate::access::{Access, Candidate};
use records::format::Source;
use reducers::interface::AccessKind;

// The last write of a cell, and each core's latest read since.
#[derive(Clone, Copy, Default)]
pub struct CellHistory {
    last_write: Option<Access>,
    reads: [Option<Access>; 4],
}

impl CellHistory {
    // A write forgets the reads before it; a read takes the place of the same core's.
    fn remember(&mut self, access: Access, kind: AccessKind)
        ensures { self.new ≡ remembered self.old access kind }
    {
        match kind {
            AccessKind::Write => {
                self.last_write = Some(access);
                self.reads = [None; 4];
            }
            AccessKind::Read => {
                let i = usize::from(access.core);
                // the library's `get_mut` does not say what the array ends as
                if i < self.reads.len() {
                    self.reads[i] = Some(access);
                }
            }
        }
    }

    // What core `i` of the session's `cores` did last to the cell.
    fn from_core(&self, cores: usize, i: usize) -> Option<Candidate>
        ensures { result ≡ from_core cores self.now i }
    {
        if i >= cores {
            return None;
        }
        if let Some(Some(read)) = self.reads.get(i) {
            return Some(read.candidate(AccessKind::Read));
        }
        match self.last_write {
            Some(
                Access {
                    core,
                    count,
                    position,
                },
            ) if usize::from(core) == i => Some(Candidate {
                source: Source { core, count },
                kind: AccessKind::Write,
                position,
            }),
            _ => None,
        }
    }

    // What each other core did last to the cell: latest position first, then none.
    #[inline(never)]
    fn of_others(&self, cores: usize, j: usize) -> [Option<Candidate>; 3]
        ensures { result ≡ candidates_of cores self.now j Write }
    {
        sorted([0, 1, 2].map(|k| self.from_core(cores, other(j, k))))
    }

    #[inline(always)]
    fn candidates(&self, cores: usize, j: usize, kind: AccessKind) -> [Option<Candidate>; 3]
        ensures { result ≡ candidates_of cores self.now j kind }
    {
        match kind {
            AccessKind::Read => {
                let write = match self.last_write {
                    Some(
                        Access {
                            core,
                            count,
                            position,
                        },
                    ) if usize::from(core) != j && usize::from(core) < cores => Some(Candidate {
                        source: Source { core, count },
                        kind: AccessKind::Write,
                        position,
                    }),
                    _ => None,
                };
                [write, None, None]
            }
            AccessKind::Write => self.of_others(cores, j),
        }
    }
}

// The `k`-th of the cores other than `j`.
fn other(j: usize, k: u8) -> usize
    ensures { result ≡ other_than j k }
{
    let k = usize::from(k);
    if k < j { k } else { k + 1 }
}

// No turn has position 0.
fn position(candidate: Option<Candidate>) -> u32
    ensures { result ≡ position_of candidate }
{
    candidate.map_or(0, |c| c.position)
}

// Latest position first.
fn sorted(candidates: [Option<Candidate>; 3]) -> [Option<Candidate>; 3]
    ensures { result ≡ latest_first candidates }
{
    let [a, b, c] = candidates;
    let (p, q) = if position(b) >= position(c) {
        (b, c)
    } else {
        (c, b)
    };
    if position(a) >= position(p) {
        [a, p, q]
    } else if position(a) >= position(q) {
        [p, a, q]
    } else {
        [p, q, a]
    }
}

// What is remembered of every cell.
#[derive(Drop)]
pub struct History {
    cells: [CellHistory; 256],
}

impl History {
    pub fn new() -> History
        ensures { result.cells ≡ replicate 256 untouched }
    {
        History {
            cells: [CellHistory::default(); 256],
        }
    }

    // Forgets every access.
    pub fn forget(&mut self)
        ensures { self.new.cells ≡ replicate 256 untouched }
    {
        *self = History::new();
    }

    // Remembers an access; one of a core from 4 or to a cell from 256 on changes nothing.
    pub fn remember(&mut self, cell: usize, access: Access, kind: AccessKind)
        ensures { self.new.cells ≡ remembering self.old.cells cell access kind }
    {
        if access.core < 4 && cell < 256 {
            self.cells[cell].remember(access, kind);
        }
    }

    // The candidates of an access of core `j`, in a session of so many cores: latest position first, then none.
    #[inline(always)]
    pub fn candidates(
        &self,
        cores: usize,
        cell: usize,
        j: usize,
        kind: AccessKind,
    ) -> [Option<Candidate>; 3]
        ensures { result ≡ candidates_at cores self.now.cells cell j kind }
    {
        if j < 4 && cell < 256 {
            self.cells[cell].candidates(cores, j, kind)
        } else {
            [None; 3]
        }
    }
}
