ghost use Rattle.std.specs.Prelude.{◌≡◌, ℕ, ◌&&◌, if◌then◌else◌, nat_eq, slice_index, slice_index_or};
ghost use Rattle.reducers.specs.Numbers.{zeros, core?};
ghost use Rattle.reducers.specs.Rows.{no_stamps, stamp_in, exact_numbers};
ghost use borrow.Author.Rules.{of_blocks};

use crate::interface::{AccessKind, Reducer, in_range};
use crate::known::Known;
use crate::rows::{Row, Stamps};
use records::format::Source;

// Knows all that follows from the arcs taken, by the stamp of each arc's source.
#[derive(Drop)]
pub struct Exact {
    known: Known,
    cells: [Stamps; 256],
}

impl Exact {
    pub fn new() -> Exact
        ensures { exact_numbers result ≡ zeros }
    {
        Exact {
            known: Known::new(),
            cells: [Stamps::default(); 256],
        }
    }

    // The stamp of an access of core `i` to the cell.
    fn stamp(&self, i: usize, cell: usize, kind: AccessKind) -> Row
        ensures { (k : ℕ) → slice_index result.at k ≡ slice_index (stamp_in (slice_index_or self.now.cells cell no_stamps) i kind).at k }
    {
        match self.cells.get(cell) {
            Some(stamps) => stamps.stamp(i, kind),
            None => Row::default(),
        }
    }

    // What an arc from the source tells: the source's count, and for each other core the source's stamp.
    fn told_by(&self, source: Source, cell: usize, kind: AccessKind) -> Row
        ensures { (k : ℕ) → slice_index result.at k ≡ (if core? source.core && nat_eq k source.core then source.count else slice_index (stamp_in (slice_index_or self.now.cells cell no_stamps) source.core kind).at k) }
    {
        let i = usize::from(source.core);
        let stamp = self.stamp(i, cell, kind);
        stamp.with(i, source.count)
    }
}

impl Reducer for Exact {
    ghost numbers = { exact_numbers };

    ghost meets = { ◌≡◌ };

    ghost bounded = { Prim.search of_blocks };

    fn reset(&mut self) {
        *self = Exact::new();
    }

    fn question(&self, source: Source, j: usize) -> bool {
        self.known.knows(source, j)
    }

    fn take(&mut self, source: Source, cell: usize, kind: AccessKind, j: usize) {
        if in_range(source, j, cell) {
            let told = self.told_by(source, cell, kind);
            let row = self.known.row(j).max(told);
            self.known.set(j, row);
        }
    }

    fn note(&mut self, j: usize, cell: usize, kind: AccessKind) {
        if j < 4 && cell < 256 {
            let row = self.known.row(j);
            self.cells[cell].note(j, kind, row);
        }
    }
}
