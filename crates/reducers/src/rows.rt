ghost use Rattle.std.specs.Prelude.{◌≡◌, ℕ, max, length, slice_index, slice_set};
ghost use Rattle.reducers.specs.Rows.{stamp_in, noted_in};

use crate::interface::AccessKind;
use std::array;

// A number for each source core.
#[derive(Clone, Copy, Default)]
pub(crate) struct Row {
    pub(crate) at: [u16; 4],
}

// The stamps of a cell: of its last write, and of each core's latest read.
#[derive(Clone, Copy, Default)]
pub(crate) struct Stamps {
    pub(crate) written: Row,
    pub(crate) read: [Row; 4],
}

impl Row {
    // The larger of the two, number by number.
    pub(crate) fn max(self, other: Row) -> Row
        ensures { (k : ℕ) → slice_index result.at k ≡ max (slice_index self.at k) (slice_index other.at k) }
    {
        Row {
            at: array::from_fn(|k| self.number(k).max(other.number(k))),
        }
    }

    // The row with `number` for core `i`.
    pub(crate) fn with(mut self, i: usize, number: u16) -> Row
        ensures { result.at ≡ slice_set self.at i number }
    {
        // the library's `get_mut` does not say what the array ends as
        if i < self.at.len() {
            self.at[i] = number;
        }
        self
    }

    // The number for core `i`.
    pub(crate) fn number(&self, i: usize) -> u16
        ensures { result ≡ slice_index self.now.at i }
    {
        self.at.get(i).copied().unwrap_or(0)
    }
}

impl Stamps {
    // The stamp of an access of core `i`.
    pub(crate) fn stamp(&self, i: usize, kind: AccessKind) -> Row
        ensures { (k : ℕ) → slice_index result.at k ≡ slice_index (stamp_in self.now i kind).at k }
    {
        match kind {
            AccessKind::Write => self.written,
            AccessKind::Read => self.read.get(i).copied().unwrap_or_default(),
        }
    }

    // Notes an access of core `j`, which knows `row`.
    pub(crate) fn note(&mut self, j: usize, kind: AccessKind, row: Row)
        ensures noted { self.new ≡ noted_in self.old j kind row }
        ensures four { length self.new.read ≡ 4 }
    {
        match kind {
            AccessKind::Write => self.written = row,
            AccessKind::Read => {
                // as in `with`
                if j < self.read.len() {
                    self.read[j] = row;
                }
            }
        }
    }
}
