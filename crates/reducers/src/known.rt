ghost use Rattle.std.specs.Prelude.{◌≡◌, ℕ, ◌&&◌, nat_le, slice_index, slice_set};
ghost use Rattle.reducers.specs.Numbers.{core?};
ghost use Rattle.reducers.specs.Rows.{row};

use crate::rows::Row;
use records::format::Source;

// For each core, up to which instruction of each other core whatever it does next follows.
#[derive(Clone, Copy)]
pub(crate) struct Known {
    pub(crate) rows: [Row; 4],
}

impl Known {
    // Knows nothing.
    pub(crate) fn new() -> Known
        ensures { (j k : ℕ) → row result.rows j k ≡ 0 }
    {
        Known {
            rows: [Row::default(); 4],
        }
    }

    // Whether the source is known to core `j`.
    pub(crate) fn knows(&self, source: Source, j: usize) -> bool
        ensures { result ≡ (core? source.core && (core? j && nat_le source.count (row self.now.rows j source.core))) }
    {
        source.core < 4 && j < 4 && source.count <= self.row(j).number(usize::from(source.core))
    }

    // What core `j` knows.
    pub(crate) fn row(&self, j: usize) -> Row
        ensures { (k : ℕ) → slice_index result.at k ≡ row self.now.rows j k }
    {
        self.rows.get(j).copied().unwrap_or_default()
    }

    // Makes `row` what core `j` knows.
    pub(crate) fn set(&mut self, j: usize, row: Row)
        ensures { self.new.rows ≡ slice_set self.old.rows j row }
    {
        // the library's `get_mut` does not say what the array ends as
        if j < self.rows.len() {
            self.rows[j] = row;
        }
    }
}
