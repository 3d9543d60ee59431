ghost use Rattle.std.specs.Prelude.{◌≡◌};
ghost use Rattle.reducers.specs.Numbers.{zeros};
ghost use Rattle.reducers.specs.Rows.{pairwise_numbers, KnownOnly};
ghost use borrow.Author.Rules.{of_blocks};

use crate::interface::{AccessKind, Reducer, in_range};
use crate::known::Known;
use records::format::Source;

// Knows the largest source count taken from each core to each other.
#[derive(Drop)]
pub struct Pairwise {
    known: Known,
}

impl Pairwise {
    pub fn new() -> Pairwise
        ensures { pairwise_numbers result ≡ zeros }
    {
        Pairwise {
            known: Known::new(),
        }
    }
}

impl Reducer for Pairwise {
    ghost numbers = { pairwise_numbers };

    ghost meets = { KnownOnly };

    ghost bounded = { Prim.search of_blocks };

    fn reset(&mut self) {
        *self = Pairwise::new();
    }

    fn question(&self, source: Source, j: usize) -> bool {
        self.known.knows(source, j)
    }

    fn take(&mut self, source: Source, cell: usize, kind: AccessKind, j: usize) {
        if in_range(source, j, cell) {
            let row = self.known.row(j);
            let i = usize::from(source.core);
            let most = row.number(i).max(source.count);
            self.known.set(j, row.with(i, most));
        }
    }

    fn note(&mut self, j: usize, cell: usize, kind: AccessKind) {}
}
