ghost use Rattle.std.specs.Prelude.{◌≡◌, replicate};
ghost use Rattle.reducer_tests.specs.Forgets.{forgetful_numbers, nothing, KnowsSomething};
ghost use borrow.Author.Rules.{of_blocks};

use records::format::Source;
use reducers::interface::{AccessKind, Reducer, in_range};

// Knows the last arc taken to each core, until that core's next note.
#[derive(Clone, Copy)]
pub struct Forgetful {
    latest: [Source; 4],
}

impl Forgetful {
    pub fn new() -> Forgetful
        ensures { result.latest ≡ replicate 4 nothing }
    {
        Forgetful {
            latest: [Source { core: 0, count: 0 }; 4],
        }
    }
}

impl Reducer for Forgetful {
    ghost numbers = { forgetful_numbers };

    ghost bounded = { Prim.search of_blocks };

    fn reset(&mut self) {
        *self = Forgetful::new();
    }

    fn question(&self, source: Source, j: usize) -> bool {
        source.core < 4
            && j < 4
            && (source.count == 0
                || self.latest[j].core == source.core && source.count <= self.latest[j].count)
    }

    fn take(&mut self, source: Source, cell: usize, kind: AccessKind, j: usize) {
        if in_range(source, j, cell) {
            self.latest[j] = source;
        }
    }

    fn note(&mut self, j: usize, cell: usize, kind: AccessKind) {
        if j < 4 && cell < 256 {
            self.latest[j].count = 0;
        }
    }
}

// Holds the statement that its numbers are not all 0.
pub fn forgetful_knows_something()
    ensures { KnowsSomething }
{}
