ghost use Rattle.std.specs.Prelude.{◌≡◌};
ghost use Rattle.reducers.specs.Numbers.{zeros};
ghost use borrow.Author.Rules.{of_blocks};

use crate::interface::{AccessKind, Reducer};
use records::format::Source;

// Knows nothing, so that every candidate is logged.
#[derive(Clone, Copy)]
pub struct KeepAll;

impl Reducer for KeepAll {
    ghost numbers = { λ _. zeros };

    ghost meets = { λ n _. n ≡ zeros };

    ghost bounded = { Prim.search of_blocks };

    fn reset(&mut self) {}

    fn question(&self, source: Source, j: usize) -> bool {
        source.core < 4 && j < 4 && source.count == 0
    }

    fn take(&mut self, source: Source, cell: usize, kind: AccessKind, j: usize) {}

    fn note(&mut self, j: usize, cell: usize, kind: AccessKind) {}
}
