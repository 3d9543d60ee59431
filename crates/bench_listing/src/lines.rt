ghost use Rattle.std.specs.Prelude.{Some};
ghost use Rattle.bench_listing.specs.Lines.{joined};
ghost use Rattle.bench_listing.specs.Runs.{arc_line, cells_line};

use records::format::{Arc, Source};
use std::fmt;

// An arc in the log of `core`, as a line with both ends.
#[derive(Clone, Copy)]
pub(crate) struct ArcLine {
    pub(crate) core: usize,
    pub(crate) arc: Arc,
}

impl fmt::Display for ArcLine {
    ghost output = { λ x. Some (joined (arc_line (record { source = x.arc.source.core; count = x.arc.source.count; target_core = x.core; target = x.arc.target }))) };

    fn fmt<W: fmt::Write>(&self, f: &mut fmt::Formatter<W>) -> fmt::Result {
        let here = self.core;
        let Arc {
            source: Source { core, count },
            target,
        } = self.arc;
        write!(f, "arc {core} {count} {here} {target}")
    }
}

// The line of all cells' numbers.
#[derive(Clone, Copy)]
pub(crate) struct CellsLine<'a> {
    pub(crate) cells: &'a [u16],
}

impl<'a> fmt::Display for CellsLine<'a> {
    ghost output = { λ x. Some (joined (cells_line x.cells.now)) };

    fn fmt<W: fmt::Write>(&self, f: &mut fmt::Formatter<W>) -> fmt::Result {
        write!(f, "cells")?;
        for cell in self.cells {
            write!(f, " {cell}")?;
        }
        Ok(())
    }
}
