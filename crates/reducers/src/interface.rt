ghost use Rattle.std.specs.Prelude.{◌≡◌, ◌&&◌, MatchBool};
ghost use Rattle.reducers.specs.Numbers.{Numbers, zeros, ◌⊑◌, core?, cell?, knows, taken, noted};

use records::format::Source;

// Whether an access stores to its cell; an exchange counts as a write.
#[derive(Clone, Copy)]
pub enum AccessKind {
    Read,
    Write,
}

// Whether these are cores below 4 and a cell below 256.
pub fn in_range(source: Source, j: usize, cell: usize) -> bool
    ensures { result ≡ (core? source.core && (core? j && cell? cell)) }
{
    source.core < 4 && j < 4 && cell < 256
}

// Judges which orderings are already known. Its meaning is its numbers; a call with a core from 4 or a cell from 256 on
// changes nothing, and the question then answers no.
pub trait Reducer {
    ghost numbers: { Self → Numbers };

    // How the numbers after a call meet the most that they may be. A new reducer keeps the default and owes no more.
    ghost meets: { Numbers → Numbers → Type 0 } = { ◌⊑◌ };

    // Makes all numbers 0.
    fn reset(&mut self)
        ensures { numbers self.new ≡ zeros };

    // Whether the source already precedes whatever core `j` does next.
    fn question(&self, source: Source, j: usize) -> bool
        ensures { result ≡ knows (numbers self.now) source.core source.count j };

    // Takes the arc from the source, an access of that kind to `cell`, to core `j`.
    fn take(&mut self, source: Source, cell: usize, kind: AccessKind, j: usize)
        ensures { MatchBool (core? source.core && (core? j && cell? cell)) (meets (numbers self.new) (taken (numbers self.old) source.core source.count cell kind j)) (self.new ≡ self.old) };

    // Notes an access of core `j` to `cell`.
    fn note(&mut self, j: usize, cell: usize, kind: AccessKind)
        ensures { MatchBool (core? j && cell? cell) (meets (numbers self.new) (noted (numbers self.old) j cell kind)) (self.new ≡ self.old) };

    // What meets the most that it may be is at most that.
    ghost bounded: { (n b : Numbers) → meets n b → n ⊑ b };
}
