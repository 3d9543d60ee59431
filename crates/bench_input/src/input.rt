ghost use Rattle.std.specs.Prelude.{◌≡◌, vec_len};
ghost use Rattle.std.specs.Int.{IsInRange};

// The kind of core, the same for all.
#[derive(Clone, Copy)]
pub enum Kind {
    Script,
    Register,
}

// The reducer: which of the orderings found are left out as known.
#[derive(Clone, Copy)]
pub enum Reduction {
    KeepAll,
    Pairwise,
    Exact,
}

// A session as it is asked for: four bytes of text to an item, a starting item for each core, and the core of each turn.
#[derive(Drop)]
pub struct Input {
    pub kind: Kind,
    pub reduction: Reduction,
    pub cores: usize,
    pub cells: usize,
    pub text: Vec<u8>,
    pub starts: Vec<u16>,
    pub turns: Vec<usize>,
    ghost some_cores: { IsInRange 1 4 cores },
    ghost some_cells: { IsInRange 1 256 cells },
    ghost each_starts: { vec_len starts ≡ cores },
}
