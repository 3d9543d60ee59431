ghost use Rattle.std.specs.Prelude.{◌≡◌, true, length};
ghost use Rattle.records.specs.Settings.{fits};

use crate::settings::Sizes;

// The logs of a session in a store that has room for all of them, core 0's first. Its methods stand beside `Reader`,
// with which they share their definitions; a type with a ghost field cannot be declared beside clauses that name it.
#[derive(Clone, Copy)]
pub struct Logs<'a> {
    pub store: &'a [u8],
    pub sizes: Sizes,
    ghost fitting: { fits (length store.now) sizes ≡ true },
}
