ghost use Rattle.std.specs.Prelude.{◌≡◌};
ghost use Rattle.bench_input.specs.declared.errors.InputError.TheVariants.{NoMemory};

use std::alloc::{AllocError, AllocFailed};

// Why there is no input: the bytes describe no session, or memory ran out.
#[derive(Clone, Copy)]
pub enum InputError {
    Bad,
    NoMemory,
}

impl From<AllocError> for InputError {
    ghost from_gives = { λ _ r. r ≡ NoMemory };

    fn from(_e: AllocError) -> InputError {
        InputError::NoMemory
    }
}

impl<T: Drop> From<AllocFailed<T>> for InputError {
    ghost from_gives = { λ _ r. r ≡ NoMemory };

    fn from(_e: AllocFailed<T>) -> InputError {
        InputError::NoMemory
    }
}
