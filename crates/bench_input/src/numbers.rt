ghost use Rattle.std.specs.Prelude.{◌≡◌, [], ◌∷◌, None, Err, vec_items};
ghost use Rattle.listing.specs.Words.{argument};
ghost use Rattle.bench_input.specs.Answers.{Answers};
ghost use Rattle.bench_input.specs.declared.errors.InputError.TheVariants.{Bad};
ghost use Rattle.bench_input.specs.Numbers.{white, after, numbers_in, numbers};

use crate::errors::InputError;
use listing::words::number_of;
use std::alloc::Global;

fn is_white(b: u8) -> bool
    ensures { result ≡ white b }
{
    matches!(b, b'\t'..=b'\r' | b' ')
}

fn word_number(word: &[u8]) -> Option<u16>
    ensures { result ≡ argument word.now }
{
    u16::try_from(number_of(word)?).ok()
}

// Keeps the number of a word, and nothing where two white bytes have no word between them.
fn keep_word(found: &mut Vec<u16>, word: &[u8]) -> Result<(), InputError>
    ensures kept { Answers (λ _. found.new.items) (after found.old.items (numbers_in (word.now ∷ []))) result }
    ensures refused { numbers_in (word.now ∷ []) ≡ None → result ≡ Err Bad }
{
    if !word.is_empty() {
        found.push(word_number(word).ok_or(InputError::Bad)?)?;
    }
    Ok(())
}

// The numbers that a text writes, or `Bad` where it is no text of numbers.
pub(crate) fn read_numbers(heap: Global, bytes: &[u8]) -> Result<Vec<u16>, InputError>
    ensures { Answers vec_items (numbers bytes.now) result }
{
    let mut found = Vec::new(heap);
    for word in bytes.split(|b| is_white(*b)) {
        keep_word(&mut found, word)?;
    }
    Ok(found)
}
