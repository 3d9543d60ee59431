ghost use Rattle.std.specs.Prelude.{◌≡◌, ◌≤◌};
ghost use Rattle.listing.specs.Words.{argument, with_digit};

// The number with one digit more, while it is at most 65,535.
fn with_digit(so_far: usize, b: u8) -> Option<usize>
    requires { so_far ≤ 65535 }
    ensures { result ≡ with_digit so_far b }
{
    if !b.is_ascii_digit() {
        return None;
    }
    let n = so_far * 10 + usize::from(b - b'0');
    (n <= 65535).then_some(n)
}

// The number that a word of digits writes, where it is at most 65,535.
pub fn number_of(word: &[u8]) -> Option<usize>
    ensures { result ≡ argument word.now }
{
    if word.is_empty() {
        return None;
    }
    let mut n = 0;
    for b in word {
        n = with_digit(n, *b)?;
    }
    Some(n)
}
