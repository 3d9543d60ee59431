ghost use Rattle.std.specs.Prelude.{◌≡◌, drop, IfOk, MatchOption, if◌then◌else◌, Some, None, vec_items, nat_le};
ghost use Rattle.bench_input.specs.Answers.{Answers, or_bad, Counted, LaidOut, LaidOrBad, AnswersInWords};
ghost use Rattle.bench_input.specs.Described.{all_bytes, kind_of, reduction_of, session, described};
ghost use Rattle.bench_input.specs.Session.{session_of};

use crate::errors::InputError;
use crate::input::{Input, Kind, Reduction};
use crate::numbers::read_numbers;
use std::alloc::{AllocError, Global};

impl TryFrom<u16> for Kind {
    type Error = InputError;

    ghost try_from_gives = { λ n r. r ≡ or_bad (if nat_le n 1 then Some (kind_of n) else None) };

    fn try_from(n: u16) -> Result<Kind, InputError> {
        match n {
            0 => Ok(Kind::Script),
            1 => Ok(Kind::Register),
            _ => Err(InputError::Bad),
        }
    }
}

impl TryFrom<u16> for Reduction {
    type Error = InputError;

    ghost try_from_gives = { λ n r. r ≡ or_bad (if nat_le n 2 then Some (reduction_of n) else None) };

    fn try_from(n: u16) -> Result<Reduction, InputError> {
        match n {
            0 => Ok(Reduction::KeepAll),
            1 => Ok(Reduction::Pairwise),
            2 => Ok(Reduction::Exact),
            _ => Err(InputError::Bad),
        }
    }
}

// A number of an item, which has to be a byte.
fn byte_of(n: u16) -> Result<u8, InputError>
    ensures { result ≡ or_bad (if nat_le n 255 then Some n else None) }
{
    u8::try_from(n).map_err(|_| InputError::Bad)
}

// The bytes of the items.
fn bytes_of(heap: Global, numbers: &[u16]) -> Result<Vec<u8>, InputError>
    ensures { Answers vec_items (if all_bytes numbers.now then Some numbers.now else None) result }
{
    let mut bytes = Vec::new(heap);
    for n in numbers {
        bytes.push(byte_of(*n)?)?;
    }
    Ok(bytes)
}

// The cores of the turns.
fn cores_of(heap: Global, numbers: &[u16]) -> Result<Vec<usize>, AllocError>
    ensures { IfOk result (λ cores. cores.items ≡ numbers.now) }
{
    numbers.iter().map(|n| usize::from(*n)).collect(heap)
}

// The numbers of the turns, if their count comes first, is at most 1,024 and is kept to.
fn counted(numbers: &[u16]) -> Option<&[u16]>
    ensures { MatchOption result (¬ Counted numbers.now) (λ turns. Counted numbers.now × (turns.now ≡ drop 1 numbers.now)) }
{
    match numbers {
        [count, turns @ ..] if *count <= 1024 && turns.len() == usize::from(*count) => Some(turns),
        _ => None,
    }
}

// The parts of a session among its numbers.
#[derive(Clone, Copy)]
struct Layout<'a> {
    kind: u16,
    reduction: u16,
    cores: u16,
    cells: u16,
    text: &'a [u16],
    starts: &'a [u16],
    turns: &'a [u16],
}

impl<'a> Layout<'a> {
    // None where a number of things is out of range, or there are too few numbers or too many.
    fn of(numbers: &'a [u16]) -> Option<Layout<'a>>
        ensures { LaidOut numbers.now result }
    {
        let [kind, reduction, cores, cells, items, rest @ ..] = numbers else {
            return None;
        };
        if !(1..=4).contains(cores) || !(1..=256).contains(cells) || *items > 256 {
            return None;
        }
        let (text, rest) = rest.split_at_checked(4 * usize::from(*items))?;
        let (starts, rest) = rest.split_at_checked(usize::from(*cores))?;
        let turns = counted(rest)?;
        Some(Layout {
            kind: *kind,
            reduction: *reduction,
            cores: *cores,
            cells: *cells,
            text,
            starts,
            turns,
        })
    }
}

// The parts, or `Bad` where there are none.
fn parts_of(numbers: &[u16]) -> Result<Layout, InputError>
    ensures { LaidOrBad numbers.now result }
{
    Layout::of(numbers).ok_or(InputError::Bad)
}

// The session of these numbers, or `Bad` where they are those of none.
fn input_of(heap: Global, numbers: &[u16]) -> Result<Input, InputError>
    ensures { Answers session_of (session numbers.now) result }
{
    let parts = parts_of(numbers)?;
    Ok(Input {
        kind: Kind::try_from(parts.kind)?,
        reduction: Reduction::try_from(parts.reduction)?,
        cores: usize::from(parts.cores),
        cells: usize::from(parts.cells),
        text: bytes_of(heap, parts.text)?,
        starts: Vec::from_slice(heap, parts.starts)?,
        turns: cores_of(heap, parts.turns)?,
    })
}

// The session that the bytes describe, or `Bad` where they describe none.
pub fn read_input(heap: Global, bytes: &[u8]) -> Result<Input, InputError>
    ensures answer { Answers session_of (described bytes.now) result }
    ensures words { AnswersInWords bytes.now result }
{
    let numbers = read_numbers(heap, bytes)?;
    input_of(heap, numbers.as_slice())
}
