ghost use Rattle.std.specs.Prelude.{◌≡◌};
ghost use Rattle.records.specs.Reading.{view};
ghost use Rattle.replayer.specs.GroupFaults.{GroupExactly};
ghost use Rattle.replayer.specs.Groups.{arc_seen, arc_as, StandsBehind, first_source, read_group, group_as};

use records::faults::{Refusal, SessionFault};
use records::format::{Arc, Record, Source};
use records::reading::{Reader, SavedPlace, number_of};
use records::settings::Sizes;

// The arcs to one instruction: the place behind them, and the source of the first whose source is not done.
#[derive(Clone, Copy)]
pub struct Group {
    pub place: SavedPlace,
    pub waits: Option<Source>,
}

// An arc that was read, and the place behind it.
#[derive(Clone, Copy)]
struct ArcRead {
    arc: Arc,
    behind: SavedPlace,
}

// Reads the next record: the arc that it is, or none.
#[inline(always)]
fn next_arc(reader: &mut Reader, counts: &[u16; 4]) -> Result<Option<ArcRead>, SessionFault>
    ensures arc { arc_as result ≡ arc_seen counts.now (view reader.old) }
    ensures behind { StandsBehind result (view reader.old) (view reader.new) }
{
    let Some(Record::Arc(arc)) = reader.next_held(counts)? else {
        return Ok(None);
    };
    Ok(reader.place().map(|behind| ArcRead { arc, behind }))
}

// What is waited for so far, or else the source where that is not done.
#[inline(always)]
fn first_wait(waits: Option<Source>, source: Source, done: &[u16; 4]) -> Option<Source>
    ensures { result ≡ first_source waits source done.now }
{
    let waiting = number_of(done, source.core) < source.count;
    waits.or(waiting.then_some(source))
}

// Reads the arcs to the next instruction of `core` from `place` on, up to the first record that is no such arc.
// Each record read, the one that ends the arcs too, is held to the rules and to each core's instructions.
#[inline(always)]
pub fn read_group(
    store: &[u8],
    sizes: Sizes,
    core: usize,
    place: SavedPlace,
    counts: &[u16; 4],
    done: &[u16; 4],
) -> Result<Group, Refusal>
    ensures answer { group_as result ≡ read_group store.now sizes core place counts.now done.now }
    ensures exactly { GroupExactly store.now sizes core place counts.now done.now
        (group_as result) }
{
    let mut reader = Reader::resume(store, sizes, core, place)?;
    let next = done[core] as u32 + 1;
    let mut behind = place;
    let mut waits = None;
    while let Some(read) = next_arc(&mut reader, counts)? {
        if read.arc.target as u32 != next {
            break;
        }
        waits = first_wait(waits, read.arc.source, done);
        behind = read.behind;
    }
    Ok(Group {
        place: behind,
        waits,
    })
}
