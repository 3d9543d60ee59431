ghost use Rattle.std.specs.Prelude.{◌≡◌, ◌+◌, ◌^◌, ◌<◌, length, slice_index, slice_set};
ghost use Rattle.records.specs.Reading.{view, moved, logs_in, logs_as, reader_at, reader_as, resumed, arc_stands, follows, judged_as, seen, seen_as, held, held_as, next_record, next_held, said, held_said, place_in, instructions_in};
ghost use Rattle.records.specs.Format.{entry, bytes_of};
ghost use Rattle.records.specs.declared.reading.State.TheVariants.{Before};

use crate::faults::{Location, RecordFault, Refusal, SessionFault};
use crate::format::{Arc, Record, read_record};
use crate::settings::{Heading, Sizes};
use crate::store::Logs;

// How far a log has been read. Among the arcs: the last target, each source core's latest target (0: none),
// and the arcs read, counted up to 65,536, which no end record can say.
#[derive(Clone, Copy)]
pub enum State {
    Before,
    Among {
        last: u16,
        latest: [u16; 4],
        arcs: u32,
    },
    After {
        instructions: u16,
    },
}

// A place among the arcs of a log, from which reading can go on.
#[derive(Clone, Copy)]
pub struct SavedPlace {
    pub offset: usize,
    pub last: u16,
    pub latest: [u16; 4],
    pub arcs: u32,
}

impl<'a> Logs<'a> {
    // Refused where the sizes are out of range or the store is too short for them.
    pub fn new(store: &'a [u8], sizes: Sizes) -> Result<Logs<'a>, Refusal>
        ensures { logs_as result ≡ logs_in store.now sizes }
    {
        if !sizes.fit(store.len()) {
            return Err(Refusal::BadSetting);
        }
        Ok(Logs { store, sizes })
    }

    // How many logs there are.
    pub fn cores(self) -> usize
        ensures { result ≡ self.entry.sizes.cores }
    {
        self.sizes.cores
    }

    // A reader at the front of a core's log.
    pub fn reader(self, core: usize) -> Result<Reader<'a>, Refusal>
        ensures { reader_as result ≡ reader_at self.entry.store.now self.entry.sizes core 0 Before }
    {
        self.reader_at(core, 0, State::Before)
    }

    #[inline(always)]
    fn reader_at(self, core: usize, cursor: usize, state: State) -> Result<Reader<'a>, Refusal>
        ensures { reader_as result ≡ reader_at self.entry.store.now self.entry.sizes core cursor state }
    {
        if core >= self.sizes.cores {
            return Err(Refusal::BadSetting);
        }
        let from = core * self.sizes.log_bytes;
        let log = &self.store[from..from + self.sizes.log_bytes];
        let heading = Heading {
            core: core as u8,
            cores: self.sizes.cores as u8,
            cells: self.sizes.cells as u16,
        };
        Ok(Reader {
            log,
            heading,
            cursor,
            state,
        })
    }
}

// Reads one core's log in place.
#[derive(Clone, Copy)]
pub struct Reader<'a> {
    log: &'a [u8],
    heading: Heading,
    cursor: usize,
    state: State,
}

impl<'a> Reader<'a> {
    // A reader at the front of a core's log.
    pub fn new(store: &'a [u8], sizes: Sizes, core: usize) -> Result<Reader<'a>, Refusal>
        ensures { reader_as result ≡ reader_at store.now sizes core 0 Before }
    {
        Logs::new(store, sizes)?.reader(core)
    }

    // A reader that goes on from a saved place.
    #[inline(always)]
    pub fn resume(
        store: &'a [u8],
        sizes: Sizes,
        core: usize,
        place: SavedPlace,
    ) -> Result<Reader<'a>, Refusal>
        ensures { reader_as result ≡ reader_at store.now sizes core place.offset (resumed place) }
    {
        let SavedPlace {
            offset,
            last,
            latest,
            arcs,
        } = place;
        let state = State::Among { last, latest, arcs };
        Logs::new(store, sizes)?.reader_at(core, offset, state)
    }
}

// A source core's number in a table of four; 0 past its end.
#[inline(always)]
pub fn number_of(table: &[u16; 4], core: u8) -> u16
    ensures { result ≡ slice_index table.now core }
{
    table.get(usize::from(core)).copied().unwrap_or(0)
}

// The table with a source core's number replaced.
#[inline(always)]
fn with_number(table: [u16; 4], core: u8, number: u16) -> [u16; 4]
    ensures { result ≡ slice_set table core number }
{
    let mut all = table;
    // the library's `get_mut` does not say what the table ends as
    if core < 4 {
        all[usize::from(core)] = number;
    }
    all
}

// Whether a log of this heading may have the arc behind the target `last`, where `latest` has each source core's latest target.
#[inline(always)]
fn arc_stands(heading: Heading, last: u16, latest: [u16; 4], arc: Arc) -> bool
    ensures { result ≡ arc_stands heading last latest arc.source.core arc.source.count arc.target }
{
    arc.source.core < heading.cores
        && arc.source.core != heading.core
        && 0 < arc.source.count
        && 0 < arc.target
        && last <= arc.target
        && number_of(&latest, arc.source.core) != arc.target
}

impl Reader<'_> {
    // The state after `record`, which stands at `at`, or the rule that it breaks.
    #[inline(always)]
    fn judge(&self, at: Location, record: Record) -> Result<State, RecordFault>
        requires { at.core ≡ self.now.heading.core }
        ensures { judged_as result ≡ follows self.now.heading self.now.state at.offset (entry «record») }
    {
        match (self.state, record) {
            (State::Before, Record::Head(heading)) if heading == self.heading => Ok(State::Among {
                last: 0,
                latest: [0; 4],
                arcs: 0,
            }),
            (State::Among { last, latest, arcs }, Record::Arc(arc))
                if arc_stands(self.heading, last, latest, arc) => Ok(State::Among {
                last: arc.target,
                latest: with_number(latest, arc.source.core, arc.target),
                arcs: arcs.min(65535) + 1,
            }),
            (
                State::Among {
                    last,
                    arcs: read,
                    ..
                },
                Record::End { instructions, arcs },
            ) if read == u32::from(arcs) && last <= instructions => Ok(State::After {
                instructions,
            }),
            (State::After { .. }, _) => Ok(self.state),
            (State::Before, _) | (State::Among { .. }, Record::Head(_)) => Err(RecordFault::BadHead(
                at,
            )),
            (State::Among { .. }, Record::Arc(_)) => Err(RecordFault::BadArc(at)),
            (State::Among { .. }, Record::End { .. }) => Err(RecordFault::BadEnd(at)),
        }
    }

    // The next record with the state behind it, or none after the end.
    #[inline(always)]
    fn peek(&self) -> Result<Option<(Record, State)>, RecordFault>
        ensures { seen_as result ≡ seen self.now.heading self.now.log.now self.now.cursor self.now.state }
    {
        if let State::After { .. } = self.state {
            return Ok(None);
        }
        let at = Location {
            core: self.heading.core,
            offset: self.cursor,
        };
        let from = self.cursor.min(self.log.len());
        let record = read_record(&self.log[from..], at)?;
        let state = self.judge(at, record)?;
        Ok(Some((record, state)))
    }

    // Reads the next record, or none after the end; a fault leaves the reader where it is.
    #[inline(always)]
    pub fn next_record(&mut self) -> Result<Option<Record>, RecordFault>
        ensures { record { says = said result; reader = view self.new } ≡ next_record (view self.old) }
    {
        match self.peek()? {
            Some((record, state)) => {
                self.advance(record, state);
                Ok(Some(record))
            }
            None => Ok(None),
        }
    }

    // As `peek`, and an arc's source count held to the instructions of its source core.
    #[inline(always)]
    fn peek_held(&self, counts: &[u16; 4]) -> Result<Option<(Record, State)>, SessionFault>
        ensures { held_as result ≡ held counts.now self.now.heading self.now.log.now self.now.cursor self.now.state }
    {
        let Some((record, state)) = self.peek()? else {
            return Ok(None);
        };
        if let Record::Arc(Arc { source, .. }) = record {
            if source.count > number_of(counts, source.core) {
                let offset = self.cursor;
                return Err(SessionFault::Source(Location {
                    core: self.heading.core,
                    offset,
                }));
            }
        }
        Ok(Some((record, state)))
    }

    // As `next_record`, and an arc's source count held to the instructions of its source core.
    #[inline(always)]
    pub fn next_held(&mut self, counts: &[u16; 4]) -> Result<Option<Record>, SessionFault>
        ensures { record { says = held_said result; reader = view self.new } ≡ next_held counts.now (view self.old) }
    {
        match self.peek_held(counts)? {
            Some((record, state)) => {
                self.advance(record, state);
                Ok(Some(record))
            }
            None => Ok(None),
        }
    }

    // Moves behind a record that was seen.
    #[inline(always)]
    fn advance(&mut self, record: Record, state: State)
        requires { self.old.cursor + length (bytes_of (entry «record»)) < 2 ^ 64 }
        ensures { view self.new ≡ moved (view self.old) (entry «record») state }
    {
        self.cursor += record.size();
        self.state = state;
    }

    // Where among the arcs the reader stands; none before the head and after the end.
    #[inline(always)]
    pub fn place(&self) -> Option<SavedPlace>
        ensures { result ≡ place_in self.now.cursor self.now.state }
    {
        let here = self.cursor;
        match self.state {
            State::Among { last, latest, arcs } => Some(SavedPlace {
                offset: here,
                last,
                latest,
                arcs,
            }),
            State::Before | State::After { .. } => None,
        }
    }

    // The offset of the next record.
    pub fn offset(&self) -> usize
        ensures { result ≡ self.now.cursor }
    {
        self.cursor
    }

    // The instructions that the end record gave; 0 before it was read.
    pub fn instructions(&self) -> u16
        ensures { result ≡ instructions_in self.now.state }
    {
        match self.state {
            State::After { instructions } => instructions,
            State::Before | State::Among { .. } => 0,
        }
    }
}
