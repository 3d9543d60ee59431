ghost use Rattle.std.specs.Prelude.{◌≡◌, IfOk, nat_lt};
ghost use Rattle.std.specs.List.{zip, list_any};
ghost use Rattle.records.specs.Format.{entry};
ghost use Rattle.records.specs.Reading.{view};
ghost use Rattle.logs.specs.Lawful.{Exactly};
ghost use Rattle.logs.specs.Walk.{reading_from, holding_from, held_as};
ghost use Rattle.logs.specs.Session.{raised, largest_in, all_largest, gathered, tested, no_counts, session, read_session, counted_as, answer, outcome, done, done_as};

use records::faults::{Refusal, SessionFault};
use records::format::{Arc, Record};
use records::reading::Reader;
use records::settings::Sizes;
use records::store::Logs;

// What one reading of all logs gives: each core's instructions, and the largest source count of any arc from it.
#[derive(Clone, Copy)]
struct Counted {
    counts: [u16; 4],
    largest: [u16; 4],
}

// Keeps an arc's source count where it is the largest from its source core.
#[inline(always)]
fn keep_largest(largest: &mut [u16; 4], record: Record)
    ensures { largest.new ≡ raised largest.old (entry «record») }
{
    if let Record::Arc(Arc { source, .. }) = record {
        // each arc that a log may have comes from one of the four
        if source.core < 4 {
            let core = usize::from(source.core);
            largest[core] = largest[core].max(source.count);
        }
    }
}

// Reads to the end of a log: the instructions that it gives, or the first fault of layers 1 and 2.
// The source counts of its arcs are kept where they are the largest.
#[inline(always)]
fn read_through(from: Reader, largest: &mut [u16; 4]) -> Result<u16, SessionFault>
    ensures verdict { held_as result ≡ (reading_from (view from.entry)).verdict }
    ensures kept { largest.new ≡ largest_in largest.old (reading_from (view from.entry)).entries }
{
    let mut reader = from;
    while let Some(record) = reader.next_record()? {
        keep_largest(largest, record);
    }
    Ok(reader.instructions())
}

// The same, each arc's source count held to the instructions of its source core.
fn hold_through(from: Reader, counts: &[u16; 4]) -> Result<u16, SessionFault>
    ensures { held_as result ≡ (holding_from counts.now (view from.entry)).verdict }
{
    let mut reader = from;
    while let Some(_) = reader.next_held(counts)? {}
    Ok(reader.instructions())
}

// Each core's instructions, by its log, and the largest source counts; or the first fault of layers 1 and 2.
fn read_counts(logs: Logs) -> Result<Counted, Refusal>
    ensures counts { let z = logs.entry.sizes in
        counted_as result ≡ outcome (gathered logs.entry.store.now z z.cores 0 no_counts) }
    ensures largest { let z = logs.entry.sizes in
        IfOk result (λ c. c.largest ≡ all_largest logs.entry.store.now z z.cores 0 no_counts) }
{
    let mut counts = [0; 4];
    let mut largest = [0; 4];
    for core in 0..logs.cores() {
        counts[core] = read_through(logs.reader(core)?, &mut largest)?;
    }
    Ok(Counted { counts, largest })
}

// Every log once more, held to each core's instructions, or the first fault of layer 3.
fn hold_logs(logs: Logs, counts: &[u16; 4]) -> Result<(), Refusal>
    ensures { done_as result ≡ done (tested logs.entry.store.now logs.entry.sizes counts.now logs.entry.sizes.cores 0) }
{
    for core in 0..logs.cores() {
        hold_through(logs.reader(core)?, counts)?;
    }
    Ok(())
}

// Whether some core's largest source count is above its instructions.
fn any_above(largest: &[u16; 4], counts: &[u16; 4]) -> bool
    ensures { result ≡ list_any (λ p. nat_lt p.1 p.0) (zip largest.now counts.now) }
{
    largest
        .iter()
        .zip(counts)
        .any(|(source, count)| *count < *source)
}

// Layers 1 and 2 of all logs, then layer 3: where no largest source count is above its core's instructions,
// no arc's is, and the logs need not be read once more.
pub(crate) fn read_all(logs: Logs) -> Result<[u16; 4], Refusal>
    ensures { answer result ≡ outcome (session logs.entry.store.now logs.entry.sizes) }
{
    let Counted { counts, largest } = read_counts(logs)?;
    if any_above(&largest, &counts) {
        hold_logs(logs, &counts)?;
    }
    Ok(counts)
}

// Reads all logs: each core's instructions (0 for a core that the session has not), or the first fault.
pub fn read_logs(store: &[u8], sizes: Sizes) -> Result<[u16; 4], Refusal>
    ensures answer { answer result ≡ read_session store.now sizes }
    ensures exactly { Exactly store.now sizes (answer result) }
{
    read_all(Logs::new(store, sizes)?)
}
