ghost use Rattle.std.specs.Prelude.{◌≡◌, ◌++◌, is_ok, IfOk, string_bytes, OnOk};
ghost use Rattle.records.specs.Reading.{view, next_record};
ghost use Rattle.logs.specs.Walk.{reading_from};
ghost use Rattle.listing.specs.NextLines.{told_as, told_of};
ghost use Rattle.listing.specs.Listing.{entry_lines, logs_from, listing};

use crate::lines::{RecordLine, VerdictLine};
use logs::session::read_logs;
use records::faults::RecordFault;
use records::reading::Reader;
use records::settings::Sizes;
use records::store::Logs;
use std::alloc::{AllocError, Global};

// The line of the record that comes next; none at the log's end.
fn next_line(reader: &mut Reader, core: usize) -> Result<Option<RecordLine>, RecordFault>
    ensures says { told_as result ≡ told_of core reader.old.cursor (next_record (view reader.old)).says }
    ensures after { view reader.new ≡ (next_record (view reader.old)).reader }
{
    let offset = reader.offset();
    let next = reader.next_record()?;
    Ok(next.map(|record| RecordLine {
        core,
        offset,
        record,
    }))
}

// A line for each record from where the reader stands on; whether the log is read to its end.
fn write_records(out: &mut String, core: usize, from: Reader) -> Result<bool, AllocError>
    ensures { IfOk result (λ whole. (string_bytes out.new ≡ string_bytes out.old ++ entry_lines core from.entry.cursor (reading_from (view from.entry)).entries) × (whole ≡ is_ok (reading_from (view from.entry)).verdict)) }
{
    let mut reader = from;
    loop {
        match next_line(&mut reader, core) {
            Ok(Some(line)) => writeln!(out, "{line}")?,
            Ok(None) => return Ok(true),
            Err(_) => return Ok(false),
        }
    }
}

// The lines of all logs up to the first that is not read to its end.
fn write_logs(out: &mut String, logs: Logs) -> Result<(), AllocError>
    ensures { OnOk result (string_bytes out.new ≡ string_bytes out.old ++ logs_from logs.entry.store.now logs.entry.sizes logs.entry.sizes.cores 0) }
{
    for core in 0..logs.cores() {
        let Ok(reader) = logs.reader(core) else {
            unreachable()
        };
        writeln!(out, "log of core {core}")?;
        if !write_records(out, core, reader)? {
            return Ok(());
        }
    }
    Ok(())
}

// What a log store holds: the records of each log up to the first fault, and the verdict.
pub fn list_logs(heap: Global, store: &[u8], sizes: Sizes) -> Result<String, AllocError>
    ensures { IfOk result (λ s. string_bytes s ≡ listing store.now sizes) }
{
    let mut out = String::new(heap);
    if let Ok(logs) = Logs::new(store, sizes) {
        write_logs(&mut out, logs)?;
    }
    let line = VerdictLine {
        verdict: read_logs(store, sizes),
    };
    writeln!(out, "{line}")?;
    Ok(out)
}
