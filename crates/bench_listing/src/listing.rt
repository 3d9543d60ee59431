ghost use Rattle.std.specs.Prelude.{◌≡◌, [], ◌∷◌, ◌++◌, IfOk, string_bytes, OnOk};
ghost use Rattle.records.specs.Format.{entry};
ghost use Rattle.records.specs.Reading.{view};
ghost use Rattle.logs.specs.Arcs.{all_arcs};
ghost use Rattle.logs.specs.Walk.{reading_from};
ghost use Rattle.bench_listing.specs.Lines.{text_of};
ghost use Rattle.bench_listing.specs.Runs.{arcs_text, log_text, run_lines};

use crate::lines::{ArcLine, CellsLine};
use records::format::Record;
use records::reading::Reader;
use records::settings::Sizes;
use records::store::Logs;
use std::alloc::{AllocError, Global};

// The line of an arc of a core's log; nothing for another record.
fn write_record(out: &mut String, core: usize, record: Record) -> Result<(), AllocError>
    ensures { OnOk result (string_bytes out.new ≡ string_bytes out.old ++ log_text core (entry «record» ∷ [])) }
{
    if let Record::Arc(arc) = record {
        let line = ArcLine { core, arc };
        writeln!(out, "{line}")?;
    }
    Ok(())
}

// A line for each arc from where the reader stands on, up to the end or the first fault.
fn write_arcs(out: &mut String, core: usize, from: Reader) -> Result<(), AllocError>
    ensures { OnOk result (string_bytes out.new ≡ string_bytes out.old ++ log_text core (reading_from (view from.entry)).entries) }
{
    let mut reader = from;
    while let Ok(Some(record)) = reader.next_record() {
        write_record(out, core, record)?;
    }
    Ok(())
}

// The arcs of all logs, core 0's first; none where the sizes do not fit the store.
fn write_logs(out: &mut String, store: &[u8], sizes: Sizes) -> Result<(), AllocError>
    ensures { OnOk result (string_bytes out.new ≡ string_bytes out.old ++ arcs_text (all_arcs store.now sizes)) }
{
    let Ok(logs) = Logs::new(store, sizes) else {
        return Ok(());
    };
    for core in 0..logs.cores() {
        let Ok(reader) = logs.reader(core) else {
            unreachable()
        };
        write_arcs(out, core, reader)?;
    }
    Ok(())
}

fn write_run(
    out: &mut String,
    store: &[u8],
    sizes: Sizes,
    cells: &[u16],
    steps: u32,
) -> Result<(), AllocError>
    ensures { OnOk result (string_bytes out.new ≡ string_bytes out.old ++ text_of (run_lines (all_arcs store.now sizes) cells.now steps)) }
{
    write_logs(out, store, sizes)?;
    let line = CellsLine { cells };
    writeln!(out, "{line}")?;
    writeln!(out, "replayed {steps}")?;
    Ok(())
}

// The text of a run: its arcs, by the logs that a store holds, its cells' numbers, and how many steps were replayed.
pub fn list_run(
    heap: Global,
    store: &[u8],
    sizes: Sizes,
    cells: &[u16],
    steps: u32,
) -> Result<String, AllocError>
    ensures { IfOk result (λ s. string_bytes s ≡ text_of (run_lines (all_arcs store.now sizes) cells.now steps)) }
{
    let mut out = String::new(heap);
    write_run(&mut out, store, sizes, cells, steps)?;
    Ok(out)
}
