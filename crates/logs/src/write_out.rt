ghost use Rattle.std.specs.Prelude.{◌≡◌, ◌<◌, ◌≤◌, true, [], ◌∷◌, length};
ghost use Rattle.records.specs.Reading.{view};
ghost use Rattle.records.specs.Settings.{fits};
ghost use Rattle.logs.specs.Session.{done_as};
ghost use Rattle.logs.specs.Walk.{reading_from};
ghost use Rattle.logs.specs.WriteOut.{copied, all_copied, write_session, Restored};

use crate::session::read_all;
use records::faults::Refusal;
use records::reading::Reader;
use records::settings::Sizes;
use records::store::Logs;
use records::writing::Placement;

// Puts each record that is read to its place in `out`, up to the end or the first fault.
fn copy_records(from: Reader, sizes: Sizes, core: usize, out: &mut [u8])
    requires fitting { fits (length out.old) sizes ≡ true }
    requires inside { core < sizes.cores }
    requires short { length (view from).log ≤ sizes.log_bytes }
    ensures { let entries = (reading_from (view from.entry)).entries in
        out.new ≡ copied sizes core from.entry.cursor entries out.old }
{
    let mut reader = from;
    let mut offset = reader.offset();
    while let Ok(Some(record)) = reader.next_record() {
        let placement = Placement {
            store: out,
            sizes,
            core,
            offset,
            record,
        };
        offset = placement.put();
    }
}

// Writes the records of every log.
fn copy_logs(logs: Logs, out: &mut [u8])
    requires { fits (length out.old) logs.sizes ≡ true }
    ensures { let z = logs.entry.sizes in
        out.new ≡ all_copied logs.entry.store.now z z.cores 0 out.old }
{
    for core in 0..logs.cores() {
        // each core below them has a log
        let Ok(reader) = logs.reader(core) else {
            unreachable()
        };
        copy_records(reader, logs.sizes, core, out);
    }
}

// The output's room, then all logs, then every record to its place.
fn write_all(logs: Logs, out: &mut [u8]) -> Result<(), Refusal>
    ensures { record { says = done_as result; store = out.new } ≡ write_session logs.entry.store.now logs.entry.sizes out.old }
{
    if !logs.sizes.fit(out.len()) {
        return Err(Refusal::BadSetting);
    }
    read_all(logs)?;
    copy_logs(logs, out);
    Ok(())
}

// Reads all logs and writes every record, encoded from what was read, to the same place in `out`.
// The bytes behind each end, and on a refusal all bytes, are untouched.
pub fn write_logs(store: &[u8], sizes: Sizes, out: &mut [u8]) -> Result<(), Refusal>
    ensures outcome { record { says = done_as result; store = out.new } ≡ write_session store.now sizes out.old }
    ensures restored { done_as result ≡ 0 ∷ [] → Restored store.now sizes out.old out.new }
{
    write_all(Logs::new(store, sizes)?, out)
}
