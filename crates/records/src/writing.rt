ghost use Rattle.std.specs.Prelude.{◌≡◌, ◌+◌, ◌<◌, ◌≤◌, true, length};
ghost use Rattle.records.specs.Format.{entry, bytes_of, splice};
ghost use Rattle.records.specs.Settings.{fits};
ghost use Rattle.records.specs.Writing.{put_at, behind, behind_as, write_at};

use crate::faults::Refusal;
use crate::format::{Record, end_bytes};
use crate::settings::Sizes;

// Puts `bytes` at `at`.
#[inline(always)]
fn put_bytes(store: &mut [u8], at: usize, bytes: &[u8])
    requires { at + length bytes.now ≤ length store.old }
    ensures { store.new ≡ splice at bytes.now store.old }
{
    store[at..at + bytes.len()].copy_from_slice(bytes);
}

// Puts the bytes of `record` at `at`.
#[inline(always)]
fn put_record(store: &mut [u8], at: usize, record: Record)
    requires { at + length (bytes_of (entry «record»)) ≤ length store.old }
    ensures { store.new ≡ splice at (bytes_of (entry «record»)) store.old }
{
    match record {
        Record::Head(heading) => put_bytes(store, at, &heading.bytes()),
        Record::Arc(arc) => put_bytes(store, at, &arc.bytes()),
        Record::End { instructions, arcs } => put_bytes(store, at, &end_bytes(instructions, arcs)),
    }
}

// A record, and where in a store it goes: an offset of a core's log that has room for it there.
pub struct Placement<'a> {
    pub store: &'a mut [u8],
    pub sizes: Sizes,
    pub core: usize,
    pub offset: usize,
    pub record: Record,
    ghost fitting: { fits (length store.now) sizes ≡ true },
    ghost inside: { core < sizes.cores },
    ghost room: { behind offset (entry «record») ≤ sizes.log_bytes },
}

impl Placement<'_> {
    // Puts the record there, and gives the offset behind it.
    #[inline(always)]
    pub fn put(self) -> usize
        ensures bytes { let p = self.entry in
            self.exit.0.now ≡ put_at p.store.now p.sizes p.core p.offset (entry p.record) }
        ensures behind { result ≡ behind self.entry.offset (entry self.entry.record) }
    {
        let Placement {
            store,
            sizes,
            core,
            offset,
            record,
        } = self;
        put_record(store, core * sizes.log_bytes + offset, record);
        offset + record.size()
    }
}

// Writes `record` at an offset of a core's log, and answers the offset behind it;
// refused, and nothing written, where the log has no room for it there.
#[inline(always)]
pub fn write_record(
    store: &mut [u8],
    sizes: Sizes,
    core: usize,
    offset: usize,
    record: Record,
) -> Result<usize, Refusal>
    ensures { record { says = behind_as result; store = store.new }
        ≡ write_at store.old sizes core offset (entry «record») }
{
    let size = record.size();
    if !sizes.fit(store.len())
        || core >= sizes.cores
        || offset > sizes.log_bytes
        || size > sizes.log_bytes - offset
    {
        return Err(Refusal::BadSetting);
    }
    let placement = Placement {
        store,
        sizes,
        core,
        offset,
        record,
    };
    Ok(placement.put())
}
