// What goes into a log for one access.
ghost use Rattle.std.specs.Prelude.{◌≡◌, ◌+◌, ◌*◌, ◌<◌, ◌≤◌, true, map, length};
ghost use Rattle.accesses.specs.Histories.{one, present};
ghost use Rattle.records.specs.Format.{entry, arc as arc_entry, end as end_entry, bytes_of, end_size, written, splice};
ghost use Rattle.records.specs.Settings.{fits};
ghost use Rattle.recorder.specs.Judged.{Steps, fresh, moved, Logged};
ghost use Rattle.recorder.specs.Refusals.{touched};
ghost use Rattle.recorder.specs.Turns.{candidates_for, remembered_as, Accessed};

use crate::rules::touch_of;
use accesses::access::{Access, Candidate};
use accesses::history::History;
use cores::interface::Request;
use records::format::{Arc, Record};
use records::settings::Sizes;
use records::writing::Placement;
use reducers::interface::Reducer;

// The offset at which the next record of a log goes, and how many arcs the log has.
#[derive(Clone, Copy)]
pub(crate) struct Tail {
    pub offset: usize,
    pub arcs: u16,
}

// The log of a core, in the store of all logs, while begin or the core's next instruction is written to it.
#[derive(Drop)]
pub(crate) struct CoreLog<'a> {
    pub store: &'a mut [u8],
    pub sizes: Sizes,
    pub by: Access,
    pub tail: Tail,
    ghost fitting: { fits (length store.now) sizes ≡ true },
    ghost inside: { by.core < sizes.cores },
}

impl CoreLog<'_> {
    ghost use Rattle.recorder.specs.CoreLogs.{Same};

    // Writes a record, for which there is room.
    pub(crate) fn append(&mut self, record: Record)
        requires room { self.old.tail.offset + length (bytes_of (entry «record»)) ≤ self.old.sizes.log_bytes }
        ensures same { Same self.old self.new }
        ensures bytes { self.new.store.now ≡ splice (self.old.by.core * self.old.sizes.log_bytes + self.old.tail.offset) (bytes_of (entry «record»)) self.old.store.now }
        ensures offset { self.new.tail.offset ≡ self.old.tail.offset + length (bytes_of (entry «record»)) }
        ensures arcs { self.new.tail.arcs ≡ self.old.tail.arcs }
    {
        let placement = Placement {
            store: self.store,
            sizes: self.sizes,
            core: usize::from(self.by.core),
            offset: self.tail.offset,
            record,
        };
        self.tail.offset = placement.put();
    }

    // Writes the end record: as many instructions as the latest one's count.
    pub(crate) fn end(&mut self)
        requires room { self.old.tail.offset + end_size ≤ self.old.sizes.log_bytes }
        ensures same { Same self.old self.new }
        ensures bytes { self.new.store.now ≡ splice (self.old.by.core * self.old.sizes.log_bytes + self.old.tail.offset) (bytes_of (end_entry self.old.by.count self.old.tail.arcs)) self.old.store.now }
    {
        self.append(Record::End {
            instructions: self.by.count,
            arcs: self.tail.arcs,
        });
    }

    // Asks about one candidate, and where the answer is no appends its arc and takes it.
    fn log_one<R: Reducer>(&mut self, reducer: &mut R, candidate: Option<Candidate>, cell: usize)
        requires room { self.old.tail.offset + 7 * one candidate ≤ self.old.sizes.log_bytes }
        requires few { self.old.tail.arcs < 65535 }
        ensures same { Same self.old self.new }
        ensures judged { Steps R.Reducer.meets cell self.old.by.core (R.Reducer.numbers reducer.old) candidate (R.Reducer.numbers reducer.new) }
        ensures bytes { self.new.store.now ≡ splice (self.old.by.core * self.old.sizes.log_bytes + self.old.tail.offset) (written (map arc_entry (fresh self.old.by (R.Reducer.numbers reducer.old) candidate))) self.old.store.now }
        ensures tail { self.new.tail ≡ moved self.old.tail (fresh self.old.by (R.Reducer.numbers reducer.old) candidate) }
    {
        let Some(x) = candidate else {
            return;
        };
        let j = usize::from(self.by.core);
        if reducer.question(x.source, j) {
            return;
        }
        self.append(Record::Arc(Arc {
            source: x.source,
            target: self.by.count,
        }));
        self.tail.arcs += 1;
        reducer.take(x.source, cell, x.kind, j);
    }

    // Goes over the candidates in their order.
    fn log_arcs<R: Reducer>(
        &mut self,
        reducer: &mut R,
        candidates: [Option<Candidate>; 3],
        cell: usize,
    )
        requires room { self.old.tail.offset + 7 * present candidates ≤ self.old.sizes.log_bytes }
        requires few { self.old.tail.arcs + 3 ≤ 65535 }
        ensures same { Same self.old self.new }
        ensures logged { Logged R.Reducer.meets self.old.sizes cell self.old.by (R.Reducer.numbers reducer.old) candidates (R.Reducer.numbers reducer.new) self.old.tail self.old.store.now self.new.tail self.new.store.now }
    {
        for candidate in candidates {
            self.log_one(reducer, candidate, cell);
        }
    }

    // Logs and takes the arcs of an access, notes and remembers it; a local request does none of this.
    pub(crate) fn log_access<R: Reducer>(
        &mut self,
        reducer: &mut R,
        history: &mut History,
        request: Request,
    )
        requires room { self.old.tail.offset + 7 * present (candidates_for self.old.sizes.cores history.old.cells self.old.by.core (touched request)) ≤ self.old.sizes.log_bytes }
        requires few { self.old.tail.arcs + 3 ≤ 65535 }
        ensures same { Same self.old self.new }
        ensures logged { Accessed R.Reducer.meets self.old.sizes history.old.cells self.old.by (touched request) (R.Reducer.numbers reducer.old) (R.Reducer.numbers reducer.new) self.old.tail self.old.store.now self.new.tail self.new.store.now }
        ensures remembered { history.new.cells ≡ remembered_as history.old.cells self.old.by (touched request) }
    {
        let Some(touch) = touch_of(request) else {
            return;
        };
        let cell = usize::from(touch.cell);
        let j = usize::from(self.by.core);
        let candidates = history.candidates(self.sizes.cores, cell, j, touch.kind);
        self.log_arcs(reducer, candidates, cell);
        reducer.note(j, cell, touch.kind);
        history.remember(cell, self.by, touch.kind);
    }
}
