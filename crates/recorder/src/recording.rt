// The recorder: begin, and turns.
ghost use Rattle.std.specs.Prelude.{◌≡◌, ◌+◌, ◌<◌, true, [], length};
ghost use Rattle.cores.specs.Memory.{rules};
ghost use Rattle.records.specs.Settings.{fits, no_sizes, SurplusKept};
ghost use Rattle.recorder.specs.Decided.{OneOutcome};
ghost use Rattle.recorder.specs.Refusals.{book, log_in, barred};
ghost use Rattle.recorder.specs.Turns.{headed, headed_from, fresh_tape, tape, Entered, scene, answered, said, begun, begun_said, Turned, kept, unmoved};

use crate::arcs::{CoreLog, Tail};
use crate::ledger::{Ledger, Log};
use crate::rules::Refusal;
use accesses::access::Access;
use accesses::history::History;
use cores::acting::carry_out;
use cores::interface::{Core, Request};
use records::format::Record;
use records::settings::{CheckedSizes, Heading, Sizes};
use reducers::interface::Reducer;

// An instruction that was carried out: the request, its count, the number that it brought and how many arcs were logged.
#[derive(Clone, Copy, PartialEq, Eq, Debug)]
pub struct Recorded {
    pub request: Request,
    pub count: u16,
    pub number: u16,
    pub arcs: u16,
}

// Writes a head and an end record into the log of `core`.
fn begin_log(store: &mut [u8], sizes: Sizes, core: usize)
    requires fitting { fits (length store.old) sizes ≡ true }
    requires inside { core < sizes.cores }
    ensures { store.new ≡ headed sizes core store.old }
{
    // no instruction yet: the end record says 0
    let by = Access {
        core: core as u8,
        count: 0,
        position: 0,
    };
    let tail = Tail { offset: 0, arcs: 0 };
    let mut log = CoreLog {
        store,
        sizes,
        by,
        tail,
    };
    log.append(Record::Head(Heading {
        core: core as u8,
        cores: sizes.cores as u8,
        cells: sizes.cells as u16,
    }));
    log.end();
}

// Writes a head and an end record into each log.
fn begin_logs(store: &mut [u8], sizes: Sizes)
    requires { fits (length store.old) sizes ≡ true }
    ensures { store.new ≡ headed_from sizes sizes.cores 0 store.old }
{
    for core in 0..sizes.cores {
        begin_log(store, sizes, core);
    }
}

// Records the turns of one session after another.
#[derive(Drop)]
pub struct Recorder<R> {
    reducer: R,
    history: History,
    ledger: Ledger,
}

impl<R: Reducer> Recorder<R> {
    // A recorder whose sizes are 0, so that it refuses every turn before begin.
    pub fn new(mut reducer: R) -> Recorder<R>
        ensures { tape R.Reducer.numbers result [] ≡ fresh_tape no_sizes [] }
    {
        reducer.reset();
        Recorder {
            reducer,
            history: History::new(),
            ledger: Ledger::new(CheckedSizes::none()),
        }
    }

    // Gives the reducer back, with its numbers.
    pub fn into_reducer(self) -> R
        ensures { R.Reducer.numbers result ≡ (tape R.Reducer.numbers self []).numbers }
    {
        let Recorder { reducer, .. } = self;
        reducer
    }

    // Starts a recording. A refusal changes nothing.
    pub fn begin<K>(
        &mut self,
        sizes: Sizes,
        cores: &[K],
        cells: &[u16],
        store: &mut [u8],
    ) -> Result<(), Refusal>
        ensures outcome { record { says = begun_said result; leaves = tape R.Reducer.numbers self.new store.new } ≡ begun sizes (length cores.now) (length cells.now) (tape R.Reducer.numbers self.old store.old) }
        ensures refused { unmoved result self.old self.new }
    {
        let Some(checked) = CheckedSizes::to_begin(sizes, cores.len(), cells.len(), store.len())
        else {
            return Err(Refusal::BadSetting);
        };
        begin_logs(store, sizes);
        self.reducer.reset();
        self.history.forget();
        self.ledger = Ledger::new(checked);
        Ok(())
    }

    // Records that core `j` goes on with `request`: its arcs, its count and its end record.
    // Gives the count, and how many arcs were logged.
    fn enter(&mut self, store: &mut [u8], j: usize, request: Request) -> (u16, u16)
        requires fitting { fits (length store.old) self.old.ledger.sizes ≡ true }
        requires inside { j < self.old.ledger.sizes.cores }
        requires unbarred { barred (book self.old.ledger) j request ≡ 0 }
        ensures count { result.0 ≡ (log_in (book self.old.ledger) j).instructions + 1 }
        ensures entered { Entered R.Reducer.meets (tape R.Reducer.numbers self.old store.old) j request result.1 (tape R.Reducer.numbers self.new store.new) }
    {
        let Log {
            instructions,
            arcs,
            end,
        } = self.ledger.logs[j];
        let by = Access {
            core: j as u8,
            count: instructions + 1,
            position: self.ledger.position + 1,
        };
        let tail = Tail { offset: end, arcs };
        let mut log = CoreLog {
            store,
            sizes: self.ledger.sizes.get(),
            by,
            tail,
        };
        log.log_access(&mut self.reducer, &mut self.history, request);
        let behind = log.tail;
        log.end();
        self.ledger.count(j, behind.arcs, behind.offset);
        (by.count, behind.arcs - arcs)
    }

    // One turn of core `j`. A refusal changes nothing.
    pub fn turn<K: Core>(
        &mut self,
        text: &[u8],
        cores: &mut [K],
        cells: &mut [u16],
        store: &mut [u8],
        j: usize,
    ) -> Result<Recorded, Refusal>
        ensures outcome { Turned R.Reducer.meets (rules K.Core.next K.Core.after text.now) j (scene R.Reducer.numbers K.Core.state self.old cores.old cells.old store.old) (answered (said result) (scene R.Reducer.numbers K.Core.state self.new cores.new cells.new store.new)) }
        ensures others { kept result j cores.old cores.new }
        ensures surplus { SurplusKept self.old.ledger.sizes cores.old cores.new cells.old cells.new }
        ensures refused { unmoved result self.old self.new }
    {
        let sizes = self.ledger.sizes;
        if !sizes.held_by(cores.len(), cells.len(), store.len()) {
            return Err(Refusal::BadSetting);
        }
        if j >= sizes.get().cores {
            return Err(Refusal::NoSuchCore);
        }
        let mut core = cores[j];
        let request = core.ask(text);
        self.ledger.admit(j, request)?;
        let (count, arcs) = self.enter(store, j, request);
        let number = carry_out(&mut core, text, request, cells);
        cores[j] = core;
        Ok(Recorded {
            request,
            count,
            number,
            arcs,
        })
    }
}

// Holds the law that a reducer whose bounds leave it one choice gives each turn one outcome.
pub fn turns_are_decided<R: Reducer>()
    ensures { OneOutcome R.Reducer.meets }
{}
