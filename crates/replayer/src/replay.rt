ghost use Rattle.std.specs.Prelude.{◌≡◌, ◌<◌, [], ◌∷◌, map, length, slice_index};
ghost use Rattle.logs.specs.Lawful.{Accepted};
ghost use Rattle.logs.specs.Session.{no_counts, done_as};
ghost use Rattle.records.specs.Settings.{no_sizes, SurplusKept};
ghost use Rattle.replayer.specs.Answers.{step_numbers, run_numbers};
ghost use Rattle.replayer.specs.Damaged.{StepExactly};
ghost use Rattle.replayer.specs.Steps.{started, reopened, Bars, Grouped, WentOn, stepped, StepKept};
ghost use Rattle.replayer.specs.Runs.{left, session, circled, ran, RunKept, Awaits, AllAwait};

use crate::answers::{Done, Ended, StepRefusal};
use crate::group::{Group, read_group};
use cores::acting::{carry_out, cell_exists};
use cores::interface::{Core, Request};
use logs::session::read_logs;
use records::faults::Refusal;
use records::format::Source;
use records::reading::{SavedPlace, number_of};
use records::settings::{CheckedSizes, Sizes};

// A replay of a session's logs: its sizes, each core's recorded instructions and how many of them are done,
// and the place in each log behind the arcs to those.
#[derive(Clone, Copy)]
pub struct Replayer {
    sizes: CheckedSizes,
    counts: [u16; 4],
    done: [u16; 4],
    places: [SavedPlace; 4],
}

// The place behind a log's head.
const BEHIND_HEAD: SavedPlace = SavedPlace {
    offset: 6,
    last: 0,
    latest: [0; 4],
    arcs: 0,
};

// A replay with nothing done.
fn start(sizes: CheckedSizes, counts: [u16; 4]) -> Replayer
    ensures { result ≡ started sizes counts }
{
    Replayer {
        sizes,
        counts,
        done: [0; 4],
        places: [BEHIND_HEAD; 4],
    }
}

impl Replayer {
    // A replayer before any opening, which refuses every step.
    pub fn new() -> Replayer
        ensures { result ≡ started no_sizes no_counts }
    {
        start(CheckedSizes::none(), [0; 4])
    }

    // Reads all logs; then a replay starts with nothing done. A refusal keeps the former replay.
    pub fn open<K>(
        &mut self,
        sizes: Sizes,
        cores: &[K],
        cells: &[u16],
        store: &[u8],
    ) -> Result<(), Refusal>
        ensures outcome { record { says = done_as result; replayer = self.new } ≡ reopened self.old sizes (length cores.now) (length cells.now) store.now }
        ensures accepted { done_as result ≡ 0 ∷ [] → Accepted store.now sizes self.new.counts }
    {
        let Some(checked) = CheckedSizes::to_open(sizes, cores.len(), cells.len(), store.len())
        else {
            return Err(Refusal::BadSetting);
        };
        let counts = read_logs(store, sizes)?;
        *self = start(checked, counts);
        Ok(())
    }

    // Refuses where core `j` has no step to make, whatever its log says.
    #[inline(always)]
    fn bars(
        &self,
        cores: usize,
        cells: usize,
        store_bytes: usize,
        j: usize,
    ) -> Result<(), StepRefusal>
        ensures { Bars result self.now cores cells store_bytes j }
    {
        if !self.sizes.held_by(cores, cells, store_bytes) {
            return Err(StepRefusal::BadSetting);
        }
        if j >= self.sizes.get().cores {
            return Err(StepRefusal::NoSuchCore);
        }
        if self.done[j] >= self.counts[j] {
            return Err(StepRefusal::Replayed);
        }
        Ok(())
    }

    // The arcs to the next instruction of core `j`, where it has one left.
    #[inline(always)]
    fn group(
        &self,
        cores: usize,
        cells: usize,
        store: &[u8],
        j: usize,
    ) -> Result<Group, StepRefusal>
        ensures { Grouped result self.now cores cells store.now j }
    {
        self.bars(cores, cells, store.len(), j)?;
        let place = self.places[j];
        Ok(read_group(store, self.sizes.get(), j, place, &self.counts, &self.done)?)
    }

    // Counts the next instruction of core `j`, whose place moves behind the arcs to it, and gives the count.
    // Where a source is not done, or the request is a halt or names no cell, nothing changes.
    #[inline(always)]
    fn go_on(&mut self, j: usize, group: Group, request: Request) -> Result<u16, StepRefusal>
        requires { (j < 4) × (slice_index self.old.done j < slice_index self.old.counts j) }
        ensures { WentOn result self.old j group request self.new }
    {
        if let Some(source) = group.waits {
            return Err(StepRefusal::Waits(source));
        }
        if request == Request::Halt {
            return Err(StepRefusal::Halted);
        }
        if !cell_exists(request, self.sizes.get().cells) {
            return Err(StepRefusal::NoSuchCell);
        }
        self.done[j] += 1;
        self.places[j] = group.place;
        Ok(self.done[j])
    }

    // One step of core `j`: the arcs to its next instruction are read and the core is asked, and where the source
    // of each arc is done, memory acts and the core is told. A refused or waiting step changes nothing.
    #[inline(always)]
    pub fn step<K: Core>(
        &mut self,
        text: &[u8],
        cores: &mut [K],
        cells: &mut [u16],
        store: &[u8],
        j: usize,
    ) -> Result<Done, StepRefusal>
        ensures outcome { record { says = step_numbers result; replayer = self.new; cells = cells.new; states = map K.Core.state cores.new } ≡ stepped K.Core.next K.Core.after text.now self.old cells.old (map K.Core.state cores.old) store.now j }
        ensures exactly { StepExactly self.old (length cores.old) (length cells.old) store.now j
            (step_numbers result) }
        ensures others { StepKept result j cores.old cores.new }
        ensures surplus { SurplusKept self.old.sizes cores.old cores.new cells.old cells.new }
    {
        let group = self.group(cores.len(), cells.len(), store, j)?;
        let mut core = cores[j];
        let request = core.ask(text);
        let count = self.go_on(j, group, request)?;
        let number = carry_out(&mut core, text, request, cells);
        cores[j] = core;
        Ok(Done {
            request,
            count,
            number,
        })
    }

    // One step of core `j`, which reads nothing where the source that the core is known to wait for is not done.
    // From then on it is known what the core waits for.
    fn step_or_wait<K: Core>(
        &mut self,
        text: &[u8],
        cores: &mut [K],
        cells: &mut [u16],
        store: &[u8],
        j: usize,
        known: &mut Option<Source>,
    ) -> Result<Done, StepRefusal>
        requires { Awaits store.now self.old (length cores.old) (length cells.old) j known.old }
        ensures outcome { let states = map K.Core.state cores.old in
            let told = map K.Core.state cores.new in
            let said = step_numbers result in
            record { says = said; replayer = self.new; cells = cells.new; states = told }
            ≡ stepped K.Core.next K.Core.after text.now self.old cells.old states store.now j }
        ensures surplus { SurplusKept self.old.sizes cores.old cores.new cells.old cells.new }
        ensures waits { Awaits store.now self.new (length cores.old) (length cells.old) j known.new }
    {
        if let Some(source) = *known {
            if number_of(&self.done, source.core) < source.count {
                return Err(StepRefusal::Waits(source));
            }
        }
        let step = self.step(text, cores, cells, store, j);
        *known = match step {
            Err(StepRefusal::Waits(source)) => Some(source),
            _ => None,
        };
        step
    }

    // How many recorded instructions are left.
    fn left(&self) -> u32
        ensures { result ≡ left self.now }
    {
        self.counts
            .iter()
            .zip(&self.done)
            .take(self.sizes.get().cores)
            .map(|(count, done)| u32::from(count.saturating_sub(*done)))
            .sum()
    }

    // One step of each core in order, but where it is known to wait; how many were carried out.
    fn circle<K: Core>(
        &mut self,
        text: &[u8],
        cores: &mut [K],
        cells: &mut [u16],
        store: &[u8],
        known: &mut [Option<Source>; 4],
    ) -> u32
        requires { AllAwait store.now self.old (length cores.old) (length cells.old) known.old }
        ensures circled { session result self.new cells.new (map K.Core.state cores.new) ≡ circled K.Core.next K.Core.after text.now store.now self.old.sizes.cores 0 (session 0 self.old cells.old (map K.Core.state cores.old)) }
        ensures surplus { SurplusKept self.old.sizes cores.old cores.new cells.old cells.new }
        ensures wait { AllAwait store.now self.new (length cores.old) (length cells.old) known.new }
    {
        let mut carried = 0;
        for j in 0..self.sizes.get().cores {
            let step = self.step_or_wait(text, cores, cells, store, j, &mut known[j]);
            if step.is_ok() {
                carried += 1;
            }
        }
        carried
    }

    // Steps of all cores in circles, until nothing recorded is left or a whole circle carried nothing out.
    pub fn run<K: Core>(
        &mut self,
        text: &[u8],
        cores: &mut [K],
        cells: &mut [u16],
        store: &[u8],
    ) -> Result<Ended, Refusal>
        ensures outcome { record { says = run_numbers result; replayer = self.new; cells = cells.new; states = map K.Core.state cores.new } ≡ ran K.Core.next K.Core.after text.now store.now self.old cells.old (map K.Core.state cores.old) }
        ensures surplus { SurplusKept self.old.sizes cores.old cores.new cells.old cells.new }
        ensures refused { RunKept result cores.old cores.new }
    {
        if !self.sizes.held_by(cores.len(), cells.len(), store.len()) {
            return Err(Refusal::BadSetting);
        }
        let total = self.left();
        let mut steps = 0;
        // what each core is known to wait for: only steps of this run change what is done
        let mut known = [None; 4];
        while steps < total {
            let moved = self.circle(text, cores, cells, store, &mut known);
            if moved == 0 {
                return Ok(Ended::of(steps, total));
            }
            steps += moved;
        }
        Ok(Ended::of(steps, total))
    }
}
