ghost use Rattle.std.specs.Prelude.{◌≡◌, ◌<◌, ◌≤◌, [], map, reverse, length, vec_len, vec_capacity};
ghost use Rattle.std.specs.List.{AllByRecursion};
ghost use Rattle.cores.specs.Memory.{rules};
ghost use Rattle.records.specs.Settings.{SurplusKept};
ghost use Rattle.logs.specs.Session.{done_as};
ghost use Rattle.recorder.specs.Turns.{scene, said};
ghost use Rattle.recordings.specs.ByTheRules.{InARow};
ghost use Rattle.replayer.specs.Answers.{step_numbers, run_numbers};
ghost use Rattle.sessions.specs.Replaying.{first_opening, said_by_steps, behind_steps, run_behind};
ghost use Rattle.sessions.specs.Whole.{buffers as buffers_of, ComesTo, CoresKept};

use crate::buffers::{Room, SessionBuffers};
use cores::interface::Core;
use recorder::recording::{Recorded, Recorder};
use recorder::rules::Refusal;
use records::faults::Refusal as LogRefusal;
use records::settings::{Sizes, can_begin};
use reducers::interface::Reducer;
use replayer::answers::{Done, Ended, StepRefusal};
use replayer::replay::Replayer;

// What every turn, the opening, every step and the run answered; the replay's cells and cores behind the steps (`stepped_cells`,
// `stepped_cores`) and behind the run (`cells`, `cores`); and the reducer.
#[derive(Drop)]
pub struct Session<K, R> {
    pub turns: Vec<Result<Recorded, Refusal>>,
    pub opened: Result<(), LogRefusal>,
    pub steps: Vec<Result<Done, StepRefusal>>,
    pub stepped_cells: Vec<u16>,
    pub stepped_cores: Vec<K>,
    pub ended: Result<Ended, LogRefusal>,
    pub cells: Vec<u16>,
    pub cores: Vec<K>,
    pub reducer: R,
}

// There is no session: the refusal, and what was handed in, unused.
#[derive(Drop)]
pub struct NoSession<K, R> {
    pub refusal: Refusal,
    pub reducer: R,
    pub buffers: SessionBuffers<K>,
}

// Puts copies of the items into a vector that is empty and has room for them.
fn fill<T: Copy>(to: &mut Vec<T>, items: &[T])
    requires { (vec_len to.old ≡ 0) × (length items.now ≤ vec_capacity to.old) }
    ensures { to.new.items ≡ items.now }
{
    to.extend_from_slice(items).unwrap();
}

impl<K: Core> Room<K> {
    // Takes the turns in order, and puts what each answers into the room for it.
    fn record<R: Reducer>(
        &mut self,
        recorder: &mut Recorder<R>,
        text: &[u8],
        cores: &mut [K],
        cells: &mut [u16],
        store: &mut [u8],
        turns: &[usize],
    )
        requires { (self.old.turns.items ≡ []) × (length turns.now ≤ vec_capacity self.old.turns) }
        ensures row { InARow R.Reducer.meets (rules K.Core.next K.Core.after text.now) (scene R.Reducer.numbers K.Core.state recorder.old cores.old cells.old store.old) (reverse turns.now) (reverse (map said self.new.turns.items)) (scene R.Reducer.numbers K.Core.state recorder.new cores.new cells.new store.new) }
        ensures surplus { SurplusKept recorder.old.ledger.sizes cores.old cores.new cells.old cells.new }
        ensures others { (self.new.steps ≡ self.old.steps) × (self.new.stepped_cells ≡ self.old.stepped_cells) × (self.new.stepped_cores ≡ self.old.stepped_cores) × (self.new.cells ≡ self.old.cells) × (self.new.cores ≡ self.old.cores) }
    {
        for &j in turns {
            self.turns
                .push_reserved(recorder.turn(text, cores, cells, store, j));
        }
    }

    // Opens the logs with the copies, takes the steps in order, copies what they left, and runs to the end.
    fn replay<R>(
        mut self,
        reducer: R,
        sizes: Sizes,
        text: &[u8],
        store: &[u8],
        steps: &[usize],
    ) -> Session<K, R>
        requires answers { (self.steps.items ≡ []) × (length steps.now ≤ vec_capacity self.steps) }
        requires cells { (vec_len self.stepped_cells ≡ 0) × (vec_len self.cells ≤ vec_capacity self.stepped_cells) }
        requires cores { (vec_len self.stepped_cores ≡ 0) × (vec_len self.cores ≤ vec_capacity self.stepped_cores) }
        ensures turns { (result.turns ≡ self.turns) × (result.reducer ≡ reducer) }
        ensures opened { done_as result.opened ≡ (first_opening sizes self.cells.items (map K.Core.state self.cores.items) store.now).says }
        ensures said { map step_numbers result.steps.items ≡ said_by_steps K.Core.next K.Core.after text.now store.now sizes self.cells.items (map K.Core.state self.cores.items) steps.now }
        ensures stepped_cells { result.stepped_cells.items ≡ (behind_steps K.Core.next K.Core.after text.now store.now sizes self.cells.items (map K.Core.state self.cores.items) steps.now).cells }
        ensures stepped_states { map K.Core.state result.stepped_cores.items ≡ (behind_steps K.Core.next K.Core.after text.now store.now sizes self.cells.items (map K.Core.state self.cores.items) steps.now).states }
        ensures ended { run_numbers result.ended ≡ (run_behind K.Core.next K.Core.after text.now store.now sizes self.cells.items (map K.Core.state self.cores.items) steps.now).says }
        ensures cells { result.cells.items ≡ (run_behind K.Core.next K.Core.after text.now store.now sizes self.cells.items (map K.Core.state self.cores.items) steps.now).cells }
        ensures states { map K.Core.state result.cores.items ≡ (run_behind K.Core.next K.Core.after text.now store.now sizes self.cells.items (map K.Core.state self.cores.items) steps.now).states }
        ensures octets { AllByRecursion (λ b. b < 256) store.now }
        ensures stepped_lengths { (length result.stepped_cells.items ≡ length self.cells.items) × (length result.stepped_cores.items ≡ length self.cores.items) }
        ensures lengths { (length result.cells.items ≡ length self.cells.items) × (length result.cores.items ≡ length self.cores.items) }
    {
        let mut replayer = Replayer::new();
        let cores = self.cores.as_mut_slice();
        let cells = self.cells.as_mut_slice();
        let opened = replayer.open(sizes, cores, cells, store);
        for &j in steps {
            self.steps
                .push_reserved(replayer.step(text, cores, cells, store, j));
        }
        fill(&mut self.stepped_cells, cells);
        fill(&mut self.stepped_cores, cores);
        let ended = replayer.run(text, cores, cells, store);
        Session {
            turns: self.turns,
            opened,
            steps: self.steps,
            stepped_cells: self.stepped_cells,
            stepped_cores: self.stepped_cores,
            ended,
            cells: self.cells,
            cores: self.cores,
            reducer,
        }
    }
}

// Records the turns of a session, opens what they recorded with copies of the cores and cells from before,
// takes the steps and runs to the end. Takes no memory but what was reserved.
pub fn record_and_replay<K: Core, R: Reducer>(
    buffers: SessionBuffers<K>,
    reducer: R,
    sizes: Sizes,
    text: &[u8],
    cores: &mut [K],
    cells: &mut [u16],
    store: &mut [u8],
    turns: &[usize],
    steps: &[usize],
) -> Result<Session<K, R>, NoSession<K, R>>
    ensures outcome { ComesTo R.Reducer.numbers K.Core.state R.Reducer.meets (rules K.Core.next K.Core.after text.now) sizes buffers reducer turns.now steps.now (buffers_of cells.old (map K.Core.state cores.old) store.old) (buffers_of cells.new (map K.Core.state cores.new) store.new) result }
    ensures others { CoresKept sizes cores.old cores.new result }
{
    if !can_begin(sizes, cores.len(), cells.len(), store.len())
        || !buffers.suffices(sizes, turns.len(), steps.len())
    {
        return Err(NoSession {
            refusal: Refusal::BadSetting,
            reducer,
            buffers,
        });
    }
    let SessionBuffers { mut room } = buffers;
    fill(&mut room.cells, &cells[..sizes.cells]);
    fill(&mut room.cores, &cores[..sizes.cores]);
    let mut recorder = Recorder::new(reducer);
    // the sizes fit
    recorder.begin(sizes, cores, cells, store).unwrap();
    room.record(&mut recorder, text, cores, cells, store, turns);
    Ok(room.replay(recorder.into_reducer(), sizes, text, store, steps))
}
