ghost use Rattle.std.specs.Prelude.{◌≡◌, ℕ, true, [], ◌∷◌, map, length, replicate, IfOk, string_bytes};
ghost use Rattle.bench_input.specs.Described.{described};
ghost use Rattle.bench_input.specs.Session.{session_of};
ghost use Rattle.bench_listing.specs.Lines.{text_of};
ghost use Rattle.cores.specs.Memory.{rules, start};
ghost use Rattle.replayer.specs.Answers.{run_numbers};
ghost use Rattle.bench_answer.specs.Answer.{sizes_for, reducer_for, decided_lines, session_lines, answer_lines, BadExactly};
ghost use Rattle.sessions.specs.Space.{suffices};
ghost use Rattle.bench_answer.specs.Told.{Kept, Told};

use crate::buffers::Space;
use bench_input::errors::InputError;
use bench_input::input::{Input, Kind, Reduction};
use bench_input::reading::read_input;
use bench_listing::listing::list_run;
use cores::interface::{Core, StartingCore};
use cores::register::RegisterCore;
use cores::script::ScriptCore;
use records::faults::Refusal;
use records::settings::Sizes;
use reducers::exact::Exact;
use reducers::interface::Reducer;
use reducers::keep_all::KeepAll;
use reducers::pairwise::Pairwise;
use replayer::answers::Ended;
use sessions::session::record_and_replay;
use std::alloc::{AllocError, Global};

// The steps of a run that finished.
fn finished_steps(ended: Result<Ended, Refusal>) -> u32
    ensures { (n : ℕ) → run_numbers ended ≡ 0 ∷ n ∷ [] → result ≡ n }
{
    match ended {
        Ok(Ended::Finished(steps)) => steps,
        // a replay of what was recorded always finishes
        Ok(Ended::Stopped(_)) | Err(_) => 0,
    }
}

// What a session leaves: its sizes, its cells, its logs, and how many steps their replay took.
#[derive(Drop)]
struct Run {
    sizes: Sizes,
    cells: Vec<u16>,
    store: Vec<u8>,
    steps: u32,
}

// Records the turns, and replays what was recorded. Takes no memory.
fn record<K: Core, R: Reducer + Drop>(
    space: Space<K>,
    reducer: R,
    text: &[u8],
    turns: &[usize],
) -> Run
    requires { suffices space.replay space.sizes (length turns.now) 0 ≡ true }
    ensures sizes { result.sizes ≡ space.sizes }
    ensures kept { Kept R.Reducer.meets (rules K.Core.next K.Core.after text.now) space.sizes
        (start space.cells.items (map K.Core.state space.cores.items)) turns.now
        result.store.items result.cells.items result.steps }
{
    let Space {
        sizes,
        mut cores,
        mut cells,
        mut store,
        replay,
    } = space;
    let session = match record_and_replay(
        replay,
        reducer,
        sizes,
        text,
        cores.as_mut_slice(),
        cells.as_mut_slice(),
        store.as_mut_slice(),
        turns,
        &[],
    ) {
        Ok(session) => session,
        // the sizes fit, and the space suffices
        Err(_) => unreachable(),
    };
    Run {
        sizes,
        cells,
        store,
        steps: finished_steps(session.ended),
    }
}

// The run that an input describes, with this kind of core and this reducer: cells at 0 and logs of 4,096 bytes.
fn run_session<K: StartingCore, R: Reducer + Drop>(
    heap: Global,
    input: &Input,
    reducer: R,
) -> Result<String, AllocError>
    ensures { IfOk result (λ s. Told R.Reducer.meets (rules K.Core.next K.Core.after input.now.text.items) (sizes_for input.now.cores input.now.cells) (start (replicate input.now.cells 0) (map K.StartingCore.first input.now.starts.items)) input.now.turns.items (string_bytes s)) }
{
    let space = Space::<K>::reserve(heap, input)?;
    let run = record(
        space,
        reducer,
        input.text.as_slice(),
        input.turns.as_slice(),
    );
    list_run(
        heap,
        run.store.as_slice(),
        run.sizes,
        run.cells.as_slice(),
        run.steps,
    )
}

// The same with the reducer that the input names.
fn run_kind<K: StartingCore>(heap: Global, input: &Input) -> Result<String, AllocError>
    ensures { IfOk result (λ s. string_bytes s ≡ text_of (decided_lines (reducer_for input.now.reduction) (rules K.Core.next K.Core.after input.now.text.items) (sizes_for input.now.cores input.now.cells) (start (replicate input.now.cells 0) (map K.StartingCore.first input.now.starts.items)) input.now.turns.items)) }
{
    match input.reduction {
        Reduction::KeepAll => run_session::<K, KeepAll>(heap, input, KeepAll),
        Reduction::Pairwise => run_session::<K, Pairwise>(heap, input, Pairwise::new()),
        Reduction::Exact => run_session::<K, Exact>(heap, input, Exact::new()),
    }
}

// The same with the kind of core that it names too.
fn run_input(heap: Global, input: &Input) -> Result<String, AllocError>
    ensures { IfOk result (λ s. string_bytes s ≡ text_of (session_lines (session_of input.now))) }
{
    match input.kind {
        Kind::Script => run_kind::<ScriptCore>(heap, input),
        Kind::Register => run_kind::<RegisterCore>(heap, input),
    }
}

// What the bench program prints for its input: the run that it describes, or bad.
pub fn answer(heap: Global, input: &[u8]) -> Result<String, AllocError>
    ensures text { IfOk result (λ s. string_bytes s ≡ text_of (answer_lines (described input.now))) }
    ensures bad { IfOk result (λ s. BadExactly input.now (string_bytes s)) }
{
    match read_input(heap, input) {
        Ok(described) => run_input(heap, &described),
        Err(InputError::Bad) => String::from_str(heap, "bad\n"),
        Err(InputError::NoMemory) => Err(AllocError),
    }
}
