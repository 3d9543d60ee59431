// The memory of a session: space for its answers, and for the cells and cores of its replay.
ghost use Rattle.std.specs.Prelude.{◌≡◌, true, vec_len, IfOk};

use cores::interface::Core;
use recorder::recording::Recorded;
use recorder::rules::Refusal;
use records::settings::Sizes;
use replayer::answers::{Done, StepRefusal};
use std::alloc::{AllocError, Global};

// The replay's cells and cores as they stand now, and space for them as they stood behind the steps.
#[derive(Drop)]
pub(crate) struct Room<K> {
    pub(crate) turns: Vec<Result<Recorded, Refusal>>,
    pub(crate) steps: Vec<Result<Done, StepRefusal>>,
    pub(crate) stepped_cells: Vec<u16>,
    pub(crate) stepped_cores: Vec<K>,
    pub(crate) cells: Vec<u16>,
    pub(crate) cores: Vec<K>,
}

// Space for the answers of so many turns and steps, and twice for so many cells and cores. Nothing is in it yet.
#[derive(Drop)]
pub struct SessionBuffers<K> {
    pub(crate) room: Room<K>,
    ghost no_turns: { vec_len room.turns ≡ 0 },
    ghost no_steps: { vec_len room.steps ≡ 0 },
    ghost no_stepped_cells: { vec_len room.stepped_cells ≡ 0 },
    ghost no_stepped_cores: { vec_len room.stepped_cores ≡ 0 },
    ghost no_cells: { vec_len room.cells ≡ 0 },
    ghost no_cores: { vec_len room.cores ≡ 0 },
}

impl<K: Core> SessionBuffers<K> {
    ghost use Rattle.sessions.specs.Space.{suffices};

    // Takes all memory that a session of these sizes, and with so many turns and steps, needs.
    pub fn reserve(
        heap: Global,
        sizes: Sizes,
        turns: usize,
        steps: usize,
    ) -> Result<SessionBuffers<K>, AllocError>
        ensures { IfOk result (λ space. suffices space sizes turns steps ≡ true) }
    {
        Ok(SessionBuffers {
            room: Room {
                turns: Vec::with_capacity(heap, turns)?,
                steps: Vec::with_capacity(heap, steps)?,
                stepped_cells: Vec::with_capacity(heap, sizes.cells)?,
                stepped_cores: Vec::with_capacity(heap, sizes.cores)?,
                cells: Vec::with_capacity(heap, sizes.cells)?,
                cores: Vec::with_capacity(heap, sizes.cores)?,
            },
        })
    }

    // Whether the space is enough for a session of these sizes, and with so many turns and steps.
    pub fn suffices(&self, sizes: Sizes, turns: usize, steps: usize) -> bool
        ensures { result ≡ suffices self.now sizes turns steps }
    {
        let room = &self.room;
        turns <= room.turns.capacity()
            && steps <= room.steps.capacity()
            && sizes.cells <= room.stepped_cells.capacity()
            && sizes.cores <= room.stepped_cores.capacity()
            && sizes.cells <= room.cells.capacity()
            && sizes.cores <= room.cores.capacity()
    }
}
