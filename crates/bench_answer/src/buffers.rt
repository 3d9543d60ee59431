ghost use Rattle.std.specs.Prelude.{◌≡◌, true, map, vec_len, IfOk};
ghost use Rattle.records.specs.Settings.{can_begin};

use bench_input::input::Input;
use cores::interface::StartingCore;
use records::settings::Sizes;
use sessions::buffers::SessionBuffers;
use std::alloc::{AllocError, Global};

// The bytes of each core's log.
const LOG_BYTES: usize = 4096;

// A core at each starting item.
fn cores_at<K: StartingCore>(heap: Global, starts: &[u16]) -> Result<Vec<K>, AllocError>
    ensures { IfOk result (λ v. map K.Core.state v.items ≡ map K.StartingCore.first starts.now) }
{
    starts.iter().map(|place| K::new(*place)).collect(heap)
}

// All that a session takes memory for but its text: cores at their starting items, cells at 0, logs of 4,096 bytes, and what its
// replay needs.
#[derive(Drop)]
pub(crate) struct Space<K> {
    pub(crate) sizes: Sizes,
    pub(crate) cores: Vec<K>,
    pub(crate) cells: Vec<u16>,
    pub(crate) store: Vec<u8>,
    pub(crate) replay: SessionBuffers<K>,
    ghost each_core: { vec_len cores ≡ sizes.cores },
    ghost each_cell: { vec_len cells ≡ sizes.cells },
    ghost fitting: { can_begin sizes (vec_len cores) (vec_len cells) (vec_len store) ≡ true },
}

impl<K: StartingCore> Space<K> {
    ghost use Rattle.std.specs.Prelude.{replicate};
    ghost use Rattle.sessions.specs.Space.{suffices};
    ghost use Rattle.bench_answer.specs.Answer.{sizes_for};

    // Takes all of it, for the session that an input asks for.
    pub(crate) fn reserve(heap: Global, input: &Input) -> Result<Space<K>, AllocError>
        ensures sizes { IfOk result (λ s. s.sizes ≡ sizes_for input.now.cores input.now.cells) }
        ensures cores { IfOk result (λ s.
            map K.Core.state s.cores.items ≡ map K.StartingCore.first input.now.starts.items) }
        ensures cells { IfOk result (λ s. s.cells.items ≡ replicate input.now.cells 0) }
        ensures replay { IfOk result (λ s.
            suffices s.replay s.sizes (vec_len input.now.turns) 0 ≡ true) }
    {
        let sizes = Sizes {
            cores: input.cores,
            cells: input.cells,
            log_bytes: LOG_BYTES,
        };
        Ok(Space {
            sizes,
            cores: cores_at::<K>(heap, input.starts.as_slice())?,
            cells: vec![in heap; 0u16; sizes.cells]?,
            store: vec![in heap; 0u8; sizes.cores * LOG_BYTES]?,
            replay: SessionBuffers::reserve(heap, sizes, input.turns.len(), 0)?,
        })
    }
}
