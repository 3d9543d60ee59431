// With a reducer whose bounds leave it one choice, as each of the three, a turn has one outcome.
#![tactic(auto)]

ghost use Rattle.std.specs.Prelude.{◌≡◌};
ghost use Rattle.cores.specs.Memory.{rules};
ghost use Rattle.recorder.specs.Decided.{turned_by};
ghost use Rattle.reducers.specs.Decided.{Decides, exactly, nothing};
ghost use Rattle.recorder.specs.Turns.{scene, answered, said, kept, unmoved};
ghost use Rattle.records.specs.Settings.{SurplusKept};
ghost use Rattle.reducers.specs.Numbers.{Numbers};
ghost use Rattle.reducers.specs.Rows.{known_only};
ghost use borrow.Author.Rules.{of_blocks};

use cores::interface::Core;
use recorder::recording::{Recorded, Recorder};
use recorder::rules::Refusal;
use reducers::exact::Exact;
use reducers::interface::Reducer;
use reducers::keep_all::KeepAll;
use reducers::pairwise::Pairwise;

// A reducer whose bounds leave it one choice.
pub trait Decided: Reducer {
    // What the reducer makes of a bound.
    ghost choice: { Numbers → Numbers };

    // What meets a bound is what `choice` makes of it.
    ghost decides: { Decides Self.meets choice };
}

impl Decided for Exact {
    ghost choice = { exactly };

    ghost decides = { Prim.search of_blocks };
}

impl Decided for KeepAll {
    ghost choice = { nothing };

    ghost decides = { Prim.search of_blocks };
}

impl Decided for Pairwise {
    ghost choice = { known_only };

    ghost decides = { Prim.search of_blocks };
}

// A turn with such a reducer.
pub fn decided_turn<K: Core, R: Decided>(
    recorder: &mut Recorder<R>,
    text: &[u8],
    cores: &mut [K],
    cells: &mut [u16],
    store: &mut [u8],
    j: usize,
) -> Result<Recorded, Refusal>
    ensures outcome { answered (said result) (scene R.Reducer.numbers K.Core.state recorder.new cores.new cells.new store.new) ≡ turned_by R.Decided.choice (rules K.Core.next K.Core.after text.now) j (scene R.Reducer.numbers K.Core.state recorder.old cores.old cells.old store.old) }
    ensures others { kept result j cores.old cores.new }
    ensures surplus { SurplusKept recorder.old.ledger.sizes cores.old cores.new cells.old cells.new }
    ensures refused { unmoved result recorder.old recorder.new }
{
    recorder.turn(text, cores, cells, store, j)
}
