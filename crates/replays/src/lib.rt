// What was recorded replays as it ran: no dropped ordering was needed.
#![tactic(auto)]

ghost use Rattle.std.specs.Prelude.{ℕ, List};
ghost use Rattle.replays.specs.Promise.{NoDroppedOrderingWasNeeded};

use cores::interface::Core;
use reducers::interface::Reducer;

// Holds the theorem that no dropped ordering was needed, for any kind of core and any reducer: whatever calls a recorder
// answered, its bytes are accepted with the cells and states that were there before, and whatever steps follow, each agrees
// with the plain memory, and a run from there on finishes with the plain memory.
pub fn no_dropped_ordering_was_needed<K: Core, R: Reducer>()
    ensures { (text : List ℕ) → NoDroppedOrderingWasNeeded R.Reducer.meets K.Core.next K.Core.after text }
{}
