// The logs of every recording obey the rules of logs.
#![tactic(auto)]

ghost use Rattle.lawful_logs.specs.Orderly.{TracesAreOrderly, NewIsOrderly, OrderlyIsAccepted};

use reducers::interface::Reducer;

// Holds the laws that after any calls of a recorder, from a new one on, all logs obey the rules,
// so that reading them accepts them with the counts of the recording.
pub fn recordings_are_accepted<R: Reducer>()
    ensures orderly { TracesAreOrderly R.Reducer.meets }
    ensures new { NewIsOrderly }
    ensures accepted { OrderlyIsAccepted }
{}
