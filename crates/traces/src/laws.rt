ghost use Rattle.traces.specs.Recording.{TracesAreFaithful, NewIsFaithful};

use reducers::interface::Reducer;

// Holds the laws that after any calls of a recorder, from a new one on, the cells, states and counts are the plain memory's,
// and each log has the arcs of its core's turns since the begin.
pub fn recordings_are_faithful<R: Reducer>()
    ensures traces { TracesAreFaithful R.Reducer.meets }
    ensures new { NewIsFaithful }
{}
