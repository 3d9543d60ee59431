ghost use Rattle.recordings.specs.ByTheRules.{TurnsGoByTheRules, AnswersFeed};
ghost use Rattle.recordings.specs.Decided.{ArcsDecide, RulesDecide};
ghost use Rattle.recordings.specs.Surplus.{TurnsKeepTheSurplus};
ghost use Rattle.recordings.specs.Exact.{ExactRecordsTheReduction};
ghost use Rattle.recordings.specs.Refused.{RefusalsArePlain};
ghost use Rattle.recordings.specs.Sessions.{TracesAreRecorded, NewHasRecordedNothing};

use reducers::interface::Reducer;

// Holds the law that after any calls of a recorder, from a new one on, the cells, states and counts are those of the plain memory
// after the turns accepted since the last begin, the logs have the arcs of a recording of their run, and these decide what is refused.
pub fn calls_record_the_run<R: Reducer>()
    ensures traces { TracesAreRecorded R.Reducer.meets }
    ensures turns { TurnsGoByTheRules R.Reducer.meets }
    ensures arcs { ArcsDecide R.Reducer.meets }
    ensures decided { RulesDecide R.Reducer.meets }
    ensures surplus { TurnsKeepTheSurplus R.Reducer.meets }
    ensures refusals { RefusalsArePlain R.Reducer.meets }
    ensures fed { AnswersFeed R.Reducer.meets }
    ensures new { NewHasRecordedNothing R.Reducer.meets }
{}

// Holds the theorem that with the exact reducer the logs have exactly the transitive reduction between cores of the run.
pub fn exact_records_the_reduction()
    ensures { ExactRecordsTheReduction }
{}
