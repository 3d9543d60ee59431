// The theory of runs: what recordings keep of the order of a run, and what replays of them show.
#![tactic(auto)]

ghost use Rattle.std.specs.Prelude.{◌≡◌, ℕ, List};
ghost use Rattle.cores.specs.Memory.{Rules, rules};
ghost use Rattle.reducers.specs.Numbers.{◌⊑◌};
ghost use Rattle.runs.specs.Theorems.{NoOrderingLost, LogsAreLawful, LogsFew, ExactLogsTheReduction, KnownMeansBefore, ExactIsLeast, DroppingLosesAnOrdering, CountsAgree, ReplayAgrees, ReplayOfARecordingAgrees, RecordingsExist, ThreeReducersAreBounded, ThreeReducersAreDecided, WaitsForSources, OwnLogIsEnough, PlacesKeepTheOrder, NewestFirst, CandidatesByCores};
ghost use Rattle.runs.specs.Logged.{KeepAllLogsEveryCandidate, PairwiseLogsWhatIsNewer, TargetsAreLatestFirst};
ghost use Rattle.runs.specs.Worked.{CurrentKnowledgeLosesAnOrdering};

use cores::interface::Core;
use reducers::interface::Reducer;

// With any reducer within its bounds, program order and the logged arcs give exactly the order of the run.
pub fn no_ordering_is_lost()
    ensures { NoOrderingLost ◌⊑◌ }
{}

// The same with a reducer of any type.
pub fn no_ordering_is_lost_with<R: Reducer>()
    ensures { NoOrderingLost R.Reducer.meets }
{}

// Every arc is a conflict of the run, between instructions that it has; targets never fall, and none has two sources of one core.
pub fn logs_are_lawful()
    ensures { LogsAreLawful ◌⊑◌ }
{}

// An access logs at most one arc from each other core.
pub fn an_access_logs_few_arcs()
    ensures { LogsFew ◌⊑◌ }
{}

// With the exact reducer the logged arcs are exactly the reduction between cores, each once.
pub fn exact_logs_the_reduction()
    ensures { ExactLogsTheReduction }
{}

// The exact reducer's known numbers say what is before some instruction of a core.
pub fn known_means_before()
    ensures { KnownMeansBefore }
{}

// Whatever arcs keep the order of a run hold every arc that the exact reducer logs.
pub fn exact_is_least()
    ensures { ExactIsLeast }
{}

// Without one of the arcs that the exact reducer logs, the others lose an ordering of the run.
pub fn dropping_an_arc_loses_an_ordering()
    ensures { DroppingLosesAnOrdering }
{}

// The counts of the plain memory are those of its run.
pub fn the_run_counts_as_the_memory()
    ensures { CountsAgree }
{}

// Replays over arcs that lead forward and order every conflict agree with the plain memory, whatever the order of their steps, and finish.
pub fn replay_agrees()
    ensures { ReplayAgrees }
{}

// So do replays over the arcs of a recording, for every kind of core and with any reducer within its bounds.
pub fn replay_of_a_recording_agrees()
    ensures { (K : Rules) → ReplayOfARecordingAgrees ◌⊑◌ K }
{}

// The same with cores and a reducer of any type.
pub fn recordings_replay<K: Core, R: Reducer>()
    ensures { (text : List ℕ) → ReplayOfARecordingAgrees R.Reducer.meets (rules K.Core.next K.Core.after text) }
{}

// Whatever the run and the reducer, there is a recording; with the exact reducer too.
pub fn recordings_exist()
    ensures { RecordingsExist ◌⊑◌ × RecordingsExist ◌≡◌ }
{}

// The exact, the pairwise and the keep-all reducer are within the bounds.
pub fn three_reducers_are_bounded()
    ensures { ThreeReducersAreBounded }
{}

// What the exact, the pairwise and the keep-all reducer log is decided by the run.
pub fn three_reducers_are_decided()
    ensures { ThreeReducersAreDecided }
{}

// The keep-all reducer logs every candidate of every turn.
pub fn keep_all_logs_every_candidate()
    ensures { KeepAllLogsEveryCandidate }
{}

// The pairwise reducer logs each candidate whose count is above every one logged from its core to the turn's.
pub fn pairwise_logs_what_is_newer()
    ensures { PairwiseLogsWhatIsNewer }
{}

// With a reducer of any type, the arcs to one target are logged from the latest position first.
pub fn arcs_of_one_target_are_latest_first<R: Reducer>()
    ensures { TargetsAreLatestFirst R.Reducer.meets }
{}

// A core waits exactly while the source of some arc to its next instruction is not done.
pub fn a_core_waits_for_sources_not_done()
    ensures { WaitsForSources }
{}

// Whether a core waits depends on the arcs to its next instruction alone, in whatever order; so its own log is enough.
pub fn its_own_log_is_enough_for_a_core()
    ensures { OwnLogIsEnough }
{}

// Conflicts at places, whatever the place of each cell, keep at least the order of conflicts at cells.
pub fn places_keep_the_order_of_cells()
    ensures { PlacesKeepTheOrder }
{}

// The candidates of a turn are each core's, the latest position first.
pub fn candidates_are_newest_first()
    ensures { NewestFirst }
{}

// Asking what is remembered of each core and ordering by position finds them.
pub fn candidates_are_found_by_cores()
    ensures { CandidatesByCores }
{}

// With the source core's current knowledge in place of its stamp, a conflict of a given run is not ordered.
pub fn current_knowledge_loses_an_ordering()
    ensures { CurrentKnowledgeLosesAnOrdering }
{}
