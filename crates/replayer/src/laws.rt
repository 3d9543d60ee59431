ghost use Rattle.replayer.specs.Damaged.{StepsNameFirstFaults, GroupFaultsAreFirst, StepsNameTheLogsFirstFaults};
ghost use Rattle.replayer.specs.Following.{OpeningFollows, StepReads, StepWaits, StepsFollow, RunsFollow};
ghost use Rattle.replayer.specs.GroupFaults.{GroupsReadExactly};
ghost use Rattle.replayer.specs.Runs.{RunsStopExactly};
ghost use Rattle.replayer.specs.Memories.{StepsAlike, StepsPlay, RunsPlay};

// Holds the theorems that a replay follows its logs: from an accepted opening on, a step reads exactly the arcs
// to its core's next instruction, and steps and runs keep each place behind the arcs of what is done.
pub fn replays_follow_their_logs()
    ensures opening { OpeningFollows }
    ensures reads { StepReads }
    ensures waits { StepWaits }
    ensures steps { StepsFollow }
    ensures runs { RunsFollow }
{}

// Holds the laws of damaged logs: over any bytes, the arcs to a core's next instruction are refused exactly for the
// first fault among them and read exactly as they stand, and a step says so. Where the core's log is intact up to
// its place, that fault is the first of the whole log.
pub fn steps_name_first_faults()
    ensures groups { GroupsReadExactly }
    ensures steps { StepsNameFirstFaults }
    ensures first { GroupFaultsAreFirst }
    ensures log { StepsNameTheLogsFirstFaults }
{}

// Holds the law that a run stops exactly if, where it ends, something is left and no core's step is carried out.
pub fn runs_stop_where_nothing_goes()
    ensures { RunsStopExactly }
{}

// Holds the theorems that replaying is running: a step is an accepted turn of the plain memory or leaves it as it was,
// and so any steps, and a run, leave what as many accepted turns leave.
pub fn replays_run_the_plain_memory()
    ensures alike { StepsAlike }
    ensures steps { StepsPlay }
    ensures runs { RunsPlay }
{}
