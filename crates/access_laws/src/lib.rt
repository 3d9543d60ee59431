// What the recorder remembers is what the run says, and its candidates are the run's.
#![tactic(auto)]

ghost use Rattle.access_laws.specs.Recalls.{NothingIsRecalledAtFirst, RememberingRecallsTheRun, CandidatesAreTheRuns};

// Holds the theorem that a history kept by remembering each access recalls the run, and gives its candidates in their order.
pub fn the_history_recalls_the_run()
    ensures first { NothingIsRecalledAtFirst }
    ensures kept { RememberingRecallsTheRun }
    ensures candidates { CandidatesAreTheRuns }
{}
