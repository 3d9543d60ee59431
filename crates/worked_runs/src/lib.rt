// Runs worked through, over the definitions of begin, turn, opening, step and run.
#![tactic(auto)]

ghost use Rattle.worked_runs.specs.Runs.{WorkedRuns};

// Holds the eight worked runs together: the arcs with each reducer, the bytes of a log, a wait and a run, and the least log;
// and each answer of begin, turn, opening, step and run by its numbers, the order of a circle, and an arc to a done instruction.
pub fn the_worked_runs_hold()
    ensures { WorkedRuns }
{}
