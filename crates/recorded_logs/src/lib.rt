// What the bytes of a store say after begin and after turns.
#![tactic(auto)]

ghost use Rattle.recorded_logs.specs.Held.{BeginHolds, TurnHolds, SurplusStays};

// Holds the law that begin makes every log one of no arcs, and leaves the bytes behind its end.
pub fn begin_starts_logs()
    ensures { BeginHolds }
{}

// Holds the laws that a turn adds its arcs to its core's log, and leaves the other logs and the bytes behind all logs.
pub fn turns_extend_logs()
    ensures logs { TurnHolds }
    ensures surplus { SurplusStays }
{}
