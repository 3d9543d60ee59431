ghost use Rattle.logs.specs.RoundTrip.{ReadsBack};

// Holds the theorem that a log written as a head, arcs that obey the rules and an end reads back as exactly those.
pub fn written_logs_read_back()
    ensures { ReadsBack }
{}
