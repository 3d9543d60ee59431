ghost use Rattle.bench_input.specs.Described.{FindsTheDescribed};
ghost use Rattle.bench_input.specs.Worked.{WorkedInput, WorkedBad};

// Holds that a session is found in a text just if the text describes it, with worked texts.
pub fn input_is_as_described()
    ensures finds { FindsTheDescribed }
    ensures worked { WorkedInput }
    ensures bad { WorkedBad }
{}
