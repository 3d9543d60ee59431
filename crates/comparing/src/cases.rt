ghost use Rattle.std.specs.Prelude.{◌≡◌, ◌+◌, ◌^◌, ◌<◌, cond, IfOk, string_bytes};
ghost use Rattle.comparing.specs.Cases.{answer_to, agrees, agreed, differed};

use bench_answer::answer::answer;
use listing::listing::list_logs;
use records::settings::Sizes;
use std::alloc::{AllocError, Global};

// What a program is asked: the input of the bench program, or a store and its sizes for the inspector.
#[derive(Drop)]
pub enum Asked {
    Bench { input: String },
    Inspect { store: Vec<u8>, sizes: Sizes },
}

// What is asked, and the text expected in answer.
#[derive(Drop)]
pub struct Case {
    pub asked: Asked,
    pub expected: String,
}

// How many cases agree, and how many differ.
#[derive(Clone, Copy)]
pub struct Tally {
    pub agreed: usize,
    pub differed: usize,
}

impl Tally {
    // With one case more.
    fn with(self, same: bool) -> Tally
        requires { self.agreed + self.differed + 1 < 2 ^ 64 }
        ensures agreed { result.agreed ≡ self.agreed + cond same 1 0 }
        ensures differed { result.differed ≡ self.differed + cond same 0 1 }
    {
        if same {
            Tally {
                agreed: self.agreed + 1,
                ..self
            }
        } else {
            Tally {
                differed: self.differed + 1,
                ..self
            }
        }
    }
}

fn answered(heap: Global, asked: &Asked) -> Result<String, AllocError>
    ensures { IfOk result (λ s. string_bytes s ≡ answer_to asked.now) }
{
    match asked {
        Asked::Bench { input } => answer(heap, input.as_bytes()),
        Asked::Inspect { store, sizes } => list_logs(heap, store.as_slice(), *sizes),
    }
}

fn agrees(heap: Global, case: &Case) -> Result<bool, AllocError>
    ensures { IfOk result (λ same. same ≡ agrees case.now) }
{
    Ok(answered(heap, &case.asked)?.as_bytes() == case.expected.as_bytes())
}

// Answers each case, and counts those whose answer is the one expected, byte for byte, and the others.
pub fn compare(heap: Global, cases: &[Case]) -> Result<Tally, AllocError>
    ensures agreed { IfOk result (λ tally. tally.agreed ≡ agreed cases.now) }
    ensures differed { IfOk result (λ tally. tally.differed ≡ differed cases.now) }
{
    let mut tally = Tally {
        agreed: 0,
        differed: 0,
    };
    for case in cases {
        tally = tally.with(agrees(heap, case)?);
    }
    Ok(tally)
}
