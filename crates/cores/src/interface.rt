// A core: what it asks next, and how an answer changes it.
ghost use Rattle.std.specs.Prelude.{◌≡◌, ℕ, List};
ghost use Rattle.cores.specs.Acting.{request_numbers};
ghost use Rattle.cores.specs.declared.interface.Request.{Request};
ghost use Rattle.cores.specs.declared.interface.Request.TheVariants.{Halt};

// What a core asks next.
#[derive(Clone, Copy, PartialEq, Eq, Debug)]
pub enum Request {
    Halt,
    Local,
    Read { cell: u16 },
    Write { cell: u16, number: u16 },
    Exchange { cell: u16, number: u16 },
}

// A kind of core: a plain value with a state, and two rules over text and state. A new kind owes `ask` and `tell` equal to its rules.
pub trait Core: Copy {
    ghost state: { Self → List ℕ };

    // The next request.
    ghost next: { List ℕ → List ℕ → Request };

    // The state after the request, from the number brought.
    ghost after: { List ℕ → List ℕ → ℕ → List ℕ };

    // Answers the next request, by its number and values, and changes nothing.
    fn ask(&self, text: &[u8]) -> Request
        ensures { request_numbers result ≡ request_numbers (next text.now (state self.now)) };

    // Replaces the state by the one after the request.
    fn tell(&mut self, text: &[u8], number: u16)
        ensures { state self.new ≡ after text.now (state self.old) number };

    // A halted core keeps its state.
    ghost rests: { (text : List ℕ) (s : List ℕ) (n : ℕ) → next text s ≡ Halt → after text s n ≡ s };
}

// A kind of core that can be made from its first item alone.
pub trait StartingCore: Core {
    // The state at a first item, before any instruction.
    ghost first: { ℕ → List ℕ };

    fn new(place: u16) -> Self
        ensures { Self.state result ≡ first place };
}
