ghost use Rattle.std.specs.Prelude.{◌≡◌};
ghost use Rattle.accesses.specs.Histories.{candidate as candidate_of};

use records::format::Source;
use reducers::interface::AccessKind;

// One access to a cell: instruction `count` of `core`, in accepted turn `position`.
#[derive(Clone, Copy)]
pub struct Access {
    pub core: u8,
    pub count: u16,
    pub position: u32,
}

// An earlier access that a new one may have to follow.
#[derive(Clone, Copy)]
pub struct Candidate {
    pub source: Source,
    pub kind: AccessKind,
    pub position: u32,
}

impl Access {
    pub(crate) fn candidate(self, kind: AccessKind) -> Candidate
        ensures { result ≡ candidate_of self kind }
    {
        Candidate {
            source: Source {
                core: self.core,
                count: self.count,
            },
            kind,
            position: self.position,
        }
    }
}
