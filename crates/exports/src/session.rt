ghost use Rattle.std.specs.Prelude.{◌≡◌, map};
ghost use Rattle.exports.specs.Sessions.{sizes_of};

use cores::interface::StartingCore;
use records::settings::Sizes;

// A session, by numbers: kind 0 for script cores, else register cores; reducer 0 for keep-all, 1 for pairwise, else exact;
// the sizes; and the items at which four cores start, of which the session has the first ones.
#[repr(C)]
#[derive(Clone, Copy)]
pub struct Session {
    pub kind: u32,
    pub reducer: u32,
    pub cores: usize,
    pub cells: usize,
    pub log_bytes: usize,
    pub places: [u16; 4],
}

impl Session {
    pub(crate) fn sizes(&self) -> Sizes
        ensures { result ≡ sizes_of self.now }
    {
        Sizes {
            cores: self.cores,
            cells: self.cells,
            log_bytes: self.log_bytes,
        }
    }

    // A core at each starting item.
    pub(crate) fn starting_cores<K: StartingCore>(&self) -> [K; 4]
        ensures { map K.Core.state result ≡ map K.StartingCore.first self.now.places }
    {
        self.places.map(|place| K::new(place))
    }
}
