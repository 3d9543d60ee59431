// `inspect FILE P C L` lists what the log store in FILE holds, for P cores, C cells and L bytes a log.
#![tactic(auto)]

use commands::inspection::inspect;
use commands::ran::Ran;
use worlds::outside::Outside;

fn main(rt: HostRuntime) -> Ran {
    inspect(rt.alloc(), &mut Outside { rt: &rt })
}
