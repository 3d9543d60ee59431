// `inspect` as a process, called for a file that is not there: its status is 1, and nothing is on standard output.
#![tactic(auto)]

use commands::inspection::inspect;
use commands::ran::Ran;
use worlds::outside::Outside;

fn main(rt: HostRuntime) -> Ran {
    inspect(rt.alloc(), &mut Outside { rt: &rt })
}
