// `bench` as a process, with an empty standard input, which describes no session.
#![tactic(auto)]

use commands::answering::bench;
use commands::ran::Ran;
use worlds::outside::Outside;

fn main(rt: HostRuntime) -> Ran {
    bench(rt.alloc(), &mut Outside { rt: &rt })
}
