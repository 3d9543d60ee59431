// `bench` reads a session from standard input, records and replays it, and prints its arcs, its cells and its steps.
#![tactic(auto)]

use commands::answering::bench;
use commands::ran::Ran;
use worlds::outside::Outside;

fn main(rt: HostRuntime) -> Ran {
    bench(rt.alloc(), &mut Outside { rt: &rt })
}
