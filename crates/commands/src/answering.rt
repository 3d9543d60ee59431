ghost use Rattle.std.specs.Prelude.{MatchResult};
ghost use Rattle.worlds.specs.Worlds.{Known};
ghost use Rattle.commands.specs.Endings.{Ends, Disturbed};
ghost use Rattle.commands.specs.Bench.{Benched, bench_line};

use crate::ran::{Ending, Ran};
use bench_answer::answer::answer;
use std::alloc::Global;
use worlds::world::World;

fn say_answer<W: World>(heap: Global, world: &mut W) -> anyhow::Result<()>
    ensures { MatchResult result
        (λ _. Known (W.state world.old) (W.state world.new) Benched)
        (λ _. Known (W.state world.old) (W.state world.new) Disturbed) }
{
    let input = world.input()?;
    let text = answer(heap, input.as_slice())?;
    world.say(text)?;
    Ok(())
}

// Reads a session from standard input, records and replays it, and says its arcs, its cells and its steps.
pub fn bench<W: World>(heap: Global, world: &mut W) -> Ran
    ensures { Ends result.ending (W.state world.old) (W.state world.new) Benched bench_line }
{
    match say_answer(heap, world) {
        Ok(()) => Ran::new(Ending::Done),
        Err(e) => {
            world.complain(format_args!("bench: {e}"));
            Ran::new(Ending::Failed)
        }
    }
}
