ghost use Rattle.std.specs.Prelude.{◌≡◌, map, Some, IfOk, MatchResult, string_bytes};
ghost use Rattle.listing.specs.Words.{argument};
ghost use Rattle.worlds.specs.Worlds.{Known, Stays};
ghost use Rattle.commands.specs.Endings.{Ends, Disturbed};
ghost use Rattle.commands.specs.Inspect.{Asks, HoldsText, Inspected, inspect_line};

use crate::ran::{Ending, Ran};
use anyhow::{Context, anyhow, bail};
use listing::listing::list_logs;
use listing::words::number_of;
use records::settings::Sizes;
use std::alloc::Global;
use worlds::world::World;

// The number of an argument, which goes by `name`.
fn number(name: &str, word: &str) -> anyhow::Result<usize>
    ensures { IfOk result (λ n. argument word.now ≡ Some n) }
{
    number_of(word.as_bytes()).context(format_args!(
        "{name} is no number from 0 to 65535: {word:?}"
    ))
}

// What the arguments ask for: the log store in a file, with these sizes.
#[derive(Clone, Copy)]
struct Question<'a> {
    file: &'a str,
    sizes: Sizes,
}

fn asked(words: &[String]) -> anyhow::Result<Question<'_>>
    ensures { IfOk result (λ asked. Asks (map string_bytes words.now) asked.file.now asked.sizes) }
{
    let [file, p, c, l] = words else {
        bail!("four arguments are needed");
    };
    Ok(Question {
        file: file.as_str(),
        sizes: Sizes {
            cores: number("P", p.as_str())?,
            cells: number("C", c.as_str())?,
            log_bytes: number("L", l.as_str())?,
        },
    })
}

// What the file holds.
fn listing_of<W: World>(heap: Global, world: &mut W, asked: Question) -> anyhow::Result<String>
    ensures { MatchResult result
        (λ text. Known (W.state world.old) (W.state world.new)
        (λ s t. (t ≡ s) × HoldsText s asked.entry.file.now asked.entry.sizes (string_bytes text)))
        (λ _. Stays (W.state world.old) (W.state world.new)) }
{
    let file = asked.file;
    // The path comes last, since an error keeps 120 bytes and cuts what is behind them.
    let store = world
        .read(file)
        .map_err(|e| anyhow!("cannot read: {e}: {file:?}"))?;
    Ok(list_logs(heap, store.as_slice(), asked.sizes)?)
}

fn say_listing<W: World>(heap: Global, world: &mut W) -> anyhow::Result<()>
    ensures { MatchResult result
        (λ _. Known (W.state world.old) (W.state world.new) Inspected)
        (λ _. Known (W.state world.old) (W.state world.new) Disturbed) }
{
    let words = world.arguments()?;
    let asked = asked(words.as_slice())?;
    let text = listing_of(heap, world, asked)?;
    world.say(text)?;
    Ok(())
}

// `FILE P C L`: says what the log store in FILE holds, for P cores, C cells and L bytes a log.
pub fn inspect<W: World>(heap: Global, world: &mut W) -> Ran
    ensures { Ends result.ending (W.state world.old) (W.state world.new) Inspected inspect_line }
{
    match say_listing(heap, world) {
        Ok(()) => Ran::new(Ending::Done),
        Err(e) => {
            world.complain(format_args!("inspect: {e}; usage: inspect FILE P C L"));
            Ran::new(Ending::Failed)
        }
    }
}
