ghost use Rattle.std.specs.Prelude.{◌≡◌, map};
ghost use Rattle.exports.specs.Calls.{replayed};

use crate::answers::{mix, opening_number, run_number, step_number};
use cores::interface::Core;
use records::settings::Sizes;
use replayer::replay::Replayer;

// Opens with a new replayer, takes the steps, and runs to the end where a run is wanted.
pub(crate) fn replay<K: Core>(
    sizes: Sizes,
    text: &[u8],
    cores: &mut [K],
    cells: &mut [u16],
    store: &[u8],
    steps: &[u8],
    runs: bool,
) -> u64
    ensures { let from = replayed K.Core.next K.Core.after text.now store.now sizes in
        let r = from cells.old (map K.Core.state cores.old) steps.now runs in
        (result ≡ r.sum) × (cells.new ≡ r.cells) }
{
    let mut replayer = Replayer::new();
    let mut sum = opening_number(replayer.open(sizes, cores, cells, store));
    for &j in steps {
        let answer = replayer.step(text, cores, cells, store, usize::from(j));
        sum = mix(sum, step_number(answer));
    }
    if runs {
        sum = mix(sum, run_number(replayer.run(text, cores, cells, store)));
    }
    sum
}
