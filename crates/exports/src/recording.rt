ghost use Rattle.std.specs.Prelude.{◌≡◌, map};
ghost use Rattle.cores.specs.Memory.{rules};
ghost use Rattle.exports.specs.Calls.{recorded};
ghost use Rattle.exports.specs.Sessions.{sizes_of, choice_of};

use crate::answers::{begin_number, mix, turn_number};
use crate::session::Session;
use cores::interface::Core;
use kinds::{Decided, decided_turn};
use recorder::recording::Recorder;
use records::settings::Sizes;
use reducers::exact::Exact;
use reducers::keep_all::KeepAll;
use reducers::pairwise::Pairwise;

// Begins with a new recorder and takes the turns.
fn record<K: Core, R: Decided + Drop>(
    reducer: R,
    sizes: Sizes,
    text: &[u8],
    cores: &mut [K],
    cells: &mut [u16],
    store: &mut [u8],
    turns: &[u8],
) -> u64
    ensures { let cores_by = rules K.Core.next K.Core.after text.now in
        let states = map K.Core.state cores.old in
        let r = recorded R.Decided.choice cores_by sizes cells.old states store.old turns.now in
        (result ≡ r.sum) × (cells.new ≡ r.world.cells) × (store.new ≡ r.world.tape.store) }
{
    let mut recorder = Recorder::new(reducer);
    let mut sum = begin_number(recorder.begin(sizes, cores, cells, store));
    for &j in turns {
        let answer = decided_turn(&mut recorder, text, cores, cells, store, usize::from(j));
        sum = mix(sum, turn_number(answer));
    }
    sum
}

// The same with the session's reducer.
pub(crate) fn record_session<K: Core>(
    session: &Session,
    text: &[u8],
    cores: &mut [K],
    cells: &mut [u16],
    store: &mut [u8],
    turns: &[u8],
) -> u64
    ensures { let cores_by = rules K.Core.next K.Core.after text.now in
        let states = map K.Core.state cores.old in
        let sizes = sizes_of session.now in
        let r = recorded (choice_of session.now) cores_by sizes cells.old states store.old turns.now in
        (result ≡ r.sum) × (cells.new ≡ r.world.cells) × (store.new ≡ r.world.tape.store) }
{
    let sizes = session.sizes();
    match session.reducer {
        0 => record(KeepAll, sizes, text, cores, cells, store, turns),
        1 => record(Pairwise::new(), sizes, text, cores, cells, store, turns),
        _ => record(Exact::new(), sizes, text, cores, cells, store, turns),
    }
}
