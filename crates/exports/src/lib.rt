// The recorder and the replayer for callers in other languages. A session is described by numbers, and all answers of a call
// come as one checksum. Nothing is kept between calls, and no memory is taken.
#![tactic(auto)]

ghost use Rattle.std.specs.Prelude.{◌≡◌, length};
ghost use Rattle.exports.specs.Answers.{opening_number};
ghost use Rattle.exports.specs.Calls.{first_opening};
ghost use Rattle.exports.specs.Sessions.{sizes_of, session_recorded, session_replayed};

pub mod answers;
pub mod memory;
pub mod recording;
pub mod replaying;
pub mod session;

use crate::answers::opening_number;
use crate::recording::record_session;
use crate::replaying::replay;
use crate::session::Session;
use cores::register::RegisterCore;
use cores::script::ScriptCore;
use replayer::replay::Replayer;

// Begins a recording of the session with a new recorder, and takes turns of these cores.
#[unsafe(no_mangle)]
pub extern "C" fn exports_record(
    session: &Session,
    text: &[u8],
    cells: &mut [u16],
    store: &mut [u8],
    turns: &[u8],
) -> u64
    ensures { let r = session_recorded session.now text.now cells.old store.old turns.now in
        (result ≡ r.sum) × (cells.new ≡ r.world.cells) × (store.new ≡ r.world.tape.store) }
{
    if session.kind == 0 {
        let mut cores = session.starting_cores::<ScriptCore>();
        record_session(session, text, &mut cores, cells, store, turns)
    } else {
        let mut cores = session.starting_cores::<RegisterCore>();
        record_session(session, text, &mut cores, cells, store, turns)
    }
}

// Opens the session's logs with a new replayer.
#[unsafe(no_mangle)]
pub extern "C" fn exports_open(session: &Session, cells: &[u16], store: &[u8]) -> u64
    ensures { result ≡ opening_number (first_opening (sizes_of session.now) 4 (length cells.now) store.now).says }
{
    let cores = session.starting_cores::<ScriptCore>();
    opening_number(Replayer::new().open(session.sizes(), &cores, cells, store))
}

// The same, and takes steps of these cores, and then a run where one is wanted.
#[unsafe(no_mangle)]
pub extern "C" fn exports_replay(
    session: &Session,
    text: &[u8],
    cells: &mut [u16],
    store: &[u8],
    steps: &[u8],
    runs: bool,
) -> u64
    ensures { let r = session_replayed session.now text.now cells.old store.now steps.now runs in
        (result ≡ r.sum) × (cells.new ≡ r.cells) }
{
    let sizes = session.sizes();
    if session.kind == 0 {
        let mut cores = session.starting_cores::<ScriptCore>();
        replay(sizes, text, &mut cores, cells, store, steps, runs)
    } else {
        let mut cores = session.starting_cores::<RegisterCore>();
        replay(sizes, text, &mut cores, cells, store, steps, runs)
    }
}
