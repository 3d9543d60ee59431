// Tests of the call that records and replays a session: its turns, its steps, and what is left of the buffers.
#![tactic(auto)]

#[cfg(test)]
mod tests {
    use cores::interface::{Core, Request, StartingCore};
    use cores::register::RegisterCore;
    use cores::script::ScriptCore;
    use recorder::recording::Recorded;
    use recorder::rules::Refusal;
    use records::format::Source;
    use records::settings::Sizes;
    use reducers::exact::Exact;
    use reducers::interface::Reducer;
    use reducers::keep_all::KeepAll;
    use reducers::pairwise::Pairwise;
    use replayer::answers::{Done, Ended, StepRefusal};
    use sessions::buffers::SessionBuffers;
    use sessions::session::{NoSession, Session, record_and_replay};
    use std::alloc::Global;
    use std::process::Abort;
    use std::test::Fail;

    // Core 0 from item 0: write 7 to cell 0. Core 1 from item 2: read cell 0, write 9 to cell 1.
    // Core 2 from item 5: read cell 1, write 4 to cell 0. Each then halts.
    const WORKED: &[u8; 32] = b"\x02\0\0\x07\xff\0\0\0\
        \x01\0\0\0\x02\x01\0\x09\xff\0\0\0\
        \x01\x01\0\0\x02\0\0\x04\xff\0\0\0";

    fn sizes(cores: usize, cells: usize, log_bytes: usize) -> Sizes {
        Sizes {
            cores,
            cells,
            log_bytes,
        }
    }

    fn refusal_of<K: Core, R: Reducer + Drop>(error: NoSession<K, R>) -> Refusal {
        error.refusal
    }

    type Turn = Result<Recorded, Refusal>;

    // A turn that is carried out.
    fn recorded(request: Request, count: u16, number: u16, arcs: u16) -> Turn {
        Ok(Recorded {
            request,
            count,
            number,
            arcs,
        })
    }

    type Step = Result<Done, StepRefusal>;

    // A step that is carried out.
    fn done(request: Request, count: u16, number: u16) -> Step {
        Ok(Done {
            request,
            count,
            number,
        })
    }

    // A step that waits for instruction `count` of `core`.
    fn waits(core: u8, count: u16) -> Step {
        Err(StepRefusal::Waits(Source { core, count }))
    }

    fn read(cell: u16) -> Request {
        Request::Read { cell }
    }

    fn write(cell: u16, number: u16) -> Request {
        Request::Write { cell, number }
    }

    fn exchange(cell: u16, number: u16) -> Request {
        Request::Exchange { cell, number }
    }

    // What each turn and each step answers, the replay's cells behind the steps, how many steps the run then carries out,
    // and the replay's cells behind it.
    #[derive(Clone, Copy)]
    struct Expected<'a> {
        turns: &'a [Turn],
        steps: &'a [Step],
        stepped: &'a [u16],
        run: u32,
        cells: &'a [u16],
    }

    fn session_is<K, R>(
        rt: &impl Abort,
        session: &Session<K, R>,
        expected: Expected,
    ) -> Result<(), Fail> {
        assert_eq!(rt; session.turns.as_slice(), expected.turns);
        assert_eq!(rt; session.opened, Ok(()));
        assert_eq!(rt; session.steps.as_slice(), expected.steps);
        assert_eq!(rt; session.stepped_cells.as_slice(), expected.stepped);
        assert_eq!(rt; session.ended, Ok(Ended::Finished(expected.run)));
        assert_eq!(rt; session.cells.as_slice(), expected.cells);
        Ok(())
    }

    fn worked_cores() -> [ScriptCore; 3] {
        [ScriptCore::new(0), ScriptCore::new(2), ScriptCore::new(5)]
    }

    // Whether each core requests halt.
    fn halted(cores: &[ScriptCore], text: &[u8]) -> bool {
        cores.iter().all(|core| core.ask(text) == Request::Halt)
    }

    // A session of the text of the first worked run, with three logs of so many bytes; gives the caller's cells, too.
    fn worked_session<R: Reducer + Drop>(
        heap: Global,
        reducer: R,
        log_bytes: usize,
        turns: &[usize],
        steps: &[usize],
    ) -> Result<(Session<ScriptCore, R>, [u16; 2]), Fail> {
        let mut cores = worked_cores();
        let mut cells = [0; 2];
        let mut store = [0; 99];
        let asked = sizes(3, 2, log_bytes);
        let space = SessionBuffers::reserve(heap, asked, turns.len(), steps.len())?;
        let session = record_and_replay(
            space, reducer, asked, WORKED, &mut cores, &mut cells, &mut store, turns, steps,
        )
        .map_err(refusal_of)?;
        Ok((session, cells))
    }

    // How many arcs the last turn logs differs between the reducers.
    fn worked<R: Reducer + Drop>(
        rt: &impl Abort,
        heap: Global,
        reducer: R,
        last: u16,
    ) -> Result<(), Fail> {
        let turns = [0, 1, 1, 2, 2];
        let steps = [2, 1, 0, 0, 3, 1, 2];
        let (session, cells) = worked_session(heap, reducer, 33, &turns, &steps)?;
        let expected = Expected {
            turns: &[
                recorded(write(0, 7), 1, 0, 0),
                recorded(read(0), 1, 7, 1),
                recorded(write(1, 9), 2, 0, 0),
                recorded(read(1), 1, 9, 1),
                recorded(write(0, 4), 2, 0, last),
            ],
            steps: &[
                waits(1, 2),
                waits(0, 1),
                done(write(0, 7), 1, 0),
                Err(StepRefusal::Replayed),
                Err(StepRefusal::NoSuchCore),
                done(read(0), 1, 7),
                waits(1, 2),
            ],
            stepped: &[7, 0],
            run: 3,
            cells: &[4, 9],
        };
        session_is(rt, &session, expected)?;
        assert_eq!(rt; cells, [4, 9]);
        assert_eq!(rt; session.cores.len(), 3);
        assert!(rt; halted(session.cores.as_slice(), WORKED));
        Ok(())
    }

    #[test]
    fn steps_before_the_run(rt: HostRuntime) -> Result<(), Fail> {
        let heap = rt.alloc();
        worked(&rt, heap, Exact::new(), 0)?;
        worked(&rt, heap, Pairwise::new(), 1)?;
        worked(&rt, heap, KeepAll, 2)
    }

    // Turns of cores that there are not, and of cores that have halted: the other turns are as in the worked run.
    #[test]
    fn refused_turns(rt: HostRuntime) -> Result<(), Fail> {
        let turns = [7, 0, 0, 1, 1, 3, 2, 1, 2, 2];
        let steps = [0, 1, 1, 2, 2, 0];
        let (session, cells) = worked_session(rt.alloc(), Exact::new(), 33, &turns, &steps)?;
        let expected = Expected {
            turns: &[
                Err(Refusal::NoSuchCore),
                recorded(write(0, 7), 1, 0, 0),
                Err(Refusal::Halted),
                recorded(read(0), 1, 7, 1),
                recorded(write(1, 9), 2, 0, 0),
                Err(Refusal::NoSuchCore),
                recorded(read(1), 1, 9, 1),
                Err(Refusal::Halted),
                recorded(write(0, 4), 2, 0, 0),
                Err(Refusal::Halted),
            ],
            steps: &[
                done(write(0, 7), 1, 0),
                done(read(0), 1, 7),
                done(write(1, 9), 2, 0),
                done(read(1), 1, 9),
                done(write(0, 4), 2, 0),
                Err(StepRefusal::Replayed),
            ],
            stepped: &[4, 9],
            run: 0,
            cells: &[4, 9],
        };
        session_is(&rt, &session, expected)?;
        assert_eq!(rt; cells, [4, 9]);
        Ok(())
    }

    // With 26 bytes a log core 1 has no room for its second access, so that core 2 reads 0 from cell 1.
    #[test]
    fn a_full_log(rt: HostRuntime) -> Result<(), Fail> {
        let turns = [0, 1, 1, 2, 2];
        let steps = [2, 2, 1, 0, 1, 2, 1];
        let (session, cells) = worked_session(rt.alloc(), Exact::new(), 26, &turns, &steps)?;
        let expected = Expected {
            turns: &[
                recorded(write(0, 7), 1, 0, 0),
                recorded(read(0), 1, 7, 1),
                Err(Refusal::LogFull),
                recorded(read(1), 1, 0, 0),
                recorded(write(0, 4), 2, 0, 1),
            ],
            steps: &[
                done(read(1), 1, 0),
                waits(1, 1),
                waits(0, 1),
                done(write(0, 7), 1, 0),
                done(read(0), 1, 7),
                done(write(0, 4), 2, 0),
                Err(StepRefusal::Replayed),
            ],
            stepped: &[4, 0],
            run: 0,
            cells: &[4, 0],
        };
        session_is(&rt, &session, expected)?;
        assert_eq!(rt; cells, [4, 0]);
        Ok(())
    }

    // A session of two cores and two cells, with two logs of 33 bytes.
    fn two_core_session<K: Core>(
        heap: Global,
        text: &[u8],
        cores: &mut [K],
        cells: &mut [u16],
        turns: &[usize],
        steps: &[usize],
    ) -> Result<Session<K, Exact>, Fail> {
        let mut store = [0; 66];
        let asked = sizes(2, 2, 33);
        let space = SessionBuffers::reserve(heap, asked, turns.len(), steps.len())?;
        let session = record_and_replay(
            space,
            Exact::new(),
            asked,
            text,
            cores,
            cells,
            &mut store,
            turns,
            steps,
        )
        .map_err(refusal_of)?;
        Ok(session)
    }

    // Core 0 reads cell 0 and writes 7 to it; core 1 reads cells 1 and 0 and writes 9 to cell 1.
    // Where the recording's last cells were replayed, 0:1 would read 7 and 1:1 would read 9.
    #[test]
    fn the_starting_cells_are_replayed(rt: HostRuntime) -> Result<(), Fail> {
        let text = b"\x01\0\0\0\x02\0\0\x07\xff\0\0\0\x01\x01\0\0\x01\0\0\0\x02\x01\0\x09";
        let mut cores = [ScriptCore::new(0), ScriptCore::new(3)];
        let mut cells = [3, 8, 5];
        let turns = [0, 0, 1, 1, 1];
        let steps = [0, 1, 1, 0, 1];
        let session = two_core_session(rt.alloc(), text, &mut cores, &mut cells, &turns, &steps)?;
        let expected = Expected {
            turns: &[
                recorded(read(0), 1, 3, 0),
                recorded(write(0, 7), 2, 0, 0),
                recorded(read(1), 1, 8, 0),
                recorded(read(0), 2, 7, 1),
                recorded(write(1, 9), 3, 0, 0),
            ],
            steps: &[
                done(read(0), 1, 3),
                done(read(1), 1, 8),
                waits(0, 2),
                done(write(0, 7), 2, 0),
                done(read(0), 2, 7),
            ],
            stepped: &[7, 8],
            run: 1,
            cells: &[7, 9],
        };
        session_is(&rt, &session, expected)?;
        assert_eq!(rt; cells, [7, 9, 5]);
        Ok(())
    }

    // Core 0 from item 0: set register 1 to 5 and exchange it with cell 0.
    // Core 1 from item 3: set register 2 to 262, exchange it with cell 0 and write it to cell 1.
    const REGISTERS: &[u8; 24] = b"\x04\x01\0\x05\x03\x01\0\0\xff\0\0\0\
        \x04\x02\x01\x06\x03\x02\0\0\x02\x02\0\x01";

    // Where core 0 stands then, its register 1 is written, and where core 1 stands, its register 2.
    const SHOWN: &[u8; 28] = b"\0\0\0\0\0\0\0\0\x02\x01\0\0\
        \0\0\0\0\0\0\0\0\0\0\0\0\x02\x02\0\0";

    fn registers_shown(cores: &[RegisterCore]) -> [Option<Request>; 2] {
        [
            cores.get(0).map(|core| core.ask(SHOWN)),
            cores.get(1).map(|core| core.ask(SHOWN)),
        ]
    }

    #[test]
    fn register_cores(rt: HostRuntime) -> Result<(), Fail> {
        let mut cores = [RegisterCore::new(0), RegisterCore::new(3)];
        let mut cells = [9, 0];
        let turns = [0, 1, 0, 1, 1, 0];
        let steps = [1, 1, 0, 0, 1];
        let session = two_core_session(
            rt.alloc(),
            REGISTERS,
            &mut cores,
            &mut cells,
            &turns,
            &steps,
        )?;
        let expected = Expected {
            turns: &[
                recorded(Request::Local, 1, 0, 0),
                recorded(Request::Local, 1, 0, 0),
                recorded(exchange(0, 5), 2, 9, 0),
                recorded(exchange(0, 262), 2, 5, 1),
                recorded(write(1, 5), 3, 0, 0),
                Err(Refusal::Halted),
            ],
            steps: &[
                done(Request::Local, 1, 0),
                waits(0, 2),
                done(Request::Local, 1, 0),
                done(exchange(0, 5), 2, 9),
                done(exchange(0, 262), 2, 5),
            ],
            stepped: &[262, 0],
            run: 1,
            cells: &[262, 5],
        };
        session_is(&rt, &session, expected)?;
        assert_eq!(rt; cells, [262, 5]);
        let shown = [Some(write(0, 9)), Some(write(0, 5))];
        assert_eq!(rt; registers_shown(session.cores.as_slice()), shown);
        assert_eq!(rt; registers_shown(&cores), shown);
        Ok(())
    }

    // One turn and one step of core 0: refused with 8, and the buffers are as they were.
    fn is_refused(
        rt: &impl Abort,
        heap: Global,
        asked: Sizes,
        cores: &mut [ScriptCore],
        cells: &mut [u16],
        store: &mut [u8],
    ) -> Result<(), Fail> {
        let space = SessionBuffers::reserve(heap, sizes(4, 256, 4096), 1, 1)?;
        let answer = record_and_replay(
            space,
            KeepAll,
            asked,
            WORKED,
            cores,
            cells,
            store,
            &[0],
            &[0],
        );
        assert_eq!(rt; answer.map_err(refusal_of).err(), Some(Refusal::BadSetting));
        assert!(rt; cores.iter().all(|core| core.ask(WORKED) == write(0, 7)));
        assert!(rt; cells.iter().all(|number| *number == 5));
        assert!(rt; store.iter().all(|byte| *byte == 0xee));
        Ok(())
    }

    fn sizes_out_of_range(
        rt: &impl Abort,
        heap: Global,
        cores: &mut [ScriptCore],
        cells: &mut [u16],
        store: &mut [u8],
    ) -> Result<(), Fail> {
        let rows = [
            sizes(0, 1, 12),
            sizes(5, 1, 12),
            sizes(1, 0, 12),
            sizes(1, 257, 12),
            sizes(1, 1, 11),
            sizes(1, 1, 16385),
            sizes(2, 1, 8193),
        ];
        for asked in rows {
            is_refused(rt, heap, asked, cores, cells, store)?;
        }
        Ok(())
    }

    // Buffers one core, one cell or one byte too short.
    fn short_buffers(
        rt: &impl Abort,
        heap: Global,
        cores: &mut [ScriptCore; 5],
        cells: &mut [u16; 257],
        store: &mut [u8; 16385],
    ) -> Result<(), Fail> {
        let asked = sizes(3, 2, 33);
        is_refused(rt, heap, asked, &mut cores[0..2], cells, store)?;
        is_refused(rt, heap, asked, cores, &mut cells[0..1], store)?;
        is_refused(rt, heap, asked, cores, cells, &mut store[0..98])
    }

    #[test]
    fn bad_settings(rt: HostRuntime) -> Result<(), Fail> {
        let heap = rt.alloc();
        let mut cores = [ScriptCore::new(0); 5];
        let mut cells = [5; 257];
        let mut store = [0xee; 16385];
        sizes_out_of_range(&rt, heap, &mut cores, &mut cells, &mut store)?;
        short_buffers(&rt, heap, &mut cores, &mut cells, &mut store)?;
        let asked = sizes(4, 256, 4096);
        let space = SessionBuffers::reserve(heap, asked, 1, 0)?;
        let session = record_and_replay(
            space,
            KeepAll,
            asked,
            WORKED,
            &mut cores,
            &mut cells,
            &mut store,
            &[0],
            &[],
        )
        .map_err(refusal_of)?;
        assert_eq!(rt; session.ended, Ok(Ended::Finished(1)));
        assert_eq!(rt; [session.cells.len(), session.cores.len()], [256, 4]);
        assert_eq!(rt; [cells[0], cells[1], cells[256]], [7, 5, 5]);
        assert!(rt; store[16383..].starts_with(b"\xee\xee"));
        Ok(())
    }
    // Space for fewer turns, steps, cells or cores than the session has; what was handed in comes back, and serves a smaller one.
    #[test]
    fn too_little_space(rt: HostRuntime) -> Result<(), Fail> {
        let heap = rt.alloc();
        let mut cores = worked_cores();
        let mut cells = [0; 2];
        let mut store = [0xee; 99];
        let asked = sizes(3, 2, 33);
        let rows = [
            (asked, 0, 1),
            (asked, 1, 0),
            (sizes(2, 2, 33), 1, 1),
            (sizes(3, 1, 33), 1, 1),
        ];
        for (reserved, turns, steps) in rows {
            let space = SessionBuffers::reserve(heap, reserved, turns, steps)?;
            let answer = record_and_replay(
                space,
                Exact::new(),
                asked,
                WORKED,
                &mut cores,
                &mut cells,
                &mut store,
                &[0],
                &[0],
            );
            assert_eq!(rt; answer.map_err(refusal_of).err(), Some(Refusal::BadSetting));
            assert!(rt; store.iter().all(|byte| *byte == 0xee));
        }
        let space = SessionBuffers::reserve(heap, asked, 1, 0)?;
        let given_back = match record_and_replay(
            space,
            KeepAll,
            asked,
            WORKED,
            &mut cores,
            &mut cells,
            &mut store,
            &[0],
            &[0],
        ) {
            Ok(_) => return Err(Fail::new("too little space serves")),
            Err(e) => e,
        };
        let session = record_and_replay(
            given_back.buffers,
            given_back.reducer,
            asked,
            WORKED,
            &mut cores,
            &mut cells,
            &mut store,
            &[0],
            &[],
        )
        .map_err(refusal_of)?;
        assert_eq!(rt; session.ended, Ok(Ended::Finished(1)));
        assert!(rt; session.stepped_cells.as_slice() == [0, 0].as_slice());
        assert!(rt; session.cells.as_slice() == [7, 0].as_slice());
        Ok(())
    }
}
