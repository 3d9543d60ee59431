// Tests of replaying: openings, steps that wait, runs, and logs damaged after they were opened.
#![tactic(auto)]

#[cfg(test)]
mod tests {
    use cores::interface::{Core, Request, StartingCore};
    use cores::register::RegisterCore;
    use cores::script::ScriptCore;
    use recorder::recording::Recorder;
    use records::faults::{ByteFault, Location, RecordFault, Refusal, SessionFault};
    use records::format::Source;
    use records::settings::Sizes;
    use reducers::exact::Exact;
    use reducers::interface::Reducer;
    use reducers::keep_all::KeepAll;
    use reducers::pairwise::Pairwise;
    use replayer::answers::{Done, Ended, StepRefusal};
    use replayer::replay::Replayer;
    use std::alloc::{AllocError, Global};
    use std::process::Abort;
    use std::test::*;

    // Core 0 from item 0: write 7 to cell 0. Core 1 from item 2: read cell 0, write 9 to cell 1.
    // Core 2 from item 5: read cell 1, write 4 to cell 0. Each then halts.
    const WORKED: &[u8; 32] = b"\x02\0\0\x07\xff\0\0\0\
        \x01\0\0\0\x02\x01\0\x09\xff\0\0\0\
        \x01\x01\0\0\x02\0\0\x04\xff\0\0\0";

    const SIZES: Sizes = Sizes {
        cores: 3,
        cells: 2,
        log_bytes: 33,
    };

    fn sizes(cores: usize, cells: usize, log_bytes: usize) -> Sizes {
        Sizes {
            cores,
            cells,
            log_bytes,
        }
    }

    fn at(core: u8, offset: usize) -> Location {
        Location { core, offset }
    }

    // No mark stands there.
    fn no_mark(at: Location) -> SessionFault {
        SessionFault::Read(RecordFault::Bytes(ByteFault::Mark(at)))
    }

    // A step that waits for instruction `count` of `core`.
    fn waits(core: u8, count: u16) -> Answer {
        Err(StepRefusal::Waits(Source { core, count }))
    }

    fn read(cell: u16) -> Request {
        Request::Read { cell }
    }

    fn write(cell: u16, number: u16) -> Request {
        Request::Write { cell, number }
    }

    type Answer = Result<Done, StepRefusal>;

    // A step that is carried out.
    fn done(request: Request, count: u16, number: u16) -> Answer {
        Ok(Done {
            request,
            count,
            number,
        })
    }

    fn worked_cores() -> [ScriptCore; 3] {
        [ScriptCore::new(0), ScriptCore::new(2), ScriptCore::new(5)]
    }

    fn record<R: Reducer>(
        rt: &impl Abort,
        recorder: &mut Recorder<R>,
        cores: &mut [ScriptCore],
        cells: &mut [u16],
        store: &mut [u8],
    ) -> Result<(), Fail> {
        assert!(rt; recorder.begin(SIZES, cores, cells, store).is_ok());
        for j in [0, 1, 1, 2, 2] {
            assert!(rt; recorder.turn(WORKED, cores, cells, store, j).is_ok());
        }
        Ok(())
    }

    // Three cores where the worked run starts, two cells and three logs.
    #[derive(Clone, Copy)]
    struct Bench {
        replayer: Replayer,
        cores: [ScriptCore; 3],
        cells: [u16; 2],
        store: [u8; 99],
    }

    impl Bench {
        fn new(store: [u8; 99]) -> Bench {
            Bench {
                replayer: Replayer::new(),
                cores: worked_cores(),
                cells: [0; 2],
                store,
            }
        }

        // With the logs of the worked run.
        fn recorded<R: Reducer + Drop>(rt: &impl Abort, reducer: R) -> Result<Bench, Fail> {
            let mut recorder = Recorder::new(reducer);
            let mut cores = worked_cores();
            let mut cells = [0; 2];
            let mut store = [0; 99];
            record(rt, &mut recorder, &mut cores, &mut cells, &mut store)?;
            Ok(Bench::new(store))
        }

        // Opened, with the logs of the worked run.
        fn opened<R: Reducer + Drop>(rt: &impl Abort, reducer: R) -> Result<Bench, Fail> {
            let mut bench = Bench::recorded(rt, reducer)?;
            assert_eq!(rt; bench.open(SIZES), Ok(()));
            Ok(bench)
        }

        fn open(&mut self, sizes: Sizes) -> Result<(), Refusal> {
            self.replayer
                .open(sizes, &self.cores, &self.cells, &self.store)
        }

        fn step(&mut self, text: &[u8], j: usize) -> Answer {
            self.replayer
                .step(text, &mut self.cores, &mut self.cells, &self.store, j)
        }

        // How the run ended, and the cells after it.
        fn run(&mut self) -> (Result<Ended, Refusal>, [u16; 2]) {
            let run = self
                .replayer
                .run(WORKED, &mut self.cores, &mut self.cells, &self.store);
            (run, self.cells)
        }

        // Puts a byte into the store, and gives the one that was there.
        fn damage(&mut self, at: usize, byte: u8) -> u8 {
            match self.store.get_mut(at) {
                Some(place) => {
                    let old = *place;
                    *place = byte;
                    old
                }
                None => 0,
            }
        }

        // Takes the steps in order, and holds each to its answer.
        fn play<const N: usize>(
            &mut self,
            rt: &impl Abort,
            text: &[u8],
            steps: [(usize, Answer); N],
        ) -> Result<(), Fail> {
            for (core, expected) in steps {
                assert_eq!(rt; self.step(text, core), expected);
            }
            Ok(())
        }
    }

    fn out_of_order(rt: &impl Abort, mut bench: Bench) -> Result<(), Fail> {
        let steps = [
            (2, waits(1, 2)),
            (1, waits(0, 1)),
            (0, done(write(0, 7), 1, 0)),
            (0, Err(StepRefusal::Replayed)),
            (3, Err(StepRefusal::NoSuchCore)),
            (1, done(read(0), 1, 7)),
            (2, waits(1, 2)),
        ];
        bench.play(rt, WORKED, steps)?;
        assert_eq!(rt; bench.cells, [7, 0]);
        assert_eq!(rt; bench.run(), (Ok(Ended::Finished(3)), [4, 9]));
        Ok(())
    }

    #[test]
    fn steps_wait_for_their_arcs(rt: HostRuntime) -> Result<(), Fail> {
        out_of_order(&rt, Bench::opened(&rt, Exact::new())?)?;
        out_of_order(&rt, Bench::opened(&rt, Pairwise::new())?)?;
        out_of_order(&rt, Bench::opened(&rt, KeepAll)?)
    }

    // A second open starts anew, and leaves cells and cores as they are.
    #[test]
    fn runs_finish(rt: HostRuntime) -> Result<(), Fail> {
        let mut bench = Bench::opened(&rt, Exact::new())?;
        assert_eq!(rt; bench.run(), (Ok(Ended::Finished(5)), [4, 9]));
        assert_eq!(rt; bench.run(), (Ok(Ended::Finished(0)), [4, 9]));
        assert_eq!(rt; bench.open(SIZES), Ok(()));
        assert_eq!(rt;
            bench.run(),
            (Ok(Ended::Stopped(0)), [4, 9]),
            "core 0 has halted, the others wait"
        );
        bench.cores = worked_cores();
        assert_eq!(rt; bench.run(), (Ok(Ended::Finished(5)), [4, 9]));
        Ok(())
    }

    // Steps with buffers one core, one cell or one byte too short, of a core that there is not.
    fn cut(bench: &mut Bench) -> [Answer; 3] {
        let Bench {
            replayer,
            cores,
            cells,
            store,
        } = bench;
        [
            replayer.step(WORKED, &mut cores[0..2], cells, store, 7),
            replayer.step(WORKED, cores, &mut cells[0..1], store, 7),
            replayer.step(WORKED, cores, cells, &store[0..98], 7),
        ]
    }

    // The first reason that there is, is answered, and nothing is changed.
    #[test]
    fn refused_steps(rt: HostRuntime) -> Result<(), Fail> {
        let mut bench = Bench::recorded(&rt, Exact::new())?;
        let unset = Err(StepRefusal::BadSetting);
        bench.play(&rt, WORKED, [(0, unset), (7, unset)])?;
        assert_eq!(rt; bench.run(), (Err(Refusal::BadSetting), [0, 0]));
        assert_eq!(rt; bench.open(SIZES), Ok(()));
        assert_eq!(rt; cut(&mut bench), [unset; 3]);
        // without items all cores halt
        let steps = [
            (7, Err(StepRefusal::NoSuchCore)),
            (1, waits(0, 1)),
            (0, Err(StepRefusal::Halted)),
        ];
        bench.play(&rt, b"", steps)?;
        let no_cell = [(0, Err(StepRefusal::NoSuchCell))];
        bench.play(&rt, b"\x01\x02\0\0", no_cell)?;
        assert_eq!(rt; bench.run(), (Ok(Ended::Finished(5)), [4, 9]));
        Ok(())
    }

    // A refused open keeps the former replay, in which core 0 has one step done; an accepted one starts anew.
    fn refused_open(
        rt: &impl Abort,
        mut bench: Bench,
        asked: Sizes,
        expected: Refusal,
    ) -> Result<(), Fail> {
        bench.play(rt, WORKED, [(0, done(write(0, 7), 1, 0))])?;
        assert_eq!(rt; bench.open(asked), Err(expected));
        let steps = [(0, Err(StepRefusal::Replayed)), (1, done(read(0), 1, 7))];
        bench.play(rt, WORKED, steps)?;
        assert_eq!(rt; bench.open(SIZES), Ok(()));
        bench.play(rt, WORKED, [(1, waits(0, 1))])
    }

    #[test]
    fn refused_openings(rt: HostRuntime) -> Result<(), Fail> {
        let rows = [
            (sizes(4, 2, 12), Refusal::BadSetting),
            (sizes(3, 3, 33), Refusal::BadSetting),
            (sizes(3, 2, 34), Refusal::BadSetting),
            (
                sizes(3, 1, 33),
                Refusal::LogFault(SessionFault::Read(RecordFault::BadHead(at(0, 0)))),
            ),
        ];
        for (asked, expected) in rows {
            let bench = Bench::opened(&rt, Exact::new())?;
            refused_open(&rt, bench, asked, expected)?;
        }
        Ok(())
    }

    // A byte damaged after the opening, a core and what its step answers: nothing is changed, and the mended log goes on.
    fn damaged(
        rt: &impl Abort,
        mut bench: Bench,
        at: usize,
        byte: u8,
        j: usize,
        fault: SessionFault,
    ) -> Result<(), Fail> {
        let right = bench.damage(at, byte);
        bench.play(rt, WORKED, [(j, Err(StepRefusal::LogFault(fault)))])?;
        assert_eq!(rt; bench.open(SIZES), Err(Refusal::LogFault(fault)));
        assert_eq!(rt; bench.cells, [0, 0]);
        bench.damage(at, right);
        assert_eq!(rt; bench.run(), (Ok(Ended::Finished(5)), [4, 9]));
        Ok(())
    }

    // Core 0's log is head and end, core 1's from byte 33 on is head, arc and end.
    #[test]
    fn damaged_logs(rt: HostRuntime) -> Result<(), Fail> {
        let rows = [
            (6, 0, 0, no_mark(at(0, 6))),
            (11, 1, 0, SessionFault::Read(RecordFault::BadEnd(at(0, 6)))),
            (39, 0, 1, no_mark(at(1, 6))),
            (41, 1, 1, SessionFault::Read(RecordFault::BadArc(at(1, 6)))),
            (43, 2, 1, SessionFault::Source(at(1, 6))),
            (47, 0, 1, no_mark(at(1, 13))),
        ];
        for (offset, byte, j, fault) in rows {
            let bench = Bench::opened(&rt, Exact::new())?;
            damaged(&rt, bench, offset, byte, j, fault)?;
        }
        Ok(())
    }

    fn put(store: &mut [u8; 99], from: usize, log: &[u8]) {
        for i in 0..log.len() {
            if let (Some(place), Some(byte)) = (store.get_mut(from.saturating_add(i)), log.get(i)) {
                *place = *byte;
            }
        }
    }

    fn store_of(first: &[u8], second: &[u8], third: &[u8]) -> [u8; 99] {
        let mut store = [0; 99];
        put(&mut store, 0, first);
        put(&mut store, 33, second);
        put(&mut store, 66, third);
        store
    }

    // The arcs to 0:1 and 1:1 wait for each other.
    #[test]
    fn arcs_in_a_circle(rt: HostRuntime) -> Result<(), Fail> {
        let first = b"HC\0\x02\0\x02AR\x01\0\x01\0\x01ED\0\x01\0\x01";
        let second = b"HC\x01\x02\0\x02AR\0\0\x01\0\x01ED\0\x01\0\x01";
        let mut bench = Bench::new(store_of(first, second, b""));
        assert_eq!(rt; bench.open(sizes(2, 2, 33)), Ok(()));
        assert_eq!(rt; bench.run(), (Ok(Ended::Stopped(0)), [0, 0]));
        let steps = [(0, waits(1, 1)), (1, waits(0, 1))];
        bench.play(&rt, WORKED, steps)
    }

    // A circle goes from core 0 up: of two writes to cell 0 without arcs, that of core 2 stands.
    #[test]
    fn cores_take_turns_from_0(rt: HostRuntime) -> Result<(), Fail> {
        let first = b"HC\0\x03\0\x02ED\0\x01\0\0";
        let second = b"HC\x01\x03\0\x02ED\0\x01\0\0";
        let third = b"HC\x02\x03\0\x02ED\0\x01\0\0";
        let mut bench = Bench::new(store_of(first, second, third));
        bench.cores = [ScriptCore::new(6), ScriptCore::new(3), ScriptCore::new(0)];
        assert_eq!(rt; bench.open(SIZES), Ok(()));
        assert_eq!(rt; bench.run(), (Ok(Ended::Finished(3)), [7, 9]));
        Ok(())
    }

    // The second arc to core 2 is from 0:1, to 2:2. Changed to one to 2:1, which is done, it ends the group and is not passed:
    // changed again, to one to 2:3, it is waited for.
    #[test]
    fn arc_to_a_done_instruction(rt: HostRuntime) -> Result<(), Fail> {
        let first = b"HC\0\x03\0\x02ED\0\x01\0\0";
        let second = b"HC\x01\x03\0\x02ED\0\x01\0\0";
        let third = b"HC\x02\x03\0\x02AR\x01\0\x01\0\x01AR\0\0\x01\0\x02ED\0\x03\0\x02";
        let text = b"\0\0\0\0\0\0\0\0\0\0\0\0";
        let mut bench = Bench::new(store_of(first, second, third));
        bench.cores = [ScriptCore::new(0); 3];
        assert_eq!(rt; bench.open(SIZES), Ok(()));
        let steps = [
            (1, done(Request::Local, 1, 0)),
            (2, done(Request::Local, 1, 0)),
            (2, waits(0, 1)),
        ];
        bench.play(&rt, text, steps)?;
        assert_eq!(rt; bench.damage(85, 1), 2);
        bench.play(&rt, text, [(2, done(Request::Local, 2, 0))])?;
        assert_eq!(rt; bench.damage(85, 3), 1);
        bench.play(&rt, text, [(2, waits(0, 1))])
    }

    // Two arcs to 0:1: it waits for the first whose source is not done.
    #[test]
    fn two_arcs_to_one_instruction(rt: HostRuntime) -> Result<(), Fail> {
        let first = b"HC\0\x03\0\x02AR\x02\0\x01\0\x01AR\x01\0\x01\0\x01ED\0\x01\0\x02";
        let second = b"HC\x01\x03\0\x02ED\0\x01\0\0";
        let third = b"HC\x02\x03\0\x02ED\0\x01\0\0";
        let mut bench = Bench::new(store_of(first, second, third));
        assert_eq!(rt; bench.open(SIZES), Ok(()));
        let steps = [
            (0, waits(2, 1)),
            (2, done(read(1), 1, 0)),
            (0, waits(1, 1)),
            (1, done(read(0), 1, 0)),
            (0, done(write(0, 7), 1, 0)),
        ];
        bench.play(&rt, WORKED, steps)?;
        assert_eq!(rt; bench.run(), (Ok(Ended::Finished(0)), [7, 0]));
        Ok(())
    }

    // The most cores and cells, and the least log bytes with which a core can log an arc from each other one.
    const LARGEST: Sizes = Sizes {
        cores: 4,
        cells: 256,
        log_bytes: 33,
    };

    fn four_cores() -> [ScriptCore; 4] {
        let mut cores = [ScriptCore::new(0); 4];
        cores[3] = ScriptCore::new(1);
        cores
    }

    fn cells_with_the_last(number: u16) -> [u16; 256] {
        let mut cells = [0; 256];
        cells[255] = number;
        cells
    }

    // One turn of each core, in order.
    fn record_four(
        rt: &impl Abort,
        text: &[u8],
        cells: &mut [u16],
        store: &mut [u8],
    ) -> Result<(), Fail> {
        let mut recorder = Recorder::new(KeepAll);
        let mut cores = four_cores();
        assert!(rt; recorder.begin(LARGEST, &cores, cells, store).is_ok());
        for j in 0..4 {
            assert!(rt; recorder.turn(text, &mut cores, cells, store, j).is_ok());
        }
        Ok(())
    }

    // Cores 0, 1 and 2 read cell 255, then core 3 writes it: its arcs are from 2:1, 1:1 and 0:1, in this order.
    fn step_four(
        rt: &impl Abort,
        replayer: &mut Replayer,
        text: &[u8],
        cores: &mut [ScriptCore],
        cells: &mut [u16],
        store: &[u8],
    ) -> Result<(), Fail> {
        assert_eq!(rt; replayer.open(LARGEST, cores, cells, store), Ok(()));
        let steps = [
            (3, waits(2, 1)),
            (2, done(read(255), 1, 5)),
            (3, waits(1, 1)),
            (0, done(read(255), 1, 5)),
            (3, waits(1, 1)),
            (1, done(read(255), 1, 5)),
            (3, done(write(255, 258), 1, 0)),
            (3, Err(StepRefusal::Replayed)),
            (4, Err(StepRefusal::NoSuchCore)),
        ];
        for (core, expected) in steps {
            assert_eq!(rt; replayer.step(text, cores, cells, store, core), expected);
        }
        Ok(())
    }

    #[test]
    fn four_cores_and_256_cells(rt: HostRuntime) -> Result<(), Fail> {
        let text = b"\x01\xff\0\0\x02\xff\x01\x02";
        let mut store = [0; 132];
        let mut cells = cells_with_the_last(5);
        record_four(&rt, text, &mut cells, &mut store)?;
        assert!(rt; cells == cells_with_the_last(258));
        let mut replayer = Replayer::new();
        let mut cores = four_cores();
        cells = cells_with_the_last(5);
        step_four(&rt, &mut replayer, text, &mut cores, &mut cells, &store)?;
        assert!(rt; cells == cells_with_the_last(258));
        cores = four_cores();
        cells = cells_with_the_last(5);
        assert_eq!(rt; replayer.open(LARGEST, &cores, &cells, &store), Ok(()));
        let run = replayer.run(text, &mut cores, &mut cells, &store);
        assert_eq!(rt; run, Ok(Ended::Finished(4)));
        assert!(rt; cells == cells_with_the_last(258));
        Ok(())
    }

    // Items 0 and 1 of a register core: set register 0 to 0, and go to item 0 if it is 0.
    const ENDLESS: &[u8; 8] = b"\x04\0\0\0\x07\0\0\0";

    // As many turns as a core can be given.
    fn record_endless(rt: &impl Abort, store: &mut [u8]) -> Result<(), Fail> {
        let mut recorder = Recorder::new(Exact::new());
        let mut cores = [RegisterCore::new(0)];
        let mut cells = [3];
        assert!(rt;
            recorder
                .begin(sizes(1, 1, 12), &cores, &cells, store)
                .is_ok()
        );
        for _ in 0..65535 {
            assert!(rt;
                recorder
                    .turn(ENDLESS, &mut cores, &mut cells, store, 0)
                    .is_ok()
            );
        }
        Ok(())
    }

    #[test]
    fn all_counts_are_replayed(rt: HostRuntime) -> Result<(), Fail> {
        let mut store = [0; 12];
        record_endless(&rt, &mut store)?;
        let mut replayer = Replayer::new();
        let mut cores = [RegisterCore::new(0)];
        let mut cells = [3];
        assert_eq!(rt;
            replayer.open(sizes(1, 1, 12), &cores, &cells, &store),
            Ok(())
        );
        let run = replayer.run(ENDLESS, &mut cores, &mut cells, &store);
        assert_eq!(rt; run, Ok(Ended::Finished(65535)));
        let more = replayer.step(ENDLESS, &mut cores, &mut cells, &store, 0);
        assert_eq!(rt; more, Err(StepRefusal::Replayed));
        assert_eq!(rt; cells, [3]);
        Ok(())
    }

    // Two logs of 16,384 bytes: head and end take 12, and 2,338 arcs of 7 bytes leave 6, where an access needs 7.
    const FULL: Sizes = Sizes {
        cores: 2,
        cells: 1,
        log_bytes: 16384,
    };

    // Items that exchange 1, 2, 3 and so on with cell 0.
    fn exchanges(heap: Global, count: u16) -> Result<Vec<u8>, AllocError> {
        let mut text = Vec::new(heap);
        for number in 1..=count {
            let [high, low] = number.to_be_bytes();
            text.extend_from_slice(&[3, 0, high, low])?;
        }
        Ok(text)
    }

    // The two cores take turns until both logs are full. Each turn but the first logs an arc: 2,339 turns of core 0
    // and 2,338 of core 1 are accepted.
    fn fill(
        rt: &impl Abort,
        text: &[u8],
        cores: &mut [ScriptCore],
        cells: &mut [u16],
        store: &mut [u8],
    ) -> Result<(), Fail> {
        let mut recorder = Recorder::new(KeepAll);
        assert!(rt; recorder.begin(FULL, cores, cells, store).is_ok());
        for _ in 0..2338 {
            assert!(rt; recorder.turn(text, cores, cells, store, 0).is_ok());
            assert!(rt; recorder.turn(text, cores, cells, store, 1).is_ok());
        }
        assert!(rt; recorder.turn(text, cores, cells, store, 0).is_ok());
        assert!(rt; recorder.turn(text, cores, cells, store, 0).is_err());
        assert!(rt; recorder.turn(text, cores, cells, store, 1).is_err());
        Ok(())
    }

    // A thousand steps of each core: core 0 brings the number before its own, core 1 the same number,
    // and each waits for the other.
    fn step_full(
        rt: &impl Abort,
        replayer: &mut Replayer,
        text: &[u8],
        cores: &mut [ScriptCore],
        cells: &mut [u16],
        store: &[u8],
    ) -> Result<(), Fail> {
        for number in 1..=1000 {
            let exchange = Request::Exchange { cell: 0, number };
            let waiting = replayer.step(text, cores, cells, store, 1);
            assert_eq!(rt; waiting, waits(0, number));
            let first = replayer.step(text, cores, cells, store, 0);
            assert_eq!(rt; first, done(exchange, number, number - 1));
            let waiting = replayer.step(text, cores, cells, store, 0);
            assert_eq!(rt; waiting, waits(1, number));
            let second = replayer.step(text, cores, cells, store, 1);
            assert_eq!(rt; second, done(exchange, number, number));
        }
        Ok(())
    }

    // The logs that the two cores fill from these items.
    fn full_store(rt: &impl Abort, heap: Global, text: &[u8]) -> Result<Vec<u8>, Fail> {
        let mut cores = [ScriptCore::new(0); 2];
        let mut cells = [0];
        let mut store = vec![in heap; 0u8; 32768]?;
        fill(rt, text, &mut cores, &mut cells, store.as_mut_slice())?;
        assert_eq!(rt; cells, [2339]);
        Ok(store)
    }

    #[test]
    fn full_logs_are_replayed(rt: HostRuntime) -> Result<(), Fail> {
        let items = exchanges(rt.alloc(), 2340)?;
        let text = items.as_slice();
        let full = full_store(&rt, rt.alloc(), text)?;
        let store = full.as_slice();
        let mut replayer = Replayer::new();
        let mut cores = [ScriptCore::new(0); 2];
        let mut cells = [0];
        assert_eq!(rt; replayer.open(FULL, &cores, &cells, store), Ok(()));
        let whole = replayer.run(text, &mut cores, &mut cells, store);
        assert_eq!(rt; (whole, cells), (Ok(Ended::Finished(4677)), [2339]));
        cores = [ScriptCore::new(0); 2];
        cells = [0];
        assert_eq!(rt; replayer.open(FULL, &cores, &cells, store), Ok(()));
        step_full(&rt, &mut replayer, text, &mut cores, &mut cells, store)?;
        let rest = replayer.run(text, &mut cores, &mut cells, store);
        assert_eq!(rt; (rest, cells), (Ok(Ended::Finished(2677)), [2339]));
        Ok(())
    }
}
