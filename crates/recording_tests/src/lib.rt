// Tests of recording: begin, turns, their answers and the logs that they leave.
#![tactic(auto)]

#[cfg(test)]
mod tests {
    use cores::interface::{Core, Request, StartingCore};
    use cores::register::RegisterCore;
    use cores::script::ScriptCore;
    use recorder::recording::{Recorded, Recorder};
    use recorder::rules::Refusal;
    use records::settings::Sizes;
    use reducers::exact::Exact;
    use reducers::interface::Reducer;
    use reducers::keep_all::KeepAll;
    use reducers::pairwise::Pairwise;
    use std::alloc::{AllocError, Global};
    use std::process::Abort;
    use std::test::*;

    // Core 0 from item 0: write 7 to cell 0. Core 1 from item 2: read cell 0, write 9 to cell 1.
    // Core 2 from item 5: read cell 1, write 4 to cell 0. Each then halts.
    const WORKED: &[u8; 32] = b"\x02\0\0\x07\xff\0\0\0\
        \x01\0\0\0\x02\x01\0\x09\xff\0\0\0\
        \x01\x01\0\0\x02\0\0\x04\xff\0\0\0";

    // The least log bytes with which every reducer can record the worked run.
    const LOG: usize = 33;

    fn sizes(cores: usize, cells: usize, log_bytes: usize) -> Sizes {
        Sizes {
            cores,
            cells,
            log_bytes,
        }
    }

    type Answer = Result<Recorded, Refusal>;

    // A turn that is carried out.
    fn done(request: Request, count: u16, number: u16, arcs: u16) -> Answer {
        Ok(Recorded {
            request,
            count,
            number,
            arcs,
        })
    }

    fn read(cell: u16) -> Request {
        Request::Read { cell }
    }

    fn write(cell: u16, number: u16) -> Request {
        Request::Write { cell, number }
    }

    // Three script cores over two cells, and a store of three logs.
    #[derive(Drop)]
    struct Bench<R> {
        recorder: Recorder<R>,
        cores: [ScriptCore; 3],
        cells: [u16; 2],
        store: [u8; 99],
    }

    impl<R: Reducer> Bench<R> {
        fn new(reducer: R, places: [u16; 3]) -> Bench<R> {
            let [first, second, third] = places;
            Bench {
                recorder: Recorder::new(reducer),
                cores: [
                    ScriptCore::new(first),
                    ScriptCore::new(second),
                    ScriptCore::new(third),
                ],
                cells: [0; 2],
                store: [0xee; 99],
            }
        }

        fn begin(&mut self, sizes: Sizes) -> Result<(), Refusal> {
            self.recorder
                .begin(sizes, &self.cores, &self.cells, &mut self.store)
        }

        fn turn(&mut self, text: &[u8], j: usize) -> Answer {
            self.recorder
                .turn(text, &mut self.cores, &mut self.cells, &mut self.store, j)
        }

        // Takes the turns in order, and holds each to its answer.
        fn play<const N: usize>(
            &mut self,
            rt: &impl Abort,
            text: &[u8],
            turns: [(usize, Answer); N],
        ) -> Result<(), Fail> {
            for (core, expected) in turns {
                assert_eq!(rt; self.turn(text, core), expected);
            }
            Ok(())
        }

        // Begins, and takes the turns.
        fn session<const N: usize>(
            &mut self,
            rt: &impl Abort,
            sizes: Sizes,
            text: &[u8],
            turns: [(usize, Answer); N],
        ) -> Result<(), Fail> {
            assert_eq!(rt; self.begin(sizes), Ok(()));
            self.play(rt, text, turns)
        }

        fn has_log(&self, core: u8, log: &[u8]) -> bool {
            for i in 0..LOG {
                let expected = log.get(i).copied().unwrap_or(0xee);
                if self.store.get(core as usize * LOG + i).copied() != Some(expected) {
                    return false;
                }
            }
            true
        }

        // Whether the three logs have these bytes, and nothing was written behind them.
        fn logged(&self, logs: [&[u8]; 3]) -> bool {
            let [first, second, third] = logs;
            self.has_log(0, first) && self.has_log(1, second) && self.has_log(2, third)
        }
    }

    // What core 2's last turn logs, and so its log, differs between the reducers.
    fn worked<R: Reducer + Drop>(
        rt: &impl Abort,
        reducer: R,
        last: u16,
        third: &[u8],
    ) -> Result<(), Fail> {
        let mut bench = Bench::new(reducer, [0, 2, 5]);
        let turns = [
            (0, done(write(0, 7), 1, 0, 0)),
            (1, done(read(0), 1, 7, 1)),
            (1, done(write(1, 9), 2, 0, 0)),
            (2, done(read(1), 1, 9, 1)),
            (2, done(write(0, 4), 2, 0, last)),
            (2, Err(Refusal::Halted)),
        ];
        bench.session(rt, sizes(3, 2, LOG), WORKED, turns)?;
        assert!(rt;
            bench.logged([
                b"HC\0\x03\0\x02ED\0\x01\0\0",
                b"HC\x01\x03\0\x02AR\0\0\x01\0\x01ED\0\x02\0\x01",
                third,
            ])
        );
        assert_eq!(rt; bench.cells, [4, 9]);
        Ok(())
    }

    #[test]
    fn worked_run(rt: HostRuntime) -> Result<(), Fail> {
        let exact = b"HC\x02\x03\0\x02AR\x01\0\x02\0\x01ED\0\x02\0\x01";
        worked(&rt, Exact::new(), 0, exact)?;
        let pairwise = b"HC\x02\x03\0\x02AR\x01\0\x02\0\x01AR\0\0\x01\0\x02ED\0\x02\0\x02";
        worked(&rt, Pairwise::new(), 1, pairwise)?;
        let keep_all =
            b"HC\x02\x03\0\x02AR\x01\0\x02\0\x01AR\x01\0\x01\0\x02AR\0\0\x01\0\x02ED\0\x02\0\x03";
        worked(&rt, KeepAll, 2, keep_all)
    }

    // Core 0 reads cell 0 and writes cell 1; core 1 reads cell 1 and cell 0; core 2 writes cell 0.
    // That 0:1 precedes 2:1 follows from the arcs to and from core 1.
    #[test]
    fn known_through_a_read(rt: HostRuntime) -> Result<(), Fail> {
        let text = b"\x01\0\0\0\x02\x01\0\x05\x01\x01\0\0\x01\0\0\0\x02\0\0\x06";
        let mut bench = Bench::new(Exact::new(), [0, 2, 4]);
        let turns = [
            (0, done(read(0), 1, 0, 0)),
            (0, done(write(1, 5), 2, 0, 0)),
            (1, done(read(1), 1, 5, 1)),
            (1, done(read(0), 2, 0, 0)),
            (2, done(write(0, 6), 1, 0, 1)),
        ];
        bench.session(&rt, sizes(3, 2, LOG), text, turns)?;
        assert!(rt;
            bench.logged([
                b"HC\0\x03\0\x02ED\0\x02\0\0",
                b"HC\x01\x03\0\x02AR\0\0\x02\0\x01ED\0\x02\0\x01",
                b"HC\x02\x03\0\x02AR\x01\0\x02\0\x01ED\0\x01\0\x01",
            ])
        );
        Ok(())
    }

    // Core 0 writes cell 0 and reads it; core 1 reads it and writes it, which follows core 0's read.
    #[test]
    fn a_later_read_of_the_writer(rt: HostRuntime) -> Result<(), Fail> {
        let text = b"\x02\0\0\x07\x01\0\0\0\x01\0\0\0\x02\0\0\x08";
        let mut bench = Bench::new(Exact::new(), [0, 2, 4]);
        let turns = [
            (0, done(write(0, 7), 1, 0, 0)),
            (0, done(read(0), 2, 7, 0)),
            (1, done(read(0), 1, 7, 1)),
            (1, done(write(0, 8), 2, 0, 1)),
        ];
        bench.session(&rt, sizes(3, 2, LOG), text, turns)?;
        assert!(rt;
            bench.logged([
                b"HC\0\x03\0\x02ED\0\x02\0\0",
                b"HC\x01\x03\0\x02AR\0\0\x01\0\x01AR\0\0\x02\0\x02ED\0\x02\0\x02",
                b"HC\x02\x03\0\x02ED\0\0\0\0",
            ])
        );
        Ok(())
    }

    // An access is taken only where an arc from each other core fits, needed or not; a local request always is.
    #[test]
    fn room_for_arcs(rt: HostRuntime) -> Result<(), Fail> {
        let text = b"\x02\0\0\x07\0\0\0\0\x02\x01\0\x09\x01\x02\0\0";
        let mut bench = Bench::new(Exact::new(), [0, 1, 3]);
        assert_eq!(rt; bench.begin(sizes(3, 2, 25)), Ok(()));
        let before = bench.store;
        bench.play(
            &rt,
            text,
            [(0, Err(Refusal::LogFull)), (2, Err(Refusal::NoSuchCell))],
        )?;
        assert!(rt; bench.store == before && bench.cells == [0, 0]);
        bench.play(
            &rt,
            text,
            [
                (1, done(Request::Local, 1, 0, 0)),
                (1, Err(Refusal::LogFull)),
            ],
        )?;
        let turns = [
            (0, done(write(0, 7), 1, 0, 0)),
            (1, done(write(1, 9), 1, 0, 0)),
        ];
        bench.session(&rt, sizes(3, 2, 26), text, turns)?;
        assert_eq!(rt; bench.cells, [7, 9]);
        Ok(())
    }

    // Write, read, exchange and read cell 0, in a log without room for an arc.
    #[test]
    fn one_core_needs_no_room(rt: HostRuntime) -> Result<(), Fail> {
        let text = b"\x02\0\0\x07\x01\0\0\0\x03\0\x01\x02\x01\0\0\0";
        let mut bench = Bench::new(Pairwise::new(), [0, 0, 0]);
        let exchange = Request::Exchange {
            cell: 0,
            number: 258,
        };
        let turns = [
            (0, done(write(0, 7), 1, 0, 0)),
            (0, done(read(0), 2, 7, 0)),
            (0, done(exchange, 3, 7, 0)),
            (0, done(read(0), 4, 258, 0)),
            (0, Err(Refusal::Halted)),
            (1, Err(Refusal::NoSuchCore)),
        ];
        bench.session(&rt, sizes(1, 1, 12), text, turns)?;
        assert!(rt; bench.has_log(0, b"HC\0\x01\0\x01ED\0\x04\0\0"));
        Ok(())
    }

    // Turns with buffers one core, one cell or one byte too short, of a core that there is not.
    fn cut<R: Reducer>(bench: &mut Bench<R>, text: &[u8]) -> [Answer; 3] {
        let Bench {
            recorder,
            cores,
            cells,
            store,
        } = bench;
        [
            recorder.turn(text, &mut cores[0..2], cells, store, 7),
            recorder.turn(text, cores, &mut cells[0..1], store, 7),
            recorder.turn(text, cores, cells, &mut store[0..98], 7),
        ]
    }

    // Core 0 reads cell 1, core 1 halts and core 2 is local. The first reason that there is, is answered.
    #[test]
    fn refusals(rt: HostRuntime) -> Result<(), Fail> {
        let text = b"\x01\x01\0\0\xff\0\0\0\0\0\0\0";
        let mut bench = Bench::new(Exact::new(), [0, 1, 2]);
        bench.play(
            &rt,
            text,
            [(0, Err(Refusal::BadSetting)), (7, Err(Refusal::BadSetting))],
        )?;
        let turns = [
            (2, Err(Refusal::NoSuchCore)),
            (7, Err(Refusal::NoSuchCore)),
            (1, Err(Refusal::Halted)),
            (0, Err(Refusal::NoSuchCell)),
        ];
        bench.session(&rt, sizes(2, 1, 12), text, turns)?;
        assert_eq!(rt; bench.begin(sizes(3, 2, LOG)), Ok(()));
        let before = bench.store;
        assert_eq!(rt;
            cut(&mut bench, text),
            [
                Err(Refusal::BadSetting),
                Err(Refusal::BadSetting),
                Err(Refusal::BadSetting)
            ]
        );
        assert_eq!(rt; bench.begin(sizes(3, 2, 34)), Err(Refusal::BadSetting));
        assert!(rt; bench.store == before);
        bench.play(
            &rt,
            text,
            [
                (7, Err(Refusal::NoSuchCore)),
                (2, done(Request::Local, 1, 0, 0)),
            ],
        )
    }

    // Sizes, what begin answers, and the count of core 0's next turn: a refused begin keeps the former recording.
    fn limits(
        rt: &impl Abort,
        recorder: &mut Recorder<KeepAll>,
        cores: &mut [ScriptCore],
        cells: &mut [u16],
        store: &mut [u8],
    ) -> Result<(), Fail> {
        let refused = Err(Refusal::BadSetting);
        let rows = [
            (sizes(1, 1, 12), Ok(()), 1),
            (sizes(0, 1, 12), refused, 2),
            (sizes(5, 1, 12), refused, 3),
            (sizes(1, 0, 12), refused, 4),
            (sizes(1, 257, 12), refused, 5),
            (sizes(1, 1, 11), refused, 6),
            (sizes(1, 1, 16385), refused, 7),
            (sizes(2, 1, 8193), refused, 8),
            (sizes(4, 256, 12), Ok(()), 1),
            (sizes(1, 1, 16384), Ok(()), 1),
        ];
        for (asked, expected, count) in rows {
            assert_eq!(rt; recorder.begin(asked, cores, cells, store), expected);
            let local = recorder.turn(&[0; 64], cores, cells, store, 0);
            assert_eq!(rt; local, done(Request::Local, count, 0, 0));
        }
        Ok(())
    }

    #[test]
    fn limits_of_begin(rt: HostRuntime) -> Result<(), Fail> {
        let mut recorder = Recorder::new(KeepAll);
        let mut cores = [ScriptCore::new(0); 5];
        let mut cells = [0; 257];
        let mut store = [0; 16385];
        let few_cores = recorder.begin(sizes(4, 1, 12), &cores[0..3], &cells, &mut store);
        let few_cells = recorder.begin(sizes(1, 9, 12), &cores, &cells[0..8], &mut store);
        assert_eq!(rt; [few_cores, few_cells], [Err(Refusal::BadSetting); 2]);
        limits(&rt, &mut recorder, &mut cores, &mut cells, &mut store)
    }

    // Register 0 is 0, so that items 0 and 1, set it to 0 and go to item 0 if it is 0, never end.
    fn spend(
        rt: &impl Abort,
        recorder: &mut Recorder<KeepAll>,
        cores: &mut [RegisterCore],
        cells: &mut [u16],
        store: &mut [u8],
    ) -> Result<(), Fail> {
        let text = b"\x04\0\0\0\x07\0\0\0";
        for count in 1..=65535 {
            let local = recorder.turn(text, cores, cells, store, 0);
            assert_eq!(rt; local, done(Request::Local, count, 0, 0));
        }
        // then item 1 goes on, or reads a cell that is not there, or halts
        let more = recorder.turn(text, cores, cells, store, 0);
        let missing = recorder.turn(b"\0\0\0\0\x01\0\0\xc8", cores, cells, store, 0);
        let halt = recorder.turn(b"\0\0\0\0\xff\0\0\0", cores, cells, store, 0);
        assert_eq!(rt;
            [more, missing, halt],
            [
                Err(Refusal::CountSpent),
                Err(Refusal::CountSpent),
                Err(Refusal::Halted)
            ]
        );
        Ok(())
    }

    #[test]
    fn count_is_spent(rt: HostRuntime) -> Result<(), Fail> {
        let mut recorder = Recorder::new(KeepAll);
        let mut cores = [RegisterCore::new(0)];
        let mut cells = [0];
        let mut store = [0; 12];
        let begun = recorder.begin(sizes(1, 1, 12), &cores, &cells, &mut store);
        assert_eq!(rt; begun, Ok(()));
        spend(&rt, &mut recorder, &mut cores, &mut cells, &mut store)?;
        assert_eq!(rt; &store, b"HC\0\x01\0\x01ED\xff\xff\0\0");
        Ok(())
    }

    // Cores 0 and 1 write and read cell 0 in each of two recordings, then core 2 exchanges it in a third.
    fn begun_again<R: Reducer + Drop>(rt: &impl Abort, reducer: R) -> Result<(), Fail> {
        let text = b"\x02\0\0\x07\x02\0\0\x08\x01\0\0\0\x01\0\0\0\x03\0\0\x09";
        let mut bench = Bench::new(reducer, [0, 2, 4]);
        for number in [7, 8] {
            let turns = [
                (0, done(write(0, number), 1, 0, 0)),
                (1, done(read(0), 1, number, 1)),
            ];
            bench.session(rt, sizes(3, 2, LOG), text, turns)?;
        }
        let exchange = Request::Exchange { cell: 0, number: 9 };
        bench.session(rt, sizes(3, 2, LOG), text, [(2, done(exchange, 1, 8, 0))])?;
        assert!(rt; bench.store[0..12].starts_with(b"HC\0\x03\0\x02ED\0\0\0\0"));
        Ok(())
    }

    #[test]
    fn a_second_begin_forgets(rt: HostRuntime) -> Result<(), Fail> {
        begun_again(&rt, Exact::new())?;
        begun_again(&rt, Pairwise::new())?;
        begun_again(&rt, KeepAll)
    }

    // Four cores and 256 cells: cores 0, 1 and 2 read cell 255, core 3 writes it, and has no room for another access.
    fn largest_session(
        rt: &impl Abort,
        cores: &mut [ScriptCore; 4],
        cells: &mut [u16; 256],
        store: &mut [u8; 132],
    ) -> Result<(), Fail> {
        let text = b"\x01\xff\0\0\x02\xff\x01\x02\x01\xff\0\0";
        let mut recorder = Recorder::new(Exact::new());
        assert_eq!(rt;
            recorder.begin(sizes(4, 256, 33), cores, cells, store),
            Ok(())
        );
        let turns = [
            (0, done(read(255), 1, 5, 0)),
            (1, done(read(255), 1, 5, 0)),
            (2, done(read(255), 1, 5, 0)),
            (3, done(write(255, 258), 1, 0, 3)),
            (3, Err(Refusal::LogFull)),
            (4, Err(Refusal::NoSuchCore)),
        ];
        for (core, expected) in turns {
            assert_eq!(rt; recorder.turn(text, cores, cells, store, core), expected);
        }
        Ok(())
    }

    #[test]
    fn four_cores_and_256_cells(rt: HostRuntime) -> Result<(), Fail> {
        let mut cores = [ScriptCore::new(0); 4];
        cores[3] = ScriptCore::new(1);
        let mut cells = [0; 256];
        cells[255] = 5;
        let mut store = [0xee; 132];
        largest_session(&rt, &mut cores, &mut cells, &mut store)?;
        assert_eq!(rt; [cells[0], cells[254], cells[255]], [0, 0, 258]);
        assert!(rt; store[0..13].starts_with(b"HC\0\x04\x01\0ED\0\x01\0\0\xee"));
        assert!(rt; store[33..46].starts_with(b"HC\x01\x04\x01\0ED\0\x01\0\0\xee"));
        assert!(rt; store[66..79].starts_with(b"HC\x02\x04\x01\0ED\0\x01\0\0\xee"));
        let fourth =
            b"HC\x03\x04\x01\0AR\x02\0\x01\0\x01AR\x01\0\x01\0\x01AR\0\0\x01\0\x01ED\0\x01\0\x03";
        assert!(rt; store[99..132].starts_with(fourth));
        Ok(())
    }

    // Both cores write cell 0 in turn, so that each turn but the first logs an arc; three fill a log of 33 bytes.
    // A local request is then still taken, an access no more.
    fn full_logs<R: Reducer + Drop>(rt: &impl Abort, reducer: R) -> Result<(), Fail> {
        let text = b"\x02\0\0\x01\x02\0\0\x02\x02\0\0\x03\x02\0\0\x04\0\0\0\0\x01\0\0\0";
        let mut bench = Bench::new(reducer, [0, 1, 0]);
        let turns = [
            (0, done(write(0, 1), 1, 0, 0)),
            (1, done(write(0, 2), 1, 0, 1)),
            (0, done(write(0, 2), 2, 0, 1)),
            (1, done(write(0, 3), 2, 0, 1)),
            (0, done(write(0, 3), 3, 0, 1)),
            (1, done(write(0, 4), 3, 0, 1)),
            (0, done(write(0, 4), 4, 0, 1)),
            (1, done(Request::Local, 4, 0, 0)),
            (1, Err(Refusal::LogFull)),
            (0, done(Request::Local, 5, 0, 0)),
            (0, Err(Refusal::LogFull)),
            (1, Err(Refusal::LogFull)),
        ];
        bench.session(rt, sizes(2, 1, LOG), text, turns)?;
        assert!(rt;
            bench.logged([
                b"HC\0\x02\0\x01AR\x01\0\x01\0\x02AR\x01\0\x02\0\x03AR\x01\0\x03\0\x04ED\0\x05\0\x03",
                b"HC\x01\x02\0\x01AR\0\0\x01\0\x01AR\0\0\x02\0\x02AR\0\0\x03\0\x03ED\0\x04\0\x03",
                b"",
            ])
        );
        assert_eq!(rt; bench.cells, [4, 0]);
        Ok(())
    }

    #[test]
    fn logs_get_full(rt: HostRuntime) -> Result<(), Fail> {
        full_logs(&rt, Exact::new())?;
        full_logs(&rt, Pairwise::new())?;
        full_logs(&rt, KeepAll)
    }

    // Items that exchange 1, 2, 3 and so on with cell 0.
    fn exchanges(heap: Global, count: u16) -> Result<Vec<u8>, AllocError> {
        let mut text = Vec::new(heap);
        for number in 1..=count {
            let [high, low] = number.to_be_bytes();
            text.extend_from_slice(&[3, 0, high, low])?;
        }
        Ok(text)
    }

    // A turn of each core for each number up to 2338: core 0 brings the number before it, core 1 the same number.
    fn take_turns(
        rt: &impl Abort,
        recorder: &mut Recorder<KeepAll>,
        text: &[u8],
        cores: &mut [ScriptCore],
        cells: &mut [u16],
        store: &mut [u8],
    ) -> Result<(), Fail> {
        for number in 1..=2338 {
            let exchange = Request::Exchange { cell: 0, number };
            let arcs = u16::from(number > 1);
            let first = recorder.turn(text, cores, cells, store, 0);
            assert_eq!(rt; first, done(exchange, number, number - 1, arcs));
            let second = recorder.turn(text, cores, cells, store, 1);
            assert_eq!(rt; second, done(exchange, number, number, 1));
        }
        Ok(())
    }

    // Each turn but the first logs an arc. A log of 16,384 bytes has room for 2,338: head and end take 12 bytes,
    // these arcs 7 * 2338 = 16366, and 6 bytes are left, where an access needs 7. So core 0 makes 2,339 accesses.
    fn fill(
        rt: &impl Abort,
        text: &[u8],
        cores: &mut [ScriptCore],
        cells: &mut [u16],
        store: &mut [u8],
    ) -> Result<(), Fail> {
        let mut recorder = Recorder::new(KeepAll);
        assert_eq!(rt;
            recorder.begin(sizes(2, 1, 16384), cores, cells, store),
            Ok(())
        );
        take_turns(rt, &mut recorder, text, cores, cells, store)?;
        let full = recorder.turn(text, cores, cells, store, 1);
        let exchange = Request::Exchange {
            cell: 0,
            number: 2339,
        };
        let last = recorder.turn(text, cores, cells, store, 0);
        assert_eq!(rt;
            [full, last],
            [Err(Refusal::LogFull), done(exchange, 2339, 2338, 1)]
        );
        let first = recorder.turn(text, cores, cells, store, 0);
        let second = recorder.turn(text, cores, cells, store, 1);
        assert_eq!(rt;
            [first, second],
            [Err(Refusal::LogFull), Err(Refusal::LogFull)]
        );
        Ok(())
    }

    fn has_at(store: &[u8], from: usize, bytes: &[u8]) -> bool {
        store
            .get(from..)
            .is_some_and(|rest| rest.starts_with(bytes))
    }

    #[test]
    fn the_largest_logs_get_full(rt: HostRuntime) -> Result<(), Fail> {
        let text = exchanges(rt.alloc(), 2340)?;
        let mut cores = [ScriptCore::new(0); 2];
        let mut cells = [0];
        let mut store = vec![in rt.alloc(); 0xeeu8; 32769]?;
        fill(
            &rt,
            text.as_slice(),
            &mut cores,
            &mut cells,
            store.as_mut_slice(),
        )?;
        assert_eq!(rt; cells, [2339]);
        // each log's last arc and end, and the bytes behind
        let first = b"AR\x01\x09\x22\x09\x23ED\x09\x23\x09\x22\xee\xee\xee\xee\xee\xeeHC\x01";
        assert!(rt; has_at(store.as_slice(), 16365, first));
        let second = b"AR\0\x09\x22\x09\x22ED\x09\x22\x09\x22\xee\xee\xee\xee\xee\xee\xee";
        assert!(rt; has_at(store.as_slice(), 32749, second));
        Ok(())
    }
}
