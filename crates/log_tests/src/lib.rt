// Tests of reading logs: each fault's cause at its boundary.
#![tactic(auto)]

#[cfg(test)]
mod tests {
    use logs::session::read_logs;
    use records::faults::{ByteFault, Location, RecordFault, Refusal, SessionFault};
    use records::settings::Sizes;
    use std::alloc::{AllocError, Global};
    use std::process::Abort;
    use std::test::Fail;

    const HEAD: [u8; 6] = [0x48, 0x43, 0, 3, 0, 2];
    // cores 1 and 2 have three instructions each and no arcs
    const SECOND: [u8; 12] = [0x48, 0x43, 1, 3, 0, 2, 0x45, 0x44, 0, 3, 0, 0];

    const THIRD: [u8; 12] = [0x48, 0x43, 2, 3, 0, 2, 0x45, 0x44, 0, 3, 0, 0];

    // Each core's instructions, or why the logs are refused.
    type Answer = Result<[u16; 4], Refusal>;

    // Faults of core 0's log at an offset.
    fn at(offset: usize) -> Location {
        Location { core: 0, offset }
    }

    fn broken(fault: RecordFault) -> Answer {
        Err(Refusal::LogFault(SessionFault::Read(fault)))
    }

    fn cut(offset: usize) -> Answer {
        broken(RecordFault::Bytes(ByteFault::Cut(at(offset))))
    }

    fn no_mark(offset: usize) -> Answer {
        broken(RecordFault::Bytes(ByteFault::Mark(at(offset))))
    }

    fn bad_head(offset: usize) -> Answer {
        broken(RecordFault::BadHead(at(offset)))
    }

    fn bad_arc(offset: usize) -> Answer {
        broken(RecordFault::BadArc(at(offset)))
    }

    fn bad_end(offset: usize) -> Answer {
        broken(RecordFault::BadEnd(at(offset)))
    }

    fn bad_source(offset: usize) -> Answer {
        Err(Refusal::LogFault(SessionFault::Source(at(offset))))
    }

    // Puts a log and zeros behind it, `size` bytes in all, at the end of the store.
    fn push_log(store: &mut Vec<u8>, log: &[u8], size: usize) -> Result<(), AllocError> {
        for i in 0..size {
            store.push(log.get(i).copied().unwrap_or(0))?;
        }
        Ok(())
    }

    fn store_of(heap: Global, first: &[u8], size: usize) -> Result<Vec<u8>, AllocError> {
        let mut store = Vec::new(heap);
        push_log(&mut store, &HEAD, 6)?;
        push_log(&mut store, first, size.saturating_sub(6))?;
        push_log(&mut store, &SECOND, size)?;
        push_log(&mut store, &THIRD, size)?;
        Ok(store)
    }

    // What reading says of core 0's log, a right head and then these bytes, beside two right logs.
    fn says(
        rt: &impl Abort,
        heap: Global,
        rest: &[u8],
        size: usize,
        expected: Answer,
        case: &str,
    ) -> Result<(), Fail> {
        let store = store_of(heap, rest, size)?;
        let sizes = Sizes {
            cores: 3,
            cells: 2,
            log_bytes: size,
        };
        assert_eq!(rt; read_logs(store.as_slice(), sizes), expected, "{case}");
        Ok(())
    }

    #[test]
    fn cut_and_unknown_marks(rt: HostRuntime) -> Result<(), Fail> {
        let heap = rt.alloc();
        let arc = [0x41, 0x52, 1, 0, 1, 0, 1, 0x45, 0x44];
        says(&rt, heap, &arc, 12, cut(6), "a cut arc")?;
        says(&rt, heap, &arc, 13, cut(13), "no byte left")?;
        says(&rt, heap, &arc, 14, cut(13), "one byte left")?;
        says(
            &rt,
            heap,
            &arc,
            15,
            cut(13),
            "the mark of an end, and no more",
        )?;
        says(&rt, heap, &arc, 18, cut(13), "an end one byte short")?;
        says(
            &rt,
            heap,
            &[0x41, 0x52, 1, 0, 1, 0, 1],
            15,
            no_mark(13),
            "two bytes left, no mark",
        )?;
        says(
            &rt,
            heap,
            &[0x48, 0x43, 0, 3, 0],
            12,
            bad_head(6),
            "a head later, even if right",
        )?;
        says(&rt, heap, &[0x41, 0x53], 12, no_mark(6), "an unknown mark")?;
        says(&rt, heap, &[0x52, 0x41], 12, no_mark(6), "an unknown mark")
    }

    #[test]
    fn arcs_and_ends(rt: HostRuntime) -> Result<(), Fail> {
        let heap = rt.alloc();
        let one = [0x41, 0x52, 1, 0, 3, 0, 1, 0x45, 0x44, 0, 1, 0, 1];
        says(
            &rt,
            heap,
            &one,
            40,
            Ok([1, 3, 3, 0]),
            "source count equal to the instructions",
        )?;
        let above = [0x41, 0x52, 1, 0, 4, 0, 1, 0x45, 0x44, 0, 1, 0, 1];
        says(
            &rt,
            heap,
            &above,
            40,
            bad_source(6),
            "source count one above",
        )?;
        says(
            &rt,
            heap,
            &[0x41, 0x52, 0, 0, 1, 0, 1],
            40,
            bad_arc(6),
            "own core",
        )?;
        says(
            &rt,
            heap,
            &[0x41, 0x52, 3, 0, 1, 0, 1],
            40,
            bad_arc(6),
            "no such core",
        )?;
        says(
            &rt,
            heap,
            &[0x41, 0x52, 1, 0, 0, 0, 1],
            40,
            bad_arc(6),
            "source count 0",
        )?;
        says(
            &rt,
            heap,
            &[0x41, 0x52, 1, 0, 1, 0, 0],
            40,
            bad_arc(6),
            "target count 0",
        )?;
        says(
            &rt,
            heap,
            &[0x45, 0x44, 0, 0, 0, 1],
            40,
            bad_end(6),
            "an arc too many",
        )?;
        says(
            &rt,
            heap,
            &[0x45, 0x44, 0, 0, 0, 0],
            12,
            Ok([0, 3, 3, 0]),
            "no arcs, no instructions",
        )?;
        let short = [0x41, 0x52, 1, 0, 1, 0, 1, 0x45, 0x44, 0, 1, 0, 0];
        says(&rt, heap, &short, 40, bad_end(13), "an arc too few")?;
        let below = [0x41, 0x52, 1, 0, 1, 0, 2, 0x45, 0x44, 0, 1, 0, 1];
        says(
            &rt,
            heap,
            &below,
            40,
            bad_end(13),
            "instructions below the last target",
        )
    }

    #[test]
    fn targets_in_order(rt: HostRuntime) -> Result<(), Fail> {
        let heap = rt.alloc();
        let mut arcs = [
            0x41, 0x52, 2, 0, 1, 0, 2, 0x41, 0x52, 1, 0, 1, 0, 2, 0x41, 0x52, 2, 0, 2, 0, 3, 0x45,
            0x44, 0, 3, 0, 3,
        ];
        says(
            &rt,
            heap,
            &arcs,
            40,
            Ok([3, 3, 3, 0]),
            "equal targets from two cores, in any order",
        )?;
        arcs[20] = 2;
        says(
            &rt,
            heap,
            &arcs,
            40,
            bad_arc(20),
            "the same target and source core twice, not adjacent",
        )?;
        arcs[20] = 1;
        says(&rt, heap, &arcs, 40, bad_arc(20), "a falling target")
    }

    #[test]
    fn heads_and_settings(rt: HostRuntime) -> Result<(), Fail> {
        let end = [0x45, 0x44, 0, 0, 0, 0];
        let mut store = store_of(rt.alloc(), &end, 12)?;
        let sizes = Sizes {
            cores: 3,
            cells: 2,
            log_bytes: 12,
        };
        assert_eq!(rt;
            read_logs(store.as_slice(), Sizes { cells: 3, ..sizes }),
            bad_head(0)
        );
        assert_eq!(rt;
            read_logs(store.as_slice(), Sizes { cores: 2, ..sizes }),
            bad_head(0)
        );
        assert_eq!(rt;
            read_logs(store.as_slice(), Sizes { cores: 0, ..sizes }),
            Err(Refusal::BadSetting)
        );
        assert_eq!(rt;
            read_logs(store.as_slice(), Sizes { cores: 5, ..sizes }),
            Err(Refusal::BadSetting)
        );
        assert_eq!(rt;
            read_logs(store.as_slice(), Sizes { cells: 0, ..sizes }),
            Err(Refusal::BadSetting)
        );
        assert_eq!(rt;
            read_logs(
                store.as_slice(),
                Sizes {
                    cells: 257,
                    ..sizes
                }
            ),
            Err(Refusal::BadSetting)
        );
        assert_eq!(rt;
            read_logs(
                store.as_slice(),
                Sizes {
                    log_bytes: 11,
                    ..sizes
                }
            ),
            Err(Refusal::BadSetting)
        );
        assert_eq!(rt;
            read_logs(
                store.as_slice(),
                Sizes {
                    log_bytes: 13,
                    ..sizes
                }
            ),
            Err(Refusal::BadSetting)
        );
        let _ = store.pop();
        assert_eq!(rt;
            read_logs(store.as_slice(), sizes),
            Err(Refusal::BadSetting),
            "one byte short"
        );
        Ok(())
    }
}
