// Tests of the listing: a store with each of the six causes, stores of arbitrary bytes, and a store of the largest size.
#![tactic(auto)]

#[cfg(test)]
mod tests {
    use listing::listing::list_logs;
    use records::settings::Sizes;
    use std::alloc::{AllocError, Global};
    use std::process::Abort;
    use std::test::Fail;

    // Core 0's log of two cores and one cell, 25 bytes: a head, an arc from 1:1 to 0:1, an end; then core 1's.
    const STORE: [u8; 50] = [
        0x48, 0x43, 0, 2, 0, 1, 0x41, 0x52, 1, 0, 1, 0, 1, 0x45, 0x44, 0, 1, 0, 1, 0, 0, 0, 0, 0,
        0, 0x48, 0x43, 1, 2, 0, 1, 0x45, 0x44, 0, 1, 0, 0, 0, 0, 0, 0, 0, 0, 0, 0, 0, 0, 0, 0, 0,
    ];

    // The listing of the store with one byte changed ends so.
    fn ends(rt: &impl Abort, heap: Global, at: usize, byte: u8, verdict: &str) -> Result<(), Fail> {
        let mut store = STORE;
        assert!(rt; at < 50);
        store[at] = byte;
        let sizes = Sizes {
            cores: 2,
            cells: 1,
            log_bytes: 25,
        };
        assert!(rt; list_logs(heap, &store, sizes)?.as_str().ends_with(verdict));
        Ok(())
    }

    #[test]
    fn each_cause_is_told(rt: HostRuntime) -> Result<(), Fail> {
        let heap = rt.alloc();
        ends(&rt, heap, 49, 7, "accepted\n")?;
        ends(
            &rt,
            heap,
            13,
            0x41,
            "refused: layer 1 fault in the log of core 0 at offset 13, cause 2: the mark is not that of a head, an arc or an end\n",
        )?;
        ends(
            &rt,
            heap,
            27,
            0,
            "refused: layer 2 fault in the log of core 1 at offset 0, cause 3: the first record is not this log's head, or a head comes later\n",
        )?;
        ends(&rt, heap, 8, 0, "target and source core twice\n")?;
        ends(
            &rt,
            heap,
            18,
            0,
            "refused: layer 2 fault in the log of core 0 at offset 13, cause 5: the end gives another number of arcs, or fewer instructions than the last target\n",
        )?;
        ends(
            &rt,
            heap,
            10,
            2,
            "refused: layer 3 fault in the log of core 0 at offset 6, cause 6: the source count is above the instructions of the source core\n",
        )?;
        let sizes = Sizes {
            cores: 1,
            cells: 1,
            log_bytes: 12,
        };
        let small = [0x48, 0x43, 0, 1, 0, 1, 0x45, 0x44, 0, 0, 0, 0];
        assert!(rt;
            list_logs(heap, &small, sizes)?.as_str()
                == "log of core 0\n  0 head core 0 of 1, 1 cell\n  6 end 0 instructions, 0 arcs\naccepted\n"
        );
        let cut = [0x48, 0x43, 0, 1, 0, 1, 0x41, 0x52, 0, 0, 0, 0];
        assert!(rt;
            list_logs(heap, &cut, sizes)?.as_str().ends_with(
                "offset 6, cause 1: the record or its mark is cut by the end of the log\n",
            )
        );
        assert!(rt;
            list_logs(heap, &[], sizes)?
                .as_str()
                .ends_with("at least cores x log bytes\n")
        );
        assert!(rt;
            list_logs(heap, &[0xff; 20], sizes)?.as_str().starts_with(
                "log of core 0\nrefused: layer 1 fault in the log of core 0 at offset 0, cause 2",
            )
        );
        Ok(())
    }

    // A log of 16,384 bytes with as many arcs as it holds: 2,338.
    fn push_full_log(store: &mut Vec<u8>, core: u8) -> Result<(), AllocError> {
        store.extend_from_slice(&[0x48, 0x43, core, 4, 0, 1])?;
        for target in 1..=2338u16 {
            let [high, low] = target.to_be_bytes();
            store.extend_from_slice(&[0x41, 0x52, core ^ 1, 0, 1, high, low])?;
        }
        store.extend_from_slice(&[0x45, 0x44, 0x09, 0x22, 0x09, 0x22, 0, 0, 0, 0, 0, 0])?;
        Ok(())
    }

    #[test]
    fn largest_store(rt: HostRuntime) -> Result<(), Fail> {
        let heap = rt.alloc();
        let mut store = Vec::new(heap);
        for core in 0..4 {
            push_full_log(&mut store, core)?;
        }
        assert_eq!(rt; store.len(), 65536);
        let sizes = Sizes {
            cores: 4,
            cells: 1,
            log_bytes: 16384,
        };
        let text = list_logs(heap, store.as_slice(), sizes)?;
        assert_eq!(rt; text.lines().count(), 4 * (1 + 1 + 2338 + 1) + 1);
        assert!(rt;
            text.as_str().ends_with(
                "  16365 arc from 2:1 to 3:2338\n  16372 end 2338 instructions, 2338 arcs\naccepted\n",
            )
        );
        Ok(())
    }
}
