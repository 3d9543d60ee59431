// Tests of writing logs: the worked bytes, resuming a reader, and writing out.
#![tactic(auto)]

#[cfg(test)]
mod tests {
    use logs::write_out::write_logs;
    use records::faults::Refusal;
    use records::format::{Arc, Record, Source};
    use records::reading::Reader;
    use records::settings::{Heading, Sizes};
    use records::writing::write_record;
    use std::test::Fail;

    // Three logs of 26 bytes: two arcs to core 0, and none to the others.
    const SIZES: Sizes = Sizes {
        cores: 3,
        cells: 2,
        log_bytes: 26,
    };

    const STORE: [u8; 78] = [
        0x48, 0x43, 0, 3, 0, 2, 0x41, 0x52, 2, 0, 1, 0, 2, 0x41, 0x52, 1, 0, 1, 0, 2, 0x45, 0x44,
        0, 2, 0, 2, //
        0x48, 0x43, 1, 3, 0, 2, 0x45, 0x44, 0, 3, 0, 0, 0, 0, 0, 0, 0, 0, 0, 0, 0, 0, 0, 0, 0, 0, //
        0x48, 0x43, 2, 3, 0, 2, 0x45, 0x44, 0, 3, 0, 0, 0, 0, 0, 0, 0, 0, 0, 0, 0, 0, 0, 0, 0, 0,
    ];

    // Core 1's log of the first worked run.
    const WORKED: [u8; 19] = [
        0x48, 0x43, 1, 3, 0, 2, 0x41, 0x52, 0, 0, 1, 0, 1, 0x45, 0x44, 0, 2, 0, 1,
    ];

    #[test]
    fn worked_bytes_are_written(rt: HostRuntime) {
        let mut store = [0xee; 75];
        let sizes = Sizes {
            cores: 3,
            cells: 2,
            log_bytes: 25,
        };
        let head = Record::Head(Heading {
            core: 1,
            cores: 3,
            cells: 2,
        });
        let arc = Record::Arc(Arc {
            source: Source { core: 0, count: 1 },
            target: 1,
        });
        let end = Record::End {
            instructions: 2,
            arcs: 1,
        };
        assert!(rt; matches!(write_record(&mut store, sizes, 1, 0, head), Ok(6)));
        assert!(rt; matches!(write_record(&mut store, sizes, 1, 6, arc), Ok(13)));
        assert!(rt; matches!(write_record(&mut store, sizes, 1, 13, end), Ok(19)));
        assert!(rt; store[25..44] == WORKED[0..19]);
        assert!(rt;
            matches!(write_record(&mut store, sizes, 2, 19, end), Ok(25)),
            "up to the log's last byte"
        );
        assert!(rt;
            matches!(
                write_record(&mut store, sizes, 1, 20, end),
                Err(Refusal::BadSetting)
            ),
            "one byte too far"
        );
        assert!(rt;
            matches!(
                write_record(&mut store, sizes, 3, 0, end),
                Err(Refusal::BadSetting)
            ),
            "no such log"
        );
        assert!(rt;
            store[44..69] == [0xee; 25],
            "nothing written behind the end or on a refusal"
        );
    }

    #[test]
    fn reading_resumes(rt: HostRuntime) -> Result<(), Fail> {
        let store = STORE;
        let Ok(mut reader) = Reader::new(&store, SIZES, 0) else {
            return Err(Fail::new("no reader"));
        };
        assert!(rt; reader.place().is_none(), "before the head");
        assert!(rt; matches!(reader.next_record(), Ok(Some(Record::Head(_)))));
        assert!(rt;
            matches!(
                reader.next_record(),
                Ok(Some(Record::Arc(Arc {
                    source: Source { core: 2, .. },
                    ..
                })))
            )
        );
        let Some(place) = reader.place() else {
            return Err(Fail::new("no place among the arcs"));
        };
        assert_eq!(rt; place.offset, 13);
        let Ok(mut again) = Reader::resume(&store, SIZES, 0, place) else {
            return Err(Fail::new("no reader"));
        };
        assert!(rt;
            matches!(
                again.next_record(),
                Ok(Some(Record::Arc(Arc {
                    source: Source { core: 1, .. },
                    ..
                })))
            )
        );
        assert!(rt;
            matches!(
                again.next_record(),
                Ok(Some(Record::End {
                    instructions: 2,
                    arcs: 2
                }))
            )
        );
        assert!(rt;
            matches!(again.next_record(), Ok(None)),
            "after the end nothing more is read"
        );
        assert_eq!(rt; again.instructions(), 2);
        Ok(())
    }

    #[test]
    fn logs_are_written_out(rt: HostRuntime) {
        let mut store = STORE;
        let mut out = [0xee; 79];
        assert!(rt;
            matches!(
                write_logs(&store, SIZES, &mut out[0..77]),
                Err(Refusal::BadSetting)
            )
        );
        assert!(rt; out == [0xee; 79], "too few output bytes: nothing written");
        assert!(rt; write_logs(&store, SIZES, &mut out).is_ok());
        assert!(rt; out[0..38] == store[0..38]);
        assert!(rt;
            out[38..52] == [0xee; 14],
            "behind the end of the second log"
        );
        assert!(rt; out[52..64] == store[52..64]);
        assert!(rt;
            out[64..79] == [0xee; 15],
            "behind the last end, and behind the logs"
        );
        store[12] = 0;
        let mut other = [0xee; 78];
        assert!(rt;
            matches!(
                write_logs(&store, SIZES, &mut other),
                Err(Refusal::LogFault(_))
            )
        );
        assert!(rt; other == [0xee; 78], "a fault: nothing written");
    }
}
