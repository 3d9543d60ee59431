// Tests of the bench program's answer: runs of every kind and reducer, input that describes no session, and the bounds.
#![tactic(auto)]

#[cfg(test)]
mod tests {
    use bench_answer::answer::answer;
    use std::alloc::{AllocError, Global};
    use std::process::Abort;
    use std::test::Fail;

    // Three cores, two cells, and the items, starting items and turns of the first worked run.
    const FIRST: &str =
        " 3 2 8 2 0 0 7 255 0 0 0 1 0 0 0 2 1 0 9 255 0 0 0 1 1 0 0 2 0 0 4 255 0 0 0 0 2 5 5 0 1 1 2 2";

    // The answer to the input is the text.
    fn says(rt: &impl Abort, heap: Global, input: &str, text: &str) -> Result<(), Fail> {
        assert!(rt; answer(heap, input.as_bytes())?.as_bytes() == text.as_bytes());
        Ok(())
    }

    // The same for the first worked run, behind the numbers of kind and reducer.
    fn first_says(rt: &impl Abort, heap: Global, kind: &str, text: &str) -> Result<(), Fail> {
        let mut input = String::from_str(heap, kind)?;
        input.push_str(FIRST)?;
        says(rt, heap, input.as_str(), text)
    }

    #[test]
    fn each_reducer_lists_its_arcs(rt: HostRuntime) -> Result<(), Fail> {
        let heap = rt.alloc();
        first_says(
            &rt,
            heap,
            "0 0",
            "arc 0 1 1 1\narc 1 2 2 1\narc 1 1 2 2\narc 0 1 2 2\ncells 4 9\nreplayed 5\n",
        )?;
        first_says(
            &rt,
            heap,
            "0 1",
            "arc 0 1 1 1\narc 1 2 2 1\narc 0 1 2 2\ncells 4 9\nreplayed 5\n",
        )?;
        first_says(
            &rt,
            heap,
            "0 2",
            "arc 0 1 1 1\narc 1 2 2 1\ncells 4 9\nreplayed 5\n",
        )
    }

    // Two register cores: each sets register 1 to 5 and exchanges it with cell 0; then turns that are refused.
    #[test]
    fn registers_exchange(rt: HostRuntime) -> Result<(), Fail> {
        says(
            &rt,
            rt.alloc(),
            "1 2 2 1 3 4 1 0 5 3 1 0 0 0 0 0 0 0 0 8 0 1 0 1 0 1 7 65535",
            "arc 0 2 1 2\ncells 5\nreplayed 4\n",
        )
    }

    #[test]
    fn nothing_runs(rt: HostRuntime) -> Result<(), Fail> {
        let heap = rt.alloc();
        says(
            &rt,
            heap,
            "\t0 2 1 1 0\r\n0065535 0\n",
            "cells 0\nreplayed 0\n",
        )?;
        says(&rt, heap, "0 0 1 2 0 0 2 0 3", "cells 0 0\nreplayed 0\n")
    }

    #[test]
    fn other_input_is_bad(rt: HostRuntime) -> Result<(), Fail> {
        let heap = rt.alloc();
        says(&rt, heap, "", "bad\n")?;
        says(&rt, heap, "0 2 1 1 0 0 0 0", "bad\n")?;
        says(&rt, heap, "0 2 1 1 0 0", "bad\n")?;
        says(&rt, heap, "2 2 1 1 0 0 0", "bad\n")?;
        says(&rt, heap, "0 3 1 1 0 0 0", "bad\n")?;
        says(&rt, heap, "0 2 5 1 0 0 0 0 0 0 0", "bad\n")?;
        says(&rt, heap, "0 2 1 1 0 +1 0", "bad\n")
    }

    // Words, and how many times they stand there.
    type Part<'a> = (&'a str, usize);

    fn push_part(text: &mut String, part: Part) -> Result<(), AllocError> {
        let (words, times) = part;
        for _ in 0..times {
            text.push_str(words)?;
        }
        Ok(())
    }

    fn spelled(heap: Global, parts: &[Part]) -> Result<String, AllocError> {
        let mut text = String::new(heap);
        for part in parts {
            push_part(&mut text, *part)?;
        }
        Ok(text)
    }

    // The most and one more of items, turns and cells, and the largest starting item and byte of an item and one above.
    #[test]
    fn bounds(rt: HostRuntime) -> Result<(), Fail> {
        let heap = rt.alloc();
        let bad: &[Part] = &[("bad\n", 1)];
        let nothing: &[Part] = &[("cells 0\nreplayed 0\n", 1)];
        let rows: [(&[Part], &[Part]); 11] = [
            (
                &[
                    ("0 2 1 1 256", 1),
                    (" 0 0 0 0", 256),
                    (" 0 1024", 1),
                    (" 0", 1024),
                ],
                &[("cells 0\nreplayed 256\n", 1)],
            ),
            (&[("0 2 1 1 257", 1), (" 0 0 0 0", 257), (" 0 0", 1)], bad),
            (&[("0 2 1 1 0 0 1024", 1), (" 0", 1024)], nothing),
            (&[("0 2 1 1 0 0 1025", 1), (" 0", 1025)], bad),
            (
                &[("0 2 1 256 0 0 0", 1)],
                &[("cells", 1), (" 0", 256), ("\nreplayed 0\n", 1)],
            ),
            (&[("0 2 1 257 0 0 0", 1)], bad),
            (&[("0 2 1 1 0 65535 0", 1)], nothing),
            (&[("0 2 1 1 0 65536 0", 1)], bad),
            (
                &[("0 2 1 256 1 2 255 255 255 0 1 0", 1)],
                &[("cells", 1), (" 0", 255), (" 65535\nreplayed 1\n", 1)],
            ),
            (&[("0 2 1 1 1 2 0 256 0 0 0", 1)], bad),
            (&[("0 2 1 1 0 0 1 65535", 1)], nothing),
        ];
        for (input, text) in rows {
            says(
                &rt,
                heap,
                spelled(heap, input)?.as_str(),
                spelled(heap, text)?.as_str(),
            )?;
        }
        Ok(())
    }

    // The answer has so many arcs, and ends so.
    fn ends(
        rt: &impl Abort,
        heap: Global,
        input: &[Part],
        arcs: usize,
        text: &str,
    ) -> Result<(), Fail> {
        let input = spelled(heap, input)?;
        let answered = answer(heap, input.as_bytes())?;
        let lines = answered.as_str().lines();
        assert_eq!(rt; lines.filter(|line| line.starts_with("arc ")).count(), arcs);
        assert!(rt; answered.as_str().ends_with(text));
        Ok(())
    }

    // Two register cores read a cell in turn, and the third writes it, which logs two arcs: its log holds 583, where it begins with one
    // arc, and else 582; it is full then. The items are 15 reads and a jump back, and 15 writes and a jump back.
    #[test]
    fn full_logs(rt: HostRuntime) -> Result<(), Fail> {
        let heap = rt.alloc();
        let items = (
            "1 0 3 1 32 \
             1 1 0 0 1 1 0 0 1 1 0 0 1 1 0 0 1 1 0 0 1 1 0 0 1 1 0 0 1 1 0 0 1 1 0 0 1 1 0 0 \
             1 1 0 0 1 1 0 0 1 1 0 0 1 1 0 0 1 1 0 0 7 0 0 0 \
             2 1 0 0 2 1 0 0 2 1 0 0 2 1 0 0 2 1 0 0 2 1 0 0 2 1 0 0 2 1 0 0 2 1 0 0 2 1 0 0 \
             2 1 0 0 2 1 0 0 2 1 0 0 2 1 0 0 2 1 0 0 7 0 0 16 \
             0 0 16",
            1,
        );
        ends(
            &rt,
            heap,
            &[items, (" 1024", 1), (" 0 1 2", 341), (" 0", 1)],
            320 + 319 + 582,
            "\narc 0 310 2 310\ncells 0\nreplayed 993\n",
        )?;
        ends(
            &rt,
            heap,
            &[items, (" 1024 0 2", 1), (" 0 1 2", 340), (" 0 1", 1)],
            320 + 320 + 583,
            "\narc 0 311 2 311\ncells 0\nreplayed 994\n",
        )
    }

    // Four cores, 256 cells, 256 items and 1,024 turns, with many leading zeros.
    #[test]
    fn largest_sizes(rt: HostRuntime) -> Result<(), Fail> {
        let heap = rt.alloc();
        ends(
            &rt,
            heap,
            &[
                ("0 0 4 256 256 ", 1),
                ("0", 70000),
                ("2 255 255 255", 1),
                (" 2 255 255 255", 255),
                (" 0 0 0 0 1024", 1),
                (" 0 1 2 3", 256),
            ],
            1023,
            " 0 0 65535\nreplayed 1024\n",
        )
    }

    // Each byte between two numbers: six are white.
    #[test]
    fn white_bytes(rt: HostRuntime) -> Result<(), Fail> {
        let heap = rt.alloc();
        let mut input = *b"0 2 1 1 0 0 0";
        for byte in 0..=255u8 {
            input[1] = byte;
            let white = [9, 10, 11, 12, 13, 32].contains(&byte);
            let text = if white {
                "cells 0\nreplayed 0\n"
            } else {
                "bad\n"
            };
            assert!(rt; answer(heap, &input)?.as_bytes() == text.as_bytes());
        }
        says(&rt, heap, "0\u{85}2 1 1 0 0 0", "bad\n")?;
        says(&rt, heap, "0\u{a0}2 1 1 0 0 0", "bad\n")
    }
}
