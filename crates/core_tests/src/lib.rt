// Tests of the two kinds of core over cells.
#![tactic(auto)]

#[cfg(test)]
mod tests {
    use cores::acting::{act, cell_exists};
    use cores::interface::{Core, Request, StartingCore};
    use cores::register::RegisterCore;
    use cores::script::ScriptCore;

    // One instruction of core `j`; whether it was carried out.
    fn carry_out<K: Core>(text: &[u8], cores: &mut [K], cells: &mut [u16], j: usize) -> bool {
        if j >= cores.len() {
            return false;
        }
        let mut core = cores[j];
        let request = core.ask(text);
        if request == Request::Halt || !cell_exists(request, cells.len()) {
            return false;
        }
        let number = act(request, cells);
        core.tell(text, number);
        cores[j] = core;
        true
    }

    // How many instructions core 0 carries out until it halts, at most 100.
    fn drive<K: Core>(text: &[u8], cores: &mut [K], cells: &mut [u16]) -> u32 {
        let mut done: u32 = 0;
        for _ in 0..100 {
            if carry_out(text, cores, cells, 0) {
                done = done.saturating_add(1);
            }
        }
        done
    }

    #[test]
    fn register_program(rt: HostRuntime) {
        let text = [
            4, 0, 0, 5, 4, 1, 0, 0, 4, 2, 0, 1, // r0 = 5, r1 = 0, r2 = 1
            5, 1, 1, 0, 6, 0, 0, 2, 7, 0, 0, 7, 7, 3, 0, 3, // r1 += r0, r0 -= r2, until r0 is 0
            2, 1, 3, 10, // cell 10 = r1
            4, 4, 255, 255, 5, 4, 4, 2, 2, 4, 3, 11, // cell 11 = 65535 + 1
            6, 5, 3, 2, 2, 5, 3, 12, // cell 12 = 0 - 1
            4, 6, 1, 4, 3, 1, 6, 252, 2, 1, 3, 13, // exchange with cell (260 + 252) modulo 256
            1, 15, 3, 12, 2, 7, 3, 14, 2, 23, 11, 15, // register numbers modulo 8
            8, 0, 0, 0, 0, 0, 0, // halt, and no whole item
        ];
        let mut cores = [RegisterCore::new(0)];
        let mut cells = [77, 1, 1, 1, 1, 1, 1, 1, 1, 1, 1, 1, 1, 1, 1, 1, 1];
        let done = drive(&text, &mut cores, &mut cells);
        assert_eq!(rt; done, 34);
        assert!(rt;
            cells
                == [
                    15, 1, 1, 1, 1, 1, 1, 1, 1, 1, 15, 0, 65535, 77, 65535, 65535, 1,
                ]
        );
    }

    #[test]
    fn script_cores(rt: HostRuntime) {
        let text = [
            2, 0, 0, 7, 255, 0, 0, 0, 1, 0, 0, 0, 2, 1, 0, 9, 4, 0, 0, 0, 1, 1, 0, 0, 3, 0, 1, 4,
            0, 0, 0, 0, 1, 9, 0, 0, 1, 0, 0,
        ];
        let mut cores = [ScriptCore::new(0), ScriptCore::new(2), ScriptCore::new(5)];
        let mut cells = [0, 0];
        assert!(rt; carry_out(&text, &mut cores, &mut cells, 0));
        assert!(rt; carry_out(&text, &mut cores, &mut cells, 1));
        assert!(rt; carry_out(&text, &mut cores, &mut cells, 1));
        assert!(rt; carry_out(&text, &mut cores, &mut cells, 2));
        assert!(rt; carry_out(&text, &mut cores, &mut cells, 2));
        assert!(rt; cells == [260, 9], "an exchange stores its number");
        assert!(rt;
            !carry_out(&text, &mut cores, &mut cells, 0),
            "kind 255 halts"
        );
        assert!(rt;
            !carry_out(&text, &mut cores, &mut cells, 1),
            "kind 4 halts"
        );
        assert!(rt;
            carry_out(&text, &mut cores, &mut cells, 2),
            "kind 0 is local"
        );
        assert!(rt; !carry_out(&text, &mut cores, &mut cells, 2), "no cell 9");
        assert!(rt; !carry_out(&text, &mut cores, &mut cells, 3), "no core 3");
        assert!(rt;
            ScriptCore::new(9).ask(&text) == Request::Halt,
            "three bytes are no item"
        );
        assert!(rt; ScriptCore::new(65535).ask(&text) == Request::Halt);
    }
}
