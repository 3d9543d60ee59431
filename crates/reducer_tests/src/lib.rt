// A reducer that forgets, which shows that the interface asks for no more than the bounds; and tests of the three reducers.
#![tactic(auto)]

pub mod forgetful;

#[cfg(test)]
mod tests {
    use crate::forgetful::Forgetful;
    use records::format::Source;
    use reducers::exact::Exact;
    use reducers::interface::{AccessKind, Reducer};
    use reducers::keep_all::KeepAll;
    use reducers::pairwise::Pairwise;

    // The first worked run: 0:1 writes cell 0, 1:1 reads it, 1:2 writes cell 1, 2:1 reads it, 2:2 writes cell 0.
    // Answers whether 0:1 and 1:1 are known to core 2 at 2:2, and whether 0:2 is.
    fn first_run<R: Reducer>(reducer: &mut R) -> (bool, bool, bool) {
        reducer.reset();
        reducer.note(0, 0, AccessKind::Write);
        reducer.take(Source { core: 0, count: 1 }, 0, AccessKind::Write, 1);
        reducer.note(1, 0, AccessKind::Read);
        reducer.note(1, 1, AccessKind::Write);
        reducer.take(Source { core: 1, count: 2 }, 1, AccessKind::Write, 2);
        reducer.note(2, 1, AccessKind::Read);
        (
            reducer.question(Source { core: 0, count: 1 }, 2),
            reducer.question(Source { core: 1, count: 1 }, 2),
            reducer.question(Source { core: 0, count: 2 }, 2),
        )
    }

    #[test]
    fn what_each_reducer_knows(rt: HostRuntime) {
        let mut keep_all = KeepAll;
        assert!(rt; matches!(first_run(&mut keep_all), (false, false, false)));
        let mut pairwise = Pairwise::new();
        assert!(rt; matches!(first_run(&mut pairwise), (false, true, false)));
        let mut exact = Exact::new();
        assert!(rt; matches!(first_run(&mut exact), (true, true, false)));
        assert!(rt;
            exact.question(Source { core: 3, count: 0 }, 2),
            "count 0 is known"
        );
        assert!(rt;
            !exact.question(Source { core: 4, count: 0 }, 2),
            "no core 4"
        );
        assert!(rt;
            !exact.question(Source { core: 0, count: 0 }, 4),
            "no core 4"
        );
    }

    #[test]
    fn a_forgetful_reducer_forgets(rt: HostRuntime) {
        let mut forgetful = Forgetful::new();
        forgetful.take(Source { core: 3, count: 7 }, 0, AccessKind::Read, 1);
        assert!(rt; forgetful.question(Source { core: 3, count: 7 }, 1));
        forgetful.note(1, 0, AccessKind::Read);
        assert!(rt; !forgetful.question(Source { core: 3, count: 7 }, 1));
    }
}
