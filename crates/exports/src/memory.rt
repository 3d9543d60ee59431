// The bytes of a recorder with each reducer, and of a replayer. Neither takes any other memory.
use accesses::history::History;
use recorder::recording::Recorder;
use reducers::exact::Exact;
use reducers::keep_all::KeepAll;
use reducers::pairwise::Pairwise;
use replayer::replay::Replayer;

const _: () = prove!(size_of::<History>() == 15360);

const _: () = prove!(size_of::<Recorder<KeepAll>>() == 15456);

const _: () = prove!(size_of::<Recorder<Pairwise>>() == 15488);

const _: () = prove!(size_of::<Recorder<Exact>>() == 25728);

const _: () = prove!(size_of::<Replayer>() == 136);
