ghost use Rattle.cores.specs.Items.{Items, ScriptItems, RegisterItems};
ghost use Rattle.cores.specs.Latest.{ReadsBringTheLatestStore};
ghost use Rattle.cores.specs.Memory.{RefusedTurnsChangeNothing};

// Holds the laws of the plain memory: a read brings the latest store, and a refused turn changes nothing.
pub fn reads_bring_the_latest_store()
    ensures latest { ReadsBringTheLatestStore }
    ensures refusals { RefusedTurnsChangeNothing }
{}

// Holds what each item makes of a core: which places have an item, and what each kind of item and each operation
// requests and leaves.
pub fn cores_follow_their_items()
    ensures items { Items }
    ensures script { ScriptItems }
    ensures register { RegisterItems }
{}
