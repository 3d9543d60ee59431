ghost use Rattle.accesses.specs.Laws.{LatestFirst, AtMostOneEach};

// Holds the laws of candidates: their order, and that there is at most one from each other core.
pub fn candidates_are_ordered_and_few()
    ensures ordered { LatestFirst }
    ensures few { AtMostOneEach }
{}
