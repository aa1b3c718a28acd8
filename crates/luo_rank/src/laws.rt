// The law of places and structures. The body is empty: what counts is the clause.
ghost use Rattle.luo_rank.specs.Laws.{PlacesAreInverse};

/// What `Ranker::at` and `Ranker::rank_of` answer is inverse to each other: the place of the structure at a place is
/// this place, and the structure at the place of a structure is this structure.
pub fn places_are_inverse()
    ensures { PlacesAreInverse }
{}
