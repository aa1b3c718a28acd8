// Laws on the words of this crate. The bodies are empty: what counts are the clauses.
ghost use Rattle.luo_places.specs.Laws.{PlacesAreInListings, PlacesAreSingle};
ghost use Rattle.luo_places.specs.steps.Laws.{AtomsStandAlone, BagsGoOn, BagsPart, BoundsAreKept, ChoicesGoOn};
ghost use Rattle.luo_places.specs.steps.Laws.{FirstIsPlaceZero, LedChoicesGoOn, NextIsNextPlace, PartsDecide, RoomsGoOn};
ghost use Rattle.luo_places.specs.steps.Laws.{StepsAreListings, TailsEnd, TailsGoOn, TailsPart};
ghost use Rattle.luo_places.specs.steps.Laws.{UnionsBeginAndEnd, UnionsGoOn};
ghost use Rattle.luo_places.specs.steps.Facts.{PartitionsGoOn, PermutationsGoOn};
ghost use Rattle.luo_places.specs.relabelling.Laws.{OrderIsKept, MembersAreKept, ChargesAreKept, CountsOnAnyLabels};

/// What stands at a place of an ordered listing is what has this place.
pub fn places_are_in_listings()
    ensures { PlacesAreInListings }
{}

/// A structure has one place, a place has one structure, and the places are those below the count.
pub fn places_are_single()
    ensures { PlacesAreSingle }
{}

/// What comes next has the next place, and what has the next place comes next.
pub fn next_is_next_place()
    ensures { NextIsNextPlace }
{}

/// The first structure is the one with place 0.
pub fn first_is_place_zero()
    ensures { FirstIsPlaceZero }
{}

/// The structures from the first to the last, each the next of the one before it, are the ordered listing.
pub fn steps_are_listings()
    ensures { StepsAreListings }
{}

/// An atom is the first and the last of its node.
pub fn atoms_stand_alone()
    ensures { AtomsStandAlone }
{}

/// The next structure of a union is that of its branch, or the first of the next branch that has any.
pub fn unions_go_on()
    ensures { UnionsGoOn }
{}

/// The first structure of a union is in the first branch that has any, the last in the last one.
pub fn unions_begin_and_end()
    ensures { UnionsBeginAndEnd }
{}

/// The next structure of a product or a collection is made of the next of its parts; so are the first and the last.
pub fn parts_decide()
    ensures { PartsDecide }
{}

/// The next of the factors of a product, and of the components of a sequence, a set or a cycle, by the size, the
/// labels and the structure of the first, and by the rest.
pub fn tails_go_on()
    ensures { TailsGoOn }
{}

/// What the first and the rest are, of factors or of components: their sizes and their labels.
pub fn tails_part()
    ensures { TailsPart }
{}

/// The next size and labels that a first can have.
pub fn rooms_go_on()
    ensures { RoomsGoOn }
{}

/// The next choice of so many labels in lexicographic order, the first and the last.
pub fn choices_go_on()
    ensures { ChoicesGoOn }
{}

/// The same among the choices that have the least label, as the first of a labelled set or cycle has.
pub fn led_choices_go_on()
    ensures { LedChoicesGoOn }
{}

/// Where nothing is left to choose, this is first and last.
pub fn tails_end()
    ensures { TailsEnd }
{}

/// The next of the components of a multiset or a powerset, by the first and by the rest, which it bounds.
pub fn bags_go_on()
    ensures { BagsGoOn }
{}

/// A multiset or a powerset is a first that may come after the bound, and a rest that the first bounds.
pub fn bags_part()
    ensures { BagsPart }
{}

/// The next component of one size keeps within a bound that the component was before.
pub fn bounds_are_kept()
    ensures { BoundsAreKept }
{}

/// The six permutations of three points, from the first to the last.
pub fn permutations_go_on()
    ensures { PermutationsGoOn }
{}

/// The three partitions of 3, from the first to the last.
pub fn partitions_go_on()
    ensures { PartitionsGoOn }
{}

/// Labels sent to others so that they rise keep the order of structures.
pub fn relabelling_keeps_order()
    ensures { OrderIsKept }
{}

/// A member of a node stays one.
pub fn relabelling_keeps_members()
    ensures { MembersAreKept }
{}

/// What is charged on a structure stays.
pub fn relabelling_keeps_charges()
    ensures { ChargesAreKept }
{}

/// There are as many structures of a node on any labels of a size as on the first ones.
pub fn counts_on_any_labels()
    ensures { CountsOnAnyLabels }
{}
