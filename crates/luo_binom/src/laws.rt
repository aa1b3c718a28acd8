// Laws on the words of this crate. The bodies are empty: what counts are the clauses.
ghost use Rattle.luo_binom.specs.Laws.{BinomialsStep, ChoicesAreCounted, FewAreWithin, PlacesAreInverse};

/// There are as many choices of some of the labels as the binomial says.
pub fn choices_are_counted()
    ensures { ChoicesAreCounted }
{}

/// A choice has one place and a place one choice, and the places are those below the number of choices. So what is written at a
/// place has that place, and at the place of a choice this choice is written.
pub fn places_are_inverse()
    ensures { PlacesAreInverse }
{}

/// `C(a, j + 1) (j + 1) = C(a, j) (a - j)`, and `C(a, j) = C(a, a - j)`.
pub fn binomials_step()
    ensures { BinomialsStep }
{}

/// Every binomial of up to 130 things is a number of tables; `C(131, 65)` overflows.
pub fn few_are_within()
    ensures { FewAreWithin }
{}
