// Laws on the words of this crate. The bodies are empty: what counts are the clauses.
ghost use Rattle.luo_finite.specs.Laws.{OneLength, CountOfBelow, SumsChangePlaces, SumOverKeys, SumOfProducts, OneTotal, OneAnswer, NeighboursDecide};
ghost use Rattle.luo_finite.specs.Laws.{FirstCircleIsNamed};

/// Two listings of what a test passes have equal lengths.
pub fn one_length()
    ensures { OneLength }
{}

/// There are n numbers below n.
pub fn count_of_below()
    ensures { CountOfBelow }
{}

/// Two sums over ranges change places.
pub fn sums_change_places()
    ensures { SumsChangePlaces }
{}

/// Where each number that passes has a key below n, its sum is the sum over the keys.
pub fn sum_over_keys()
    ensures { SumOverKeys }
{}

/// The sum of the products is the product of the sums.
pub fn sum_of_products()
    ensures { SumOfProducts }
{}

/// Where each number that passes is related to one number at most, there is one total.
pub fn one_total()
    ensures { OneTotal }
{}

/// An ordered choice of two steps of at most one answer each has at most one.
pub fn one_answer()
    ensures { OneAnswer }
{}

/// For a transitive relation it is enough that neighbours are related.
pub fn neighbours_decide()
    ensures { NeighboursDecide }
{}

/// Of two shortest circles the first in order is named.
pub fn first_circle_is_named()
    ensures { FirstCircleIsNamed }
{}
