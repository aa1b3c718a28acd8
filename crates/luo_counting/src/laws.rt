// Laws on the words of this crate. The bodies are empty: what counts are the clauses.
ghost use Rattle.luo_counting.specs.Laws.{ShareIsBinomial, RowsAreBinomial, SetsAreBinomial, CyclesAreBinomial, RepeatsAreBinomial};
ghost use Rattle.luo_counting.specs.Laws.{CollectionsAreCounted, CollectionsAreTotalled, PairsAreTotalled, NodesAreCounted, WalksAreTotalled};
ghost use Rattle.luo_counting.specs.Facts.{CatalanNumbers, Compositions, BellNumbers, StirlingCycles, StirlingSets, Orders};
ghost use Rattle.luo_counting.specs.Facts.{RoundOrders, Partitions, DistinctPartitions, PartsOfAll, SquaresOfAll};

/// n labels are shared between two as binomials say.
pub fn share_is_binomial()
    ensures { ShareIsBinomial }
{}

/// Labelled rows: `q(k, n)` is the sum of `C(n, j) a_j q(k - 1, n - j)`, and so with charges (Flajolet and Sedgewick, Analytic Combinatorics, II.2).
pub fn rows_are_binomial()
    ensures { RowsAreBinomial }
{}

/// Labelled sets, split at the item with the least label: `s(k, n)` is the sum of `C(n - 1, j - 1) a_j s(k - 1, n - j)` (boxed products, Greene 1983).
pub fn sets_are_binomial()
    ensures { SetsAreBinomial }
{}

/// Labelled cycles, which begin with the item of the least label: as sets, with a row after the first.
pub fn cycles_are_binomial()
    ensures { CyclesAreBinomial }
{}

/// Multisets of j of a things are `C(a + j - 1, j)`, and the charges over all of them `t C(a + j - 1, j - 1)`.
pub fn repeats_are_binomial()
    ensures { RepeatsAreBinomial }
{}

/// The numbered collections of each kind are as many as the number says.
pub fn collections_are_counted()
    ensures { CollectionsAreCounted }
{}

/// The charges over all numbered collections sum to the total, for every choice of charges with the given sums.
pub fn collections_are_totalled()
    ensures { CollectionsAreTotalled }
{}

/// So do the products of two sums of charges over each numbered collection.
pub fn pairs_are_totalled()
    ensures { PairsAreTotalled }
{}

/// From numbers to structures: a node of collections has as many as there are numbered collections over the counts of its component.
pub fn nodes_are_counted()
    ensures { NodesAreCounted }
{}

/// From numbers to structures: the total of a walk is that of numbered collections over the charges of its body.
pub fn walks_are_totalled()
    ensures { WalksAreTotalled }
{}

/// Sequences of plane trees: Catalan's numbers.
pub fn catalan_numbers()
    ensures { CatalanNumbers }
{}

/// Compositions into two or three parts.
pub fn compositions()
    ensures { Compositions }
{}

/// Partitions of a set: Bell's numbers.
pub fn bell_numbers()
    ensures { BellNumbers }
{}

/// Permutations by their number of cycles: Stirling's numbers of the first kind.
pub fn stirling_cycles()
    ensures { StirlingCycles }
{}

/// Partitions of a set by their number of blocks: Stirling's numbers of the second kind.
pub fn stirling_sets()
    ensures { StirlingSets }
{}

/// Orders of some points.
pub fn orders()
    ensures { Orders }
{}

/// Round orders of some points.
pub fn round_orders()
    ensures { RoundOrders }
{}

/// Partitions of a number.
pub fn partitions()
    ensures { Partitions }
{}

/// Partitions into different parts.
pub fn distinct_partitions()
    ensures { DistinctPartitions }
{}

/// The parts of all compositions, partitions and partitions into different parts; blocks, cycles and points.
pub fn parts_of_all()
    ensures { PartsOfAll }
{}

/// The squares of the numbers of parts, and of cycles.
pub fn squares_of_all()
    ensures { SquaresOfAll }
{}
