//! What the definitions say, shown by known facts, and what follows from them in every program. Nothing is computed here.

ghost use Rattle.luo_model.specs.FactsCharges.{CasesTakeTheirArm, CopiesAreChargedEach, EndlessCallsChargeNothing};
ghost use Rattle.luo_model.specs.FactsCounts.{BinaryTreesAreCounted, BranchesAreCountedApart, EmptyFactorChangesNoCount, LabelledPointsAreCounted, LabelledProductsAreCounted, CopiesAreCounted, PartitionsAreCounted, BoundsAreCounted};
ghost use Rattle.luo_model.specs.FactsLevels.{LevelsOfHierarchies};
ghost use Rattle.luo_model.specs.FactsMembers.{OnlyMultisetsRepeat, MultisetsFall, PowersetsFall, CyclesBeginLeast, SetsRise, LeastLabelsCount, BoundsAreReached, NoLabelIsSkipped, OtherLabelsAreCarried, AtomsAreExact};
ghost use Rattle.luo_model.specs.FactsOrder.{SizesAndLabelsDecide, FormsDecide, PermutationsInOrder, PartitionsInOrder};
ghost use Rattle.luo_model.specs.FactsTotals.{RowsSumCharges, PathLengthsAreTotalled, ComponentsAreTotalled, LeavesAreTotalled, NodesAreTotalled, InnerSitesAreTotalled};
ghost use Rattle.luo_model.specs.Laws.{SitesOfProgramsAreApart, ChargesAreSingle, ChargesAreLeast, SiteChargesAreSingle, WholesCharge, WholesChargeNoMore, ProceduresChargeTheirBodies, OrderIsTotal, NeighboursStand, CountsAreSingle, TotalsAreSingle};

/// Binary trees by inner nodes are counted by the numbers of Catalan: 1, 1, 2, 5.
pub fn binary_trees_are_counted()
    ensures { BinaryTreesAreCounted }
{}

/// The union of a type with itself has each structure once in either branch.
pub fn branches_are_counted_apart()
    ensures { BranchesAreCountedApart }
{}

/// A factor of size 0 changes no count of a product.
pub fn empty_factor_changes_no_count()
    ensures { EmptyFactorChangesNoCount }
{}

/// Of labelled points there are n! sequences, one set and (n - 1)! cycles.
pub fn labelled_points_are_counted()
    ensures { LabelledPointsAreCounted }
{}

/// Sets of cycles are counted as permutations, and pairs of sets as the subsets of their labels.
pub fn labelled_products_are_counted()
    ensures { LabelledProductsAreCounted }
{}

/// Multisets and powersets of two kinds of points are counted by n + 1 and by the subsets of the two.
pub fn copies_are_counted()
    ensures { CopiesAreCounted }
{}

/// Partitions of an integer are counted as multisets of parts: 1, 1, 2, 3, 5.
pub fn partitions_are_counted()
    ensures { PartitionsAreCounted }
{}

/// Both bounds of a collection belong to it.
pub fn bounds_are_counted()
    ensures { BoundsAreCounted }
{}

/// A procedure that charges 3 on one of the two structures of size 1 and 5 on the other has the row 1, 2, 8.
pub fn rows_sum_charges()
    ensures { RowsSumCharges }
{}

/// The path lengths of binary trees are 0, 0, 2 and 14 together.
pub fn path_lengths_are_totalled()
    ensures { PathLengthsAreTotalled }
{}

/// The cycles of permutations and the parts of partitions are counted by a walk.
pub fn components_are_totalled()
    ensures { ComponentsAreTotalled }
{}

/// The leaves of hierarchies are counted by a procedure that calls itself in a walk.
pub fn leaves_are_totalled()
    ensures { LeavesAreTotalled }
{}

/// The nodes of rooted labelled trees are counted through a case on a product.
pub fn nodes_are_totalled()
    ensures { NodesAreTotalled }
{}

/// The calls, cases, walks and bodies of walks inside a procedure have totals of their own.
pub fn inner_sites_are_totalled()
    ensures { InnerSitesAreTotalled }
{}

/// A multiset may hold a component twice, and a powerset may not.
pub fn only_multisets_repeat()
    ensures { OnlyMultisetsRepeat }
{}

/// The components of a multiset fall, and never rise.
pub fn multisets_fall()
    ensures { MultisetsFall }
{}

/// The components of a powerset fall, also those of one size.
pub fn powersets_fall()
    ensures { PowersetsFall }
{}

/// A cycle begins with its least label, and the same cycle written from another place is none.
pub fn cycles_begin_least()
    ensures { CyclesBeginLeast }
{}

/// A set is written with its least labels rising, and in no other order.
pub fn sets_rise()
    ensures { SetsRise }
{}

/// The least label of a component counts, and neither its first label nor its greatest.
pub fn least_labels_count()
    ensures { LeastLabelsCount }
{}

/// A bounded collection has as many components as its bound allows, and no more.
pub fn bounds_are_reached()
    ensures { BoundsAreReached }
{}

/// A structure of size n carries the labels 1 to n: none is skipped, and none stands twice.
pub fn no_label_is_skipped()
    ensures { NoLabelIsSkipped }
{}

/// A structure on other labels carries these.
pub fn other_labels_are_carried()
    ensures { OtherLabelsAreCarried }
{}

/// An atom has its own weight, and a label exactly where the universe is labelled and the weight is 1.
pub fn atoms_are_exact()
    ensures { AtomsAreExact }
{}

/// Structures are ordered by size, then by their rising labels, then by branch and what is inside.
pub fn sizes_and_labels_decide()
    ensures { SizesAndLabelsDecide }
{}

/// Where sizes and labels are the same, the form decides, and lists by their first difference.
pub fn forms_decide()
    ensures { FormsDecide }
{}

/// The six permutations of three points stand in this order.
pub fn permutations_in_order()
    ensures { PermutationsInOrder }
{}

/// The three partitions of 3 stand in this order.
pub fn partitions_in_order()
    ensures { PartitionsInOrder }
{}

/// A case charges what the arm of the branch does, and not what another does.
pub fn cases_take_their_arm()
    ensures { CasesTakeTheirArm }
{}

/// A walk charges each of two equal components.
pub fn copies_are_charged_each()
    ensures { CopiesAreChargedEach }
{}

/// A procedure that calls itself for ever charges nothing on any structure.
pub fn endless_calls_charge_nothing()
    ensures { EndlessCallsChargeNothing }
{}

/// A procedure charges at most one number on a structure.
pub fn charges_are_single()
    ensures { ChargesAreSingle }
{}

/// Charges are the least relation that follows the bodies of the procedures.
pub fn charges_are_least()
    ensures { ChargesAreLeast }
{}

/// No two sites of a program have one number.
pub fn sites_of_programs_are_apart()
    ensures { SitesOfProgramsAreApart }
{}

/// A site charges at most one number on a structure.
pub fn site_charges_are_single()
    ensures { SiteChargesAreSingle }
{}

/// A procedure charges what its body does, where what the body calls may go on as deep as it likes.
pub fn procedures_charge_their_bodies()
    ensures { ProceduresChargeTheirBodies }
{}

/// The site of a procedure's whole charges what the procedure does.
pub fn wholes_charge()
    ensures { WholesCharge }
{}

/// The site of a procedure's whole charges nothing else.
pub fn wholes_charge_no_more()
    ensures { WholesChargeNoMore }
{}

/// The order of structures is total, and finds no difference only between equal ones.
pub fn order_is_total()
    ensures { OrderIsTotal }
{}

/// Components stand as a set, a multiset or a powerset wants them where each neighbour does.
pub fn neighbours_stand()
    ensures { NeighboursStand }
{}

/// A node has one count at a size.
pub fn counts_are_single()
    ensures { CountsAreSingle }
{}

/// A site has one total at a size.
pub fn totals_are_single()
    ensures { TotalsAreSingle }
{}

/// The levels of the sites of a procedure that calls itself in a walk.
pub fn levels_of_hierarchies()
    ensures { LevelsOfHierarchies }
{}
