//! Laws of checked sources, and of what sources break.
#![tactic(auto)]

ghost use Rattle.luo_rules.specs.Facts.{CirclesAreTold, SecondDefinitionsAreTold, UnboundVariablesAreTold, CopiesHaveTheirOwnNodes, CallsStandBeforeTheWhole};
ghost use Rattle.luo_rules.specs.FactsBroken.{DefinitionsAreTold, StatementsAreTold, ResultsAreTold};
ghost use Rattle.luo_rules.specs.FactsCores.{CoresAreThePrograms};
ghost use Rattle.luo_rules.specs.BrokenLaws.{ListedIsBroken, BrokenIsListed, FirstBreachIsFirstBroken, FirstBrokenIsFirstBreach, NoBreachBreaksNothing, NothingBrokenIsNoBreach};
ghost use Rattle.luo_rules.specs.Laws.{HasOneCore, HasCore, CoresArePrograms, HasOneError, ProgramsHaveNoError, BreachesAreSingle, BreachesRise, FirstBreachIsLeast, CirclesAreChains, NamesLeadToNodes};

/// A source has at most one core form.
pub fn core_form_is_unique()
    ensures { HasOneCore }
{}

/// A source that breaks no rule has a core form.
pub fn core_form_is_there()
    ensures { HasCore }
{}

/// The core form of a source within all limits has what holds of every program.
pub fn core_form_is_a_program()
    ensures { CoresArePrograms }
{}

/// A source has at most one error but for want of memory.
pub fn error_is_unique()
    ensures { HasOneError }
{}

/// A source of a program has no error but for want of memory.
pub fn programs_have_no_error()
    ensures { ProgramsHaveNoError }
{}

/// The breaches of a source stand in the order of its text, each at a token of its own.
pub fn breaches_rise()
    ensures { BreachesRise }
{}

/// No breach of a source stands before the first of its list, which is the one that is told.
pub fn first_breach_is_least()
    ensures { FirstBreachIsLeast }
{}

/// At each token of a source at most one rule is broken.
pub fn breaches_are_single()
    ensures { BreachesAreSingle }
{}

/// Whatever is in the list of breaches breaks its rule.
pub fn listed_is_broken()
    ensures { ListedIsBroken }
{}

/// Whatever breaks a rule is in the list of breaches, or comes after something in it.
pub fn broken_is_listed()
    ensures { BrokenIsListed }
{}

/// The first breach of the list breaks its rule, and nothing breaks a rule before it.
pub fn first_breach_is_first_broken()
    ensures { FirstBreachIsFirstBroken }
{}

/// What breaks a rule before all else that does is the first breach of the list.
pub fn first_broken_is_first_breach()
    ensures { FirstBrokenIsFirstBreach }
{}

/// A source whose list of breaches is empty breaks no rule.
pub fn no_breach_breaks_nothing()
    ensures { NoBreachBreaksNothing }
{}

/// A source that breaks no rule has an empty list of breaches.
pub fn nothing_broken_is_no_breach()
    ensures { NothingBrokenIsNoBreach }
{}

/// Each definition on a circle of names is told with those it leads through.
pub fn circles_are_told()
    ensures { CirclesAreTold }
{}

/// The second definition of a name is the wrong one.
pub fn second_definitions_are_told()
    ensures { SecondDefinitionsAreTold }
{}

/// A variable that the scope doesn't bind is the wrong one.
pub fn unbound_variables_are_told()
    ensures { UnboundVariablesAreTold }
{}

/// Each name of a definition has nodes of its own.
pub fn copies_have_their_own_nodes()
    ensures { CopiesHaveTheirOwnNodes }
{}

/// Charges are summed, a call has the site before its procedure's whole, and a value gives the body of its procedure.
pub fn calls_stand_before_the_whole()
    ensures { CallsStandBeforeTheWhole }
{}

/// The texts of well-known programs have the core forms over which facts are known, and so do bounds, blocks and values.
pub fn cores_are_the_programs()
    ensures { CoresAreThePrograms }
{}

/// What definitions, measures and uses of names break is told at its token, with its names.
pub fn definitions_are_told()
    ensures { DefinitionsAreTold }
{}

/// What statements break is told at its token, with its names.
pub fn statements_are_told()
    ensures { StatementsAreTold }
{}

/// What procedures with a result break is told at its token, with its names.
pub fn results_are_told()
    ensures { ResultsAreTold }
{}

/// A definition lies on the circle that is found for it, and on no other; where none is found it lies on none.
pub fn circles_are_chains()
    ensures { CirclesAreChains }
{}

/// The node of a definition is the first one of the definition at which going from names to what they name ends.
pub fn names_lead_to_nodes()
    ensures { NamesLeadToNodes }
{}
