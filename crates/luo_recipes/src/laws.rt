//! What holds of the counts and the totals of a founded program. Nothing is computed here.

ghost use Rattle.luo_recipes.specs.Laws.{CountsObey, SitesHaveJobs, TotalsHaveRecipes};

/// A founded program has a count of each node at each size, and they obey their equations.
pub fn counts_obey()
    ensures { CountsObey }
{}

/// Each site has one job.
pub fn sites_have_jobs()
    ensures { SitesHaveJobs }
{}

/// The total of each site is the number of its recipe, over the counts and the totals.
pub fn totals_have_recipes()
    ensures { TotalsHaveRecipes }
{}
