// Collections of one kind and the bounds on their components, counted size by size.
ghost use Rattle.std.specs.Prelude.{◌≡◌, ◌≤◌, ℕ, None, length, nat_lt, is_err, OkIff, IfOk, IsTrue, IsFalse};
ghost use Rattle.luo_num.specs.Mark.{capped};
ghost use Rattle.luo_num.specs.declared.TheConstants.{MAX};
ghost use Rattle.luo_model.specs.declared.program.Universe.TheVariants.{Unlabelled};
ghost use Rattle.luo_unlabelled.specs.Calls.{IsOfParts};
ghost use Rattle.luo_unlabelled.specs.Calls as parts;
ghost use Rattle.luo_engine.specs.inner.Asked.{AreBounds, GoesOnAs, parts_form, of_parts, of_unbounded, unasked, number_asked, asked_more};
ghost use Rattle.luo_engine.specs.inner.Forms.{asked_of};

use luo_binom::Pascal;
use luo_labelled::Chain;
use luo_model::{Kind, Universe};
use luo_num::{MARK, NoMemory, Over};
use luo_unlabelled::{Line, Parts, Unbounded};
use std::alloc::Global;
use std::marker::Model;

/// The table that counts a kind of collections.
#[derive(Drop)]
pub enum Counter {
    /// Labelled sequences, sets and cycles.
    Chain(Chain),
    /// Unlabelled sequences.
    Line(Line),
    /// Unlabelled multisets and powersets within bounds.
    Parts(Parts),
    /// Unlabelled multisets and powersets by size alone.
    Unbounded(Unbounded),
}

/// Counts the collections of a node, size by size. Contracts see in it what it was made for, the numbers of components that its calls
/// were given, and whether the last answered with a mark.
#[derive(Drop)]
pub struct Collection {
    pub(crate) counter: Counter,
}

impl Model for Collection {
    ghost use Rattle.luo_engine.specs.inner.Asked.{Asked};
    ghost use Rattle.luo_engine.specs.inner.Forms.{asked_of};

    ghost Value = { Asked };

    ghost view = { λ c. asked_of c.counter };
}

/// The number of an answer, or the mark.
pub fn marked(answer: Result<u128, Over>) -> u128
    ensures number { (number : ℕ) → OkIff answer (number ≤ MAX) number → result ≡ capped number }
    ensures over { (number : ℕ) → OkIff answer (number ≤ MAX) number
        → is_err answer ≡ nat_lt MAX result }
{
    match answer {
        Ok(number) => number,
        Err(Over) => MARK,
    }
}

// Whether the bounds have no greatest number of components, and a least one of at most 2.
fn is_unbounded(low: u32, high: Option<u32>) -> bool
    ensures any { IsTrue result → low ≤ 2 }
    ensures unbounded { IsTrue result → high ≡ None }
    ensures form { IsTrue result → parts_form low high ≡ of_unbounded }
    ensures bounded { IsFalse result → parts_form low high ≡ of_parts }
{
    match high {
        Some(_) => false,
        None => low <= 2,
    }
}

impl Counter {
    // For multisets and powersets: the row by size alone where it serves.
    fn for_parts(
        alloc: Global,
        kind: Kind,
        low: u32,
        high: Option<u32>,
        n_max: u32,
    ) -> Result<Counter, NoMemory>
        requires parts { IsOfParts kind }
        requires bounds { parts.AreBounds low high n_max }
        ensures { IfOk result (λ counter. asked_of counter
            ≡ unasked Unlabelled kind low high n_max) }
    {
        if is_unbounded(low, high) {
            Ok(Counter::Unbounded(Unbounded::new(alloc, kind, low, n_max)?))
        } else {
            Ok(Counter::Parts(Parts::new(alloc, kind, low, high, n_max)?))
        }
    }

    fn new(
        alloc: Global,
        universe: Universe,
        kind: Kind,
        low: u32,
        high: Option<u32>,
        n_max: u32,
    ) -> Result<Counter, NoMemory>
        requires { AreBounds universe kind low high n_max }
        ensures { IfOk result (λ counter. asked_of counter ≡ unasked universe kind low high n_max) }
    {
        match universe {
            Universe::Labelled => Ok(Counter::Chain(Chain::new(alloc, kind, low, high, n_max)?)),
            Universe::Unlabelled => match kind {
                Kind::Multiset | Kind::Powerset => Counter::for_parts(
                    alloc, kind, low, high, n_max,
                ),
                _ => Ok(Counter::Line(Line::new(alloc, low, high, n_max)?)),
            },
        }
    }

    fn count_at(&mut self, pascal: &Pascal, comp: &[u128], here: u128) -> u128
        requires goes_on { GoesOnAs (asked_of self.old) comp.now here }
        requires reached { length comp.now ≤ pascal.now }
        ensures answer { result ≡ capped (number_asked (asked_of self.old) comp.now here) }
        ensures kept { asked_of self.new
            ≡ asked_more (asked_of self.old) comp.now here result }
    {
        match self {
            Counter::Chain(chain) => marked(chain.count_at(pascal, comp, here)),
            Counter::Line(line) => marked(line.count_at(comp, here)),
            Counter::Parts(parts) => marked(parts.count_at(comp, here)),
            Counter::Unbounded(table) => marked(table.count_at(comp, here)),
        }
    }
}

impl Collection {
    /// A table for collections of a kind with at least `low` components, and at most `high` where there is one, of sizes up to
    /// `n_max`. It takes all memory that it will need.
    ///
    /// # Errors
    ///
    /// `NoMemory` where memory is refused.
    pub fn new(
        alloc: Global,
        universe: Universe,
        kind: Kind,
        low: u32,
        high: Option<u32>,
        n_max: u32,
    ) -> Result<Collection, NoMemory>
        requires { AreBounds universe kind low high n_max }
        ensures { IfOk result (λ collection. collection ≡ unasked universe kind low high n_max) }
    {
        let counter = Counter::new(alloc, universe, kind, low, high, n_max)?;
        Ok(Collection { counter })
    }

    /// The number of collections of the next size n, marked. `comp` has the numbers of components of the sizes below n, and `here` is
    /// that of size n where one component is within the bounds, and 0 elsewhere.
    pub fn count_at(&mut self, pascal: &Pascal, comp: &[u128], here: u128) -> u128
        requires goes_on { GoesOnAs self.old comp.now here }
        requires reached { length comp.now ≤ pascal.now }
        ensures answer { result ≡ capped (number_asked self.old comp.now here) }
        ensures kept { self.new ≡ asked_more self.old comp.now here result }
    {
        self.counter.count_at(pascal, comp, here)
    }
}
