// Labelled sequences, sets and cycles.
ghost use Rattle.std.specs.Prelude.{◌≡◌, ◌≤◌, ◌<◌, ◌∷◌, ◌++◌, [], length, slice_index, is_err};
ghost use Rattle.std.specs.Prelude.{IfOk, OkIff};
ghost use Rattle.luo_num.specs.declared.TheConstants.{MAX};
ghost use Rattle.luo_model.specs.Numbered.{IsCollectionCount};
ghost use Rattle.luo_model.specs.declared.program.Universe.TheVariants.{Labelled};
ghost use Rattle.luo_labelled.specs.Calls.{AreBounds, GoesOn, start_of, numbers, number_of};

use crate::numbers::{keep, within};
use crate::rows::next_count;
use crate::steps::Steps;
use luo_binom::Pascal;
use luo_model::Kind;
use luo_num::{NoMemory, Over};
use std::alloc::Global;
use std::marker::Model;

/// Counts labelled sequences, sets or cycles of components, size by size. Contracts see in it the kind and the bounds, the greatest
/// size, the numbers that its calls were given, and whether the last answered `Over`.
#[derive(Drop)]
pub struct Chain {
    pub(crate) kind: Kind,
    pub(crate) low: u32,
    pub(crate) high: Option<u32>,
    pub(crate) n_max: u32,
    pub(crate) calls: usize,
    pub(crate) over: bool,
    pub(crate) comp: Vec<u128>,
    pub(crate) cells: Vec<u128>,
}

impl Model for Chain {
    ghost use Rattle.std.specs.Prelude.{take};
    ghost use Rattle.luo_labelled.specs.Calls.{Calls};
    ghost use Rattle.luo_labelled.specs.inner.Chains.{IsChain};

    ghost Value = { Calls };

    ghost view = { λ c. record {
      kind = c.kind;
      low = c.low;
      high = c.high;
      n_max = c.n_max;
      given = take c.calls c.comp.items;
      over = c.over;
    } };

    ghost invariant = { λ c.
        IsChain c.kind c.low c.high c.n_max c.calls c.comp.items c.cells.items };
}

impl Chain {
    /// A table for collections of a kind with at least `low` components, and at most `high` where there is one, of sizes up to
    /// `n_max`. It takes all memory that it will need.
    ///
    /// # Errors
    ///
    /// `NoMemory` where memory is refused.
    pub fn new(
        alloc: Global,
        kind: Kind,
        low: u32,
        high: Option<u32>,
        n_max: u32,
    ) -> Result<Chain, NoMemory>
        requires { AreBounds kind low high n_max }
        ensures { IfOk result (λ chain. chain ≡ start_of kind low high n_max) }
    {
        let steps = Steps::new(low, high, n_max);
        let comp = vec![in alloc; 0; steps.wide]?;
        let cells = vec![in alloc; 0; steps.cells()]?;
        Ok(Chain {
            kind,
            low,
            high,
            n_max,
            calls: 0,
            over: false,
            comp,
            cells,
        })
    }

    /// The number of collections of the next size n. `comp` has the numbers of components of the sizes below n, and `here` is that
    /// of size n where one component is within the bounds, and 0 elsewhere. A collection is split at its first component, which
    /// in a set or a cycle has the least label (boxed products, Greene 1983).
    ///
    /// # Errors
    ///
    /// `Over` exactly where the number is above `MAX`.
    pub fn count_at(&mut self, pascal: &Pascal, comp: &[u128], here: u128) -> Result<u128, Over>
        requires goes_on { GoesOn self.old comp.now here }
        requires reached { length comp.now ≤ pascal.now }
        ensures answer { let number = number_of self.old comp.now here in
            OkIff result (number ≤ MAX) number }
        ensures counted { IsCollectionCount Labelled self.old.kind self.old.low self.old.high
            (numbers comp.now here) (length comp.now) (number_of self.old comp.now here) }
        ensures kept { self.new
            ≡ record self.old { given = comp.now ++ here ∷ []; over = is_err result } }
    {
        let steps = Steps::new(self.low, self.high, self.n_max);
        keep(self.comp.as_mut_slice(), comp, here);
        let number = next_count(
            steps,
            pascal,
            self.kind,
            self.comp.as_slice(),
            self.cells.as_mut_slice(),
            comp.len(),
        );
        let answer = within(number);
        self.calls += 1;
        self.over = answer.is_err();
        answer
    }

    // The number of components of size n that was given.
    pub(crate) fn given_at(&self, n: usize) -> u128
        requires there { n < length self.now.given }
        ensures { result ≡ slice_index self.now.given n }
    {
        self.comp[n]
    }
}
