// Charges over labelled sequences, sets and cycles.
ghost use Rattle.std.specs.Prelude.{◌≡◌, ◌≤◌, ◌∷◌, ◌++◌, [], ℕ, length, slice_index, is_err, IfOk};
ghost use Rattle.std.specs.Prelude.{OkIff};
ghost use Rattle.luo_num.specs.declared.TheConstants.{MAX};
ghost use Rattle.luo_finite.specs.Range.{sum_below};
ghost use Rattle.luo_model.specs.Numbered.{IsCollectionTotal};
ghost use Rattle.luo_model.specs.declared.program.Universe.TheVariants.{Labelled};
ghost use Rattle.luo_labelled.specs.Calls.{IsNext, start_of, numbers, total_of};

use crate::chain::Chain;
use crate::numbers::{keep, within};
use crate::rows::next_total;
use crate::steps::Steps;
use luo_binom::Pascal;
use luo_model::Kind;
use luo_num::{NoMemory, Over};
use std::alloc::Global;
use std::marker::Model;

/// Sums charges over the collections that a chain counts, size by size. Contracts see in it the numbers of components that its calls
/// were given, and what they see in a chain, with sums of charges in place of numbers.
#[derive(Drop)]
pub struct ChainWalk {
    kind: Kind,
    low: u32,
    high: Option<u32>,
    n_max: u32,
    calls: usize,
    over: bool,
    comp: Vec<u128>,
    body: Vec<u128>,
    cells: Vec<u128>,
}

impl Model for ChainWalk {
    ghost use Rattle.std.specs.Prelude.{take};
    ghost use Rattle.luo_labelled.specs.Calls.{WalkCalls};
    ghost use Rattle.luo_labelled.specs.inner.Chains.{IsWalk};

    ghost Value = { WalkCalls };

    ghost view = { λ w. record {
      counts = take w.calls w.comp.items;
      sums = record {
        kind = w.kind;
        low = w.low;
        high = w.high;
        n_max = w.n_max;
        given = take w.calls w.body.items;
        over = w.over;
      };
    } };

    ghost invariant = { λ w.
        IsWalk w.kind w.low w.high w.n_max w.calls w.comp.items w.body.items w.cells.items };
}

impl ChainWalk {
    /// A table for charges over the collections of a chain. It takes all memory that it will need.
    ///
    /// # Errors
    ///
    /// `NoMemory` where memory is refused.
    pub fn new(alloc: Global, chain: &Chain) -> Result<ChainWalk, NoMemory>
        ensures { IfOk result (λ walk. walk ≡ record {
          counts = [];
          sums =
              start_of chain.now.kind chain.now.low chain.now.high chain.now.n_max;
        }) }
    {
        let steps = Steps::new(chain.low, chain.high, chain.n_max);
        let comp = vec![in alloc; 0; steps.wide]?;
        let body = vec![in alloc; 0; steps.wide]?;
        let cells = vec![in alloc; 0; steps.cells()]?;
        Ok(ChainWalk {
            kind: chain.kind,
            low: chain.low,
            high: chain.high,
            n_max: chain.n_max,
            calls: 0,
            over: false,
            comp,
            body,
            cells,
        })
    }

    /// The sum of the charges of their components over all collections of the next size n, for which the chain has answered. `comp`
    /// has the numbers of components of the sizes below n, `body` the sums of the charges over them, and `here` is that of size n
    /// where one component is within the bounds, and 0 elsewhere. In a collection the first component is charged and the others are
    /// counted, or the others are charged.
    ///
    /// # Errors
    ///
    /// `Over` exactly where the sum is above `MAX`.
    pub fn total_at(
        &mut self,
        chain: &Chain,
        pascal: &Pascal,
        comp: &[u128],
        body: &[u128],
        here: u128,
    ) -> Result<u128, Over>
        requires next { IsNext chain.now self.old comp.now body.now here }
        requires reached { length comp.now ≤ pascal.now }
        ensures answer { let total = total_of chain.now body.now here in
            OkIff result (total ≤ MAX) total }
        ensures totalled { (q : ℕ → ℕ → ℕ)
            → ((m : ℕ) → sum_below (q m) (slice_index chain.now.given m) ≡ numbers body.now here m)
            → IsCollectionTotal Labelled chain.now.kind chain.now.low chain.now.high
            (slice_index chain.now.given) q (length body.now)
            (total_of chain.now body.now here) }
        ensures counts { self.new.counts
            ≡ comp.now ++ slice_index chain.now.given (length comp.now) ∷ [] }
        ensures kept { self.new.sums
            ≡ record self.old.sums { given = body.now ++ here ∷ []; over = is_err result } }
    {
        let steps = Steps::new(chain.low, chain.high, chain.n_max);
        let n = comp.len();
        let last = chain.given_at(n);
        keep(self.comp.as_mut_slice(), comp, last);
        keep(self.body.as_mut_slice(), body, here);
        let number = next_total(
            steps,
            pascal,
            chain.kind,
            self.comp.as_slice(),
            self.body.as_slice(),
            chain.cells.as_slice(),
            self.cells.as_mut_slice(),
            n,
        );
        let answer = within(number);
        self.calls += 1;
        self.over = answer.is_err();
        answer
    }
}
