// Collections within bounds, step by step: at step i stand those of at most i components, or of any number where the bounds have
// no greatest number, and of so many fewer at least than at the last step as there are steps between. After the first component
// of a collection stands one of the step before.
ghost use Rattle.std.specs.Prelude.{◌≡◌, ◌≤◌, ◌+◌, ◌-◌, ◌*◌, MatchOption};
ghost use Rattle.luo_num.specs.declared.limits.TheConstants.{BOUND_LIMIT, SIZE_LIMIT};
ghost use Rattle.luo_labelled.specs.Calls.{IsAbove};
ghost use Rattle.luo_labelled.specs.inner.Steps.{steps_of, empty_at, row_count, HasSource};

/// The steps to the bounds: up to step `free` a collection may be empty, `last` has the bounds themselves, `unbounded` says that
/// they have no greatest number. `wide` is the number of cells for a step, one for each size.
#[derive(Clone, Copy)]
pub struct Steps {
    pub free: usize,
    pub last: usize,
    pub unbounded: bool,
    pub wide: usize,
}

impl Steps {
    pub fn new(low: u32, high: Option<u32>, n_max: u32) -> Steps
        requires ordered { IsAbove low high }
        ensures { result ≡ steps_of low high n_max }
    {
        let wide = n_max as usize + 1;
        match high {
            Some(high) => Steps {
                free: (high - low) as usize,
                last: high as usize,
                unbounded: false,
                wide,
            },
            None => Steps {
                free: 0,
                last: low as usize,
                unbounded: true,
                wide,
            },
        }
    }

    // The cells of all rows: one row for each step below the last, or where there is none one for the answers.
    pub fn cells(self) -> usize
        requires short { self.last ≤ BOUND_LIMIT }
        requires narrow { self.wide ≤ SIZE_LIMIT + 1 }
        ensures { result ≡ row_count self.last * self.wide }
    {
        self.last.max(1) * self.wide
    }

    // Where the row of step i begins.
    pub fn row(self, i: usize) -> usize
        requires short { i ≤ BOUND_LIMIT }
        requires narrow { self.wide ≤ SIZE_LIMIT + 1 }
        ensures { result ≡ i * self.wide }
    {
        i * self.wide
    }

    // Where the row of the step before step i begins, if there is one: where the bounds have no greatest number, step 0 goes on
    // from itself.
    pub fn source(self, i: usize) -> Option<usize>
        requires short { i ≤ BOUND_LIMIT }
        requires narrow { self.wide ≤ SIZE_LIMIT + 1 }
        ensures { MatchOption result (HasSource self.unbounded i → ⊥)
            (λ row. HasSource self.unbounded i × (row ≡ (i - 1) * self.wide)) }
    {
        if i > 0 {
            Some(self.row(i - 1))
        } else if self.unbounded {
            Some(0)
        } else {
            None
        }
    }

    // 1 for the empty collection, where step i allows it, and 0 for every size above 0.
    pub fn empty(self, i: usize, n: usize) -> u128
        ensures { result ≡ empty_at self.free i n }
    {
        if n > 0 {
            0
        } else if i <= self.free {
            1
        } else {
            0
        }
    }
}
