// Binomials in a table.
ghost use Rattle.std.specs.Prelude.{◌≡◌, ℕ, ◌+◌, ◌*◌, ◌<◌, ◌≤◌, length, SomeIff, OnOk, IfOk};
ghost use Rattle.luo_num.specs.Mark.{capped};
ghost use Rattle.luo_num.specs.declared.TheConstants.{MAX};
ghost use Rattle.luo_finite.specs.Binomial.{choose};
ghost use Rattle.luo_binom.specs.inner.Cells.{AreCells, IsTable};

use luo_num::limits::SIZE_LIMIT;
use luo_num::{MAX, NoMemory, marked_add};
use std::alloc::Global;
use std::marker::Model;

/// The greatest number of things that a table reaches.
pub const LAST: u32 = SIZE_LIMIT as u32;

// The cells of a row: the choices of 0 to `LAST` things.
const WIDE: usize = SIZE_LIMIT as usize + 1;

/// Pascal's triangle up to a row. Contracts see in it the number of that row. A binomial that overflows is marked.
#[derive(Drop)]
pub struct Pascal {
    reach: u32,
    cells: Vec<u128>,
}

impl Model for Pascal {
    ghost Value = { ℕ };

    ghost view = { λ p. p.reach };

    ghost invariant = { λ p. IsTable p.reach p.cells.items };
}

impl Pascal {
    /// The rows 0 to `n`.
    ///
    /// # Errors
    ///
    /// `NoMemory` where memory is refused.
    pub fn new(alloc: Global, n: u32) -> Result<Pascal, NoMemory>
        requires small { n ≤ LAST }
        ensures { IfOk result (λ pascal. pascal ≡ n) }
    {
        let mut cells = Vec::with_capacity(alloc, WIDE * (n as usize + 1))?;
        for row in 0..n as usize + 1 {
            push_row(&mut cells, row)?;
        }
        Ok(Pascal { reach: n, cells })
    }

    /// The number of choices of `k` of `n` things. `None` comes exactly where it is above `MAX`.
    pub fn choose(&self, n: u32, k: u32) -> Option<u128>
        requires reached { n ≤ self.now }
        requires within { k ≤ n }
        ensures { SomeIff result (choose n k ≤ MAX) (choose n k) }
    {
        let number = self.marked(n, k);
        if number <= MAX { Some(number) } else { None }
    }

    /// The same number, or the mark where it is above `MAX`.
    pub fn marked(&self, n: u32, k: u32) -> u128
        requires reached { n ≤ self.now }
        requires within { k ≤ n }
        ensures { result ≡ capped (choose n k) }
    {
        self.cells[WIDE * n as usize + k as usize]
    }
}

// Row n after those before it.
fn push_row(cells: &mut Vec<u128>, n: usize) -> Result<(), NoMemory>
    requires cells { AreCells cells.old.items }
    requires long { length cells.old.items ≡ WIDE * n }
    ensures cells { OnOk result (AreCells cells.new.items) }
    ensures long { OnOk result (length cells.new.items ≡ WIDE * (n + 1)) }
{
    for k in 0..WIDE {
        let next = next_cell(cells.as_slice(), n, k);
        cells.push(next)?;
    }
    Ok(())
}

// The cell after those before it: the sum of the two above it, the one above and the one on its left.
fn next_cell(cells: &[u128], n: usize, k: usize) -> u128
    requires cells { AreCells cells.now }
    requires at { length cells.now ≡ WIDE * n + k }
    requires inside { k < WIDE }
    ensures { result ≡ capped (choose n k) }
{
    if k == 0 {
        1
    } else if n == 0 {
        0
    } else {
        let above = cells.len() - WIDE;
        marked_add(cells[above - 1], cells[above])
    }
}
