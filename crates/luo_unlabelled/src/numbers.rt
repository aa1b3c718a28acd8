// The numbers that the calls are given, and their answers.
ghost use Rattle.std.specs.Prelude.{◌≡◌, ◌+◌, ◌*◌, ◌-◌, ◌<◌, ◌≤◌, ◌∷◌, ◌++◌, [], ℕ, suc, length, slice_index, take, replicate, IfOk, OkIff};
ghost use Rattle.luo_num.specs.Mark.{capped};
ghost use Rattle.luo_num.specs.declared.TheConstants.{MAX};
ghost use Rattle.luo_unlabelled.specs.inner.Steps.{convolved};

use luo_num::{MAX, NoMemory, Over, marked_add, marked_mul};
use std::alloc::Global;

// So many cells, with 0 in each.
pub fn zeros(alloc: Global, n: usize) -> Result<Vec<u128>, NoMemory>
    ensures { IfOk result (λ cells. cells.items ≡ replicate n 0) }
{
    Ok(vec![in alloc; 0; n]?)
}

// Keeps the numbers that a call is given. Those of the calls before are kept already, but for the last, which may have been
// outside the bounds.
pub fn keep(kept: &mut [u128], numbers: &[u128], here: u128)
    requires room { length numbers.now < length kept.old }
    requires agree { (m : ℕ) → suc m < length numbers.now → slice_index numbers.now m
        ≡ slice_index kept.old m }
    ensures { take (length numbers.now + 1) kept.new ≡ numbers.now ++ here ∷ [] }
{
    let n = numbers.len();
    if n > 0 {
        kept[n - 1] = numbers[n - 1];
    }
    kept[n] = here;
}

// The sum over j from 1 to n of number j times cell n - j of a row, marked.
pub fn convolved(numbers: &[u128], cells: &[u128], row: usize, n: usize) -> u128
    requires numbers { n < length numbers.now }
    requires row { row + n ≤ length cells.now }
    ensures { result ≡ capped (convolved numbers.now cells.now row n) }
{
    let mut sum = 0;
    for j in 0..n {
        sum = marked_add(sum, marked_mul(numbers[j + 1], cells[row + (n - (j + 1))]));
    }
    sum
}

// The answer for a number with its mark.
pub fn within(number: u128) -> Result<u128, Over>
    ensures { OkIff result (number ≤ MAX) number }
{
    if number <= MAX { Ok(number) } else { Err(Over) }
}
