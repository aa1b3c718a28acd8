// Binomials of large numbers of things.
ghost use Rattle.std.specs.Prelude.{◌≡◌, ◌+◌, ◌≤◌, ◌<◌, SomeIff};
ghost use Rattle.luo_num.specs.declared.TheConstants.{MAX};
ghost use Rattle.luo_finite.specs.Binomial.{choose};

use luo_num::{MAX, gcd};

/// The number `C(a, j)` of choices of `j` of `a` things, which is 0 for `j` above `a`. `None` comes exactly where it is above
/// `MAX`. Numbers of things up to 200 past `MAX` are those of choices with repetition: `C(a + j - 1, j)`.
pub fn choose_large(a: u128, j: u32) -> Option<u128>
    requires large { a ≤ MAX + 200 }
    requires few { j ≤ 200 }
    ensures { SomeIff result (choose a j ≤ MAX) (choose a j) }
{
    let taken = u128::from(j);
    if taken > a {
        Some(0)
    } else if taken <= a - taken {
        choose_few(a, taken)
    } else {
        choose_few(a, a - taken)
    }
}

// The same for at most half of the things: there the numbers rise with those that are taken.
fn choose_few(a: u128, k: u128) -> Option<u128>
    requires large { a ≤ MAX + 200 }
    requires half { k + k ≤ a }
    ensures { SomeIff result (choose a k ≤ MAX) (choose a k) }
{
    let mut number = 1;
    for i in 0..k {
        match one_more(number, a, i) {
            Some(next) => number = next,
            None => return None,
        }
    }
    Some(number)
}

// `C(a, i + 1)` from `C(a, i)`, by which it is multiplied with `(a - i) / (i + 1)`: what `i + 1` doesn't share with `C(a, i)`
// divides `a - i`.
fn one_more(number: u128, a: u128, i: u128) -> Option<u128>
    requires large { a ≤ MAX + 200 }
    requires less { i < a }
    requires number { number ≡ choose a i }
    ensures { SomeIff result (choose a (i + 1) ≤ MAX) (choose a (i + 1)) }
{
    let shared = gcd(number, i + 1);
    match (number / shared).checked_mul((a - i) / ((i + 1) / shared)) {
        Some(next) if next <= MAX => Some(next),
        _ => None,
    }
}
