//! Numbers up to a last one, texts, lists, limits, and the answer for want of memory.
#![tactic(auto)]

ghost use Rattle.std.specs.Prelude.{◌≡◌, ◌+◌, ◌*◌, ◌≤◌, SomeIff};

mod divisors;
pub mod laws;
pub mod limits;
mod marks;
mod memory;
mod shared;
pub mod text;

pub use divisors::gcd;
pub use marks::{Over, marked_add, marked_mul};
pub use memory::NoMemory;
pub use sqlite_items::{Boxed, Items};

/// A list of bytes.
pub type Text = Items<u8>;

/// The greatest number that a table holds, `2^127 - 1`.
pub const MAX: u128 = 170141183460469231731687303715884105727;

/// The mark of a number above `MAX`, in tables that hold marks: `MAX + 1`.
pub const MARK: u128 = MAX + 1;

/// The sum of two numbers. `None` comes exactly where it is above `MAX`.
pub fn add(a: u128, b: u128) -> Option<u128>
    requires a_in_range { a ≤ MAX }
    requires b_in_range { b ≤ MAX }
    ensures { SomeIff result (a + b ≤ MAX) (a + b) }
{
    let sum = a + b;
    if sum <= MAX { Some(sum) } else { None }
}

/// The product of two numbers. `None` comes exactly where it is above `MAX`.
pub fn mul(a: u128, b: u128) -> Option<u128>
    requires a_in_range { a ≤ MAX }
    requires b_in_range { b ≤ MAX }
    ensures { SomeIff result (a * b ≤ MAX) (a * b) }
{
    match a.checked_mul(b) {
        Some(product) if product <= MAX => Some(product),
        _ => None,
    }
}
