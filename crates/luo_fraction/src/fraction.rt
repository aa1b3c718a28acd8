// The average as a value.

/// The average of charges over structures.
#[derive(Clone, Copy, Debug, PartialEq, Eq)]
pub enum Average {
    /// There is no structure.
    Absent,
    /// The fraction `p/q` in lowest terms: `q` is at least 1, and no number above 1 divides both.
    Value { p: u128, q: u128 },
}
