// Common divisors.
ghost use Rattle.std.specs.Int.{IsGcd};

/// The greatest common divisor of two numbers, by Euclid's algorithm. That of 0 and 0 is 0, the one number that each number
/// divides.
pub fn gcd(a: u128, b: u128) -> u128
    ensures { IsGcd a b result }
{
    let (mut a, mut b) = (a, b);
    while b != 0 {
        (a, b) = (b, a % b);
    }
    a
}
