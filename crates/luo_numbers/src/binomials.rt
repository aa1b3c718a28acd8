// Known binomials, sums, products, divisors, and places of choices.
ghost use Rattle.std.specs.Prelude.{◌≡◌, ◌<◌};
ghost use Rattle.luo_binom.specs.declared.pascal.TheConstants.{LAST};

use crate::failure::Failure;
use luo_binom::{LAST, Pascal, choose_large};
use luo_num::{MAX, add, gcd, mul};

// 2 to the power of 64.
const TWO_TO_64: u128 = 18446744073709551616;
// The Fibonacci numbers at 180 and 120, whose common divisor is the one at 60.
const F_180: u128 = 18547707689471986212190138521399707760;

const F_120: u128 = 5358359254990966640871840;

// Labels to choose from.
const LABELS: [u32; 5] = [1, 2, 4, 6, 9];

// A line with what is asked, and the answer.
fn write(text: &mut String, asked: &str, number: Option<u128>) -> Result<(), Failure> {
    match number {
        Some(number) => writeln!(text, "{asked} {number}")?,
        None => writeln!(text, "{asked} -")?,
    }
    Ok(())
}

/// Sums and products up to the last number and past it, and common divisors, two of them of Fibonacci numbers.
pub fn write_sums(text: &mut String) -> Result<(), Failure> {
    writeln!(text, "# sums, products, divisors")?;
    write(text, "add(MAX, 0)", add(MAX, 0))?;
    write(text, "add(MAX, 1)", add(MAX, 1))?;
    write(text, "mul(MAX, 0)", mul(MAX, 0))?;
    write(text, "mul(MAX, 2)", mul(MAX, 2))?;
    write(text, "gcd(0, 0)", Some(gcd(0, 0)))?;
    write(text, "gcd(0, 7)", Some(gcd(0, 7)))?;
    write(text, "gcd(1071, 462)", Some(gcd(1071, 462)))?;
    write(text, "gcd(F(180), F(120))", Some(gcd(F_180, F_120)))
}

/// Binomials of a table up to the last number, and the first past it.
pub fn write_binomials(text: &mut String, pascal: &Pascal) -> Result<(), Failure>
    requires { pascal.now ≡ LAST }
{
    writeln!(text, "# binomials (A007318)")?;
    write(text, "choose(0, 0)", pascal.choose(0, 0))?;
    write(text, "choose(130, 65)", pascal.choose(130, 65))?;
    write(text, "choose(131, 65)", pascal.choose(131, 65))?;
    write(text, "choose(160, 2)", pascal.choose(160, 2))?;
    write(text, "choose(160, 80)", pascal.choose(160, 80))
}

/// Binomials of large numbers of things.
pub fn write_large(text: &mut String) -> Result<(), Failure> {
    write(text, "choose_large(2^64, 2)", choose_large(TWO_TO_64, 2))?;
    write(
        text,
        "choose_large(2^64 + 1, 2)",
        choose_large(TWO_TO_64 + 1, 2),
    )?;
    write(text, "choose_large(140, 139)", choose_large(140, 139))?;
    write(text, "choose_large(140, 141)", choose_large(140, 141))?;
    write(text, "choose_large(MAX, 1)", choose_large(MAX, 1))?;
    write(text, "choose_large(MAX + 1, 1)", choose_large(MAX + 1, 1))?;
    write(
        text,
        "choose_large(MAX + 200, 0)",
        choose_large(MAX + 200, 0),
    )
}

// The choice of 3 of the labels at a place, and the place of this choice.
fn write_choice(text: &mut String, pascal: &Pascal, rank: u128) -> Result<(), Failure>
    requires table { pascal.now ≡ LAST }
    requires rank { rank < 10 }
{
    let mut part = [0; 3];
    pascal.subset_at(&LABELS, 3, rank, &mut part);
    let place = pascal.subset_rank(&LABELS, &part);
    writeln!(text, "{} {} {} {place}", part[0], part[1], part[2])?;
    Ok(())
}

/// All choices of 3 of 5 labels.
pub fn write_choices(text: &mut String, pascal: &Pascal) -> Result<(), Failure>
    requires { pascal.now ≡ LAST }
{
    writeln!(text, "# choices of 3 of 5 labels, and their places")?;
    for rank in 0..10u64 {
        write_choice(text, pascal, u128::from(rank))?;
    }
    Ok(())
}
