//! Averages in lowest terms.
#![tactic(auto)]

ghost use Rattle.luo_fraction.specs.Average.{IsAverage};

mod fraction;
pub mod laws;

pub use fraction::Average;
use luo_num::gcd;

/// The average over `count` structures whose charges sum to `total`. `Absent` comes exactly where
/// `count` is 0.
pub fn average(total: u128, count: u128) -> Average
    ensures { IsAverage total count result }
{
    if count == 0 {
        return Average::Absent;
    }
    let divisor = gcd(total, count);
    Average::Value {
        p: total / divisor,
        q: count / divisor,
    }
}
