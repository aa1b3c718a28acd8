// Calls by their numbers.
ghost use Rattle.std.specs.Prelude.{◌↔◌, IsTrue, Contains};

use luo_num::Items;

// The call of this number is to fail.
pub fn is_failing(fails: &Items<u64>, call: u64) -> bool
    ensures { IsTrue result ↔ Contains fails.now call }
{
    fails.as_slice().contains(&call)
}
