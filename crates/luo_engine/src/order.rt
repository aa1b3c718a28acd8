// The orders of nodes and of sites at one size.
ghost use Rattle.std.specs.Prelude.{◌≡◌, ◌<◌, ◌+◌, ℕ, length, slice_index, IfOk, OnOk};
ghost use Rattle.luo_engine.specs.inner.Filled.{IsOrderOf, IsBefore};
ghost use Rattle.luo_engine.specs.inner.Listed.{IsSiteBefore, AreSitesListed};

use luo_num::{Items, NoMemory};
use std::alloc::{AllocError, Global};

// One more than the greatest rank.
fn top_of(ranks: &[u32]) -> usize
    ensures { (x : ℕ) → x < length ranks.now → slice_index ranks.now x < result }
{
    let mut top = 0;
    for x in 0..ranks.len() {
        let next = ranks[x] as usize + 1;
        top = top.max(next);
    }
    top
}

// The nodes by rank, and then by number.
pub fn order_of(alloc: Global, ranks: &[u32]) -> Result<Items<usize>, NoMemory>
    ensures { IfOk result (IsOrderOf (length ranks.now) (IsBefore ranks.now)) }
{
    let top = top_of(ranks);
    let mut order = Items::new(alloc);
    for r in 0..top {
        for x in 0..ranks.len() {
            if ranks[x] as usize == r {
                order.push(x)?;
            }
        }
    }
    Ok(order)
}

// The sites of rank r and level l go after those listed.
fn list_sites(
    ranks: &[u32],
    levels: &[u32],
    r: usize,
    l: usize,
    order: &mut Items<usize>,
) -> Result<(), AllocError>
    requires wide { length levels.now ≡ length ranks.now }
    requires listed { AreSitesListed ranks.now levels.now r l 0 order.old }
    ensures { OnOk result (AreSitesListed ranks.now levels.now r (l + 1) 0 order.new) }
{
    for i in 0..ranks.len() {
        if ranks[i] as usize == r && levels[i] as usize == l {
            order.push(i)?;
        }
    }
    Ok(())
}

// The sites by the ranks of their nodes, then by level, and then by number.
pub fn site_order_of(alloc: Global, ranks: &[u32], levels: &[u32]) -> Result<Items<usize>, NoMemory>
    requires wide { length levels.now ≡ length ranks.now }
    ensures { IfOk result (IsOrderOf (length ranks.now) (IsSiteBefore ranks.now levels.now)) }
{
    let most = top_of(ranks);
    let highest = top_of(levels);
    let mut order = Items::new(alloc);
    for r in 0..most {
        for l in 0..highest {
            list_sites(ranks, levels, r, l, &mut order)?;
        }
    }
    Ok(order)
}
