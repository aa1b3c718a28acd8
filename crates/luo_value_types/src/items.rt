// Items of bodies, and their sites.
ghost use Rattle.std.specs.Prelude.{◌≡◌, ◌+◌, ◌^◌, ◌<◌, OnOk};
ghost use Rattle.luo_model.specs.View.{item_of};
ghost use Rattle.luo_value_types.specs.inner.Items.{HasItem};

use luo_model::{Body, Item};
use std::alloc::AllocError;

/// Puts an item after those of a body.
pub fn push_item(body: &mut Body, item: Item) -> Result<(), AllocError>
    ensures { OnOk result (HasItem (item_of item) body.old body.new) }
{
    body.items.push(item)?;
    Ok(())
}

/// The next site.
pub fn take_site(next: &mut usize) -> usize
    requires { next.old < 2 ^ 33 }
    ensures taken { result ≡ next.old }
    ensures left { next.new ≡ next.old + 1 }
{
    let site = *next;
    *next += 1;
    site
}
