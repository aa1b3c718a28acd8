// Definitions that are names and lead back to themselves.
ghost use Rattle.std.specs.Prelude.{◌≡◌, IfOk};
ghost use Rattle.luo_rules.specs.Definitions.{name_of};
ghost use Rattle.luo_rules.specs.inner.Naming.{circle};

use crate::definitions::Entry;
use crate::links::next;
use luo_num::{Items, NoMemory, Text};
use luo_rules::Names;
use std::alloc::Global;

// The name of a definition.
fn name_of(alloc: Global, defs: &[Entry], i: usize) -> Result<Text, NoMemory>
    ensures { IfOk result (λ text. text ≡ name_of defs.now i) }
{
    match defs.get(i) {
        Some(def) => Ok(Items::from_slice(alloc, def.name.text.as_slice())?),
        None => Ok(Items::new(alloc)),
    }
}

/// The circle on which a definition lies: its name, those it leads through, and its name again.
pub(crate) fn circle(
    alloc: Global,
    names: &Names,
    defs: &[Entry],
    home: usize,
) -> Result<Option<Items<Text>>, NoMemory>
    ensures { IfOk result (λ found. found ≡ circle names.now defs.now home) }
{
    let mut way = Items::new(alloc);
    way.push(name_of(alloc, defs, home)?)?;
    let mut at = home;
    let mut steps = defs.len();
    while steps > 0 {
        let Some(named) = next(names, defs, at) else {
            return Ok(None);
        };
        way.push(name_of(alloc, defs, named)?)?;
        if named == home {
            return Ok(Some(way));
        }
        at = named;
        steps -= 1;
    }
    Ok(None)
}
