// Structures from their parts.
ghost use Rattle.std.specs.Prelude.{◌≡◌, ◌+◌, ◌<◌, IfOk};
ghost use Rattle.luo_model.specs.Tree.{Inj, Tup, Coll};
ghost use Rattle.luo_struct.specs.View.{tree_of, tree_list};

use luo_num::{Boxed, Items, NoMemory};
use luo_struct::Structure;
use std::alloc::Global;

/// The structure of a branch, counted from 0.
///
/// # Errors
///
/// `NoMemory` where memory is refused.
pub fn inject(alloc: Global, branch: usize, inner: Structure) -> Result<Structure, NoMemory>
    requires { branch < 64 }
    ensures { IfOk result (λ s. tree_of s ≡ Inj (branch + 1) (tree_of inner)) }
{
    let inner = Boxed::new(alloc, inner)?;
    Ok(Structure::Inj {
        branch: branch as u32 + 1,
        inner,
    })
}

/// The tuple of these parts.
pub fn tuple(parts: Items<Structure>) -> Structure
    ensures { tree_of result ≡ Tup (tree_list parts) }
{
    Structure::Tup { parts }
}

/// The collection of these components.
pub fn collection(parts: Items<Structure>) -> Structure
    ensures { tree_of result ≡ Coll (tree_list parts) }
{
    Structure::Coll { parts }
}
