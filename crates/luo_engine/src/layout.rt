// The ranks of nodes, and where the rows of products stand.
ghost use Rattle.std.specs.Prelude.{◌≡◌, ◌<◌, ◌++◌, length, IfOk, OnOk};
ghost use Rattle.luo_model.specs.View.{plain_of};
ghost use Rattle.luo_model.specs.Invariant.{IsProgram};
ghost use Rattle.luo_model.specs.Founded.{IsFounded};
ghost use Rattle.luo_engine.specs.inner.Filled.{AreRanks};
ghost use Rattle.luo_engine.specs.inner.Layout.{rows_of_parts, laid_behind, AreLaidBelow};

use luo_founded::Ranks;
use luo_model::{Part, Program, Shape};
use luo_num::{Items, NoMemory};
use std::alloc::Global;

/// The ranks of all nodes of a program, which is well-founded.
pub fn ranks_of(alloc: Global, ranks: &Ranks<'_>) -> Result<Items<u32>, NoMemory>
    ensures ranked { IfOk result (AreRanks (plain_of ranks.now)) }
    ensures founded { IfOk result (λ _. IsFounded (plain_of ranks.now)) }
{
    let program = ranks.program();
    let mut copied = Items::new(alloc);
    for x in 0..program.nodes.len() {
        copied.push(ranks.node_rank(x))?;
    }
    Ok(copied)
}

/// Where each product's rows start, and the factors of all rows.
#[derive(Drop)]
pub struct Layout {
    pub starts: Items<usize>,
    pub factors: Items<Option<usize>>,
}

// The rows of a product after those that stand: its factors, and the end.
fn push_rows(factors: &mut Items<Option<usize>>, parts: &[Part]) -> Result<(), NoMemory>
    ensures { OnOk result (factors.new ≡ factors.old ++ rows_of_parts parts.now) }
{
    for part in parts {
        factors.push(Some(part.node))?;
    }
    factors.push(None)?;
    Ok(())
}

// One more node.
fn lay(layout: &mut Layout, shape: &Shape) -> Result<(), NoMemory>
    ensures { OnOk result (layout.new ≡ laid_behind layout.old shape.now) }
{
    match shape {
        Shape::Product { parts } => {
            layout.starts.push(layout.factors.len())?;
            push_rows(&mut layout.factors, parts.as_slice())?;
        }
        _ => layout.starts.push(0)?,
    }
    Ok(())
}

/// The layout of a program.
pub fn layout_of(alloc: Global, program: &Program) -> Result<Layout, NoMemory>
    ensures laid { IfOk result (λ layout.
        AreLaidBelow (plain_of program.now) layout (length program.now.nodes)) }
    ensures proper { IfOk result (λ _. IsProgram (plain_of program.now)) }
{
    let mut layout = Layout {
        starts: Items::new(alloc),
        factors: Items::new(alloc),
    };
    for node in program.nodes.as_slice() {
        lay(&mut layout, &node.shape)?;
    }
    Ok(layout)
}
