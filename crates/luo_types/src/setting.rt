// The setting that definitions make.
ghost use Rattle.std.specs.Prelude.{◌≡◌, ◌≤◌, [], map, flat_map, sum_by, IfOk};
ghost use Rattle.luo_num.specs.declared.limits.TheConstants.{BOUND_LIMIT, NODE_LIMIT};
ghost use Rattle.luo_source.specs.View.{proc_def_of};
ghost use Rattle.luo_rules.specs.Counted.{own_nodes, greatest_bound, greatest_by};
ghost use Rattle.luo_rules.specs.TypeBreaches.{expr_breaches};
ghost use Rattle.luo_rules.specs.Nodes.{defs_from, nodes_from, named_node, signature_of};

use crate::counts::count_expr;
use crate::links::definition_meant;
use crate::nodes::put;
use crate::scheme::{Scheme, Spot};
use luo_model::{Def, Node};
use luo_num::{Items, NoMemory};
use luo_rules::{Setting, Signature};
use luo_source::{Name, ProcBody, ProcDef};

// The definitions in the core form.
fn core_defs(scheme: &Scheme) -> Result<Items<Def>, NoMemory>
    requires { sum_by (λ d. own_nodes d.right) scheme.now.defs.items ≤ NODE_LIMIT }
    ensures { IfOk result (λ defs. defs
        ≡ defs_from scheme.now.names scheme.now.defs.items 0 scheme.now.defs.items) }
{
    let mut defs = Items::new(scheme.alloc);
    let mut node = 0;
    for def in scheme.defs.as_slice() {
        let name = Items::from_slice(scheme.alloc, def.name.text.as_slice())?;
        let whole = scheme.part(Spot { node, place: 0 }, def.right);
        defs.push(Def { name, whole })?;
        node += count_expr(def.right).nodes as usize;
    }
    Ok(defs)
}

// The nodes in the core form.
fn core_nodes(scheme: &Scheme) -> Result<Items<Node>, NoMemory>
    requires few { sum_by (λ d. own_nodes d.right) scheme.now.defs.items ≤ NODE_LIMIT }
    requires clean { flat_map (λ d. expr_breaches scheme.now.universe scheme.now.names d.right)
        scheme.now.defs.items ≡ [] }
    requires small { greatest_by (λ d. greatest_bound d.right) scheme.now.defs.items ≤ BOUND_LIMIT }
    ensures { IfOk result (λ nodes. nodes
        ≡ nodes_from scheme.now.names scheme.now.defs.items 0 0 scheme.now.defs.items) }
{
    let mut nodes = Items::new(scheme.alloc);
    let mut node = 0;
    for (owner, def) in scheme.defs.as_slice().iter().enumerate() {
        put(
            def.right,
            scheme,
            owner,
            Spot { node, place: 0 },
            &mut nodes,
        )?;
        node += count_expr(def.right).nodes as usize;
    }
    Ok(nodes)
}

// The node of the type of this name.
fn named_node(scheme: &Scheme, name: &Name) -> Option<usize>
    ensures { result ≡ named_node scheme.now.names scheme.now.defs.items name.now }
{
    match definition_meant(scheme.names.meaning(name.text.as_slice())) {
        Some(i) => Some(scheme.nodes[i]),
        None => None,
    }
}

fn signature(scheme: &Scheme, proc: &ProcDef) -> Signature
    ensures { result ≡ signature_of scheme.now.names scheme.now.defs.items (proc_def_of proc.now) }
{
    let on = named_node(scheme, &proc.on);
    match &proc.body {
        ProcBody::Statements(_) => Signature { on, result: None },
        ProcBody::Value { result, .. } => Signature {
            on,
            result: Some(named_node(scheme, result)),
        },
    }
}

// The signatures of procedures.
fn signatures(scheme: &Scheme, procs: &[ProcDef]) -> Result<Items<Signature>, NoMemory>
    ensures { IfOk result (λ made. made ≡ map
        (λ p. signature_of scheme.now.names scheme.now.defs.items (proc_def_of p)) procs.now) }
{
    let mut made = Items::new(scheme.alloc);
    for proc in procs {
        made.push(signature(scheme, proc))?;
    }
    Ok(made)
}

/// The setting of procedures over these definitions.
pub(crate) fn setting(scheme: Scheme, procs: &[ProcDef]) -> Result<Setting, NoMemory>
    requires few { sum_by (λ d. own_nodes d.right) scheme.defs.items ≤ NODE_LIMIT }
    requires clean { flat_map (λ d. expr_breaches scheme.universe scheme.names d.right)
        scheme.defs.items ≡ [] }
    requires small { greatest_by (λ d. greatest_bound d.right) scheme.defs.items ≤ BOUND_LIMIT }
    ensures universe { IfOk result (λ s. s.universe ≡ scheme.entry.universe) }
    ensures names { IfOk result (λ s. s.names ≡ scheme.entry.names) }
    ensures defs { IfOk result (λ s. s.defs
        ≡ defs_from scheme.entry.names scheme.entry.defs.items 0 scheme.entry.defs.items) }
    ensures nodes { IfOk result (λ s. s.nodes
        ≡ nodes_from scheme.entry.names scheme.entry.defs.items 0 0 scheme.entry.defs.items) }
    ensures signatures { IfOk result (λ s. s.signatures ≡ map
        (λ p. signature_of scheme.entry.names scheme.entry.defs.items (proc_def_of p)) procs.now) }
{
    let defs = core_defs(&scheme)?;
    let nodes = core_nodes(&scheme)?;
    let signatures = signatures(&scheme, procs)?;
    Ok(Setting {
        universe: scheme.universe,
        names: scheme.names,
        defs,
        nodes,
        signatures,
    })
}
