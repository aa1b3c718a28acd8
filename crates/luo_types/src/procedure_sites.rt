// The list of the sites of procedures, and their walks over multisets and powersets.
ghost use Rattle.std.specs.Prelude.{◌≡◌, ◌++◌, ◌^◌, ◌≤◌, map, length, sum_by, IfOk, OnOk};
ghost use Rattle.luo_model.specs.Invariant.{procedure_sites};
ghost use Rattle.luo_model.specs.Scopes.Walks.{body_items};
ghost use Rattle.luo_model.specs.View.{body_of, procedure_of};
ghost use Rattle.luo_rules.specs.Settings.{types_of};
ghost use Rattle.luo_types.specs.inner.SitesFound.{nodes_of, sites_at, sites_in, procedure_walks, procedure_items};

use crate::sites::{Found, items, one_part};
use luo_model::{Proc, Site};
use luo_num::Items;
use luo_rules::Setting;
use std::alloc::{AllocError, Global};

// Puts the sites of a procedure after those before it, each with its node.
fn push_sites(sites: &mut Items<Site>, caller: usize, nodes: &[usize]) -> Result<(), AllocError>
    requires { length nodes.now ≤ 2 ^ 32 }
    ensures { OnOk result (sites.new ≡ sites.old ++ sites_at caller 0 nodes.now) }
{
    for (place, node) in nodes.iter().enumerate() {
        sites.push(Site {
            node: *node,
            caller,
            place: place as u32,
        })?;
    }
    Ok(())
}

// Puts the sites of a procedure after those before it, and counts its walks.
fn push_procedure(
    alloc: Global,
    setting: &Setting,
    caller: usize,
    proc: &Proc,
    sites: &mut Items<Site>,
) -> Result<usize, AllocError>
    requires { body_items (body_of proc.now.body) ≤ 2 ^ 30 }
    ensures sites { OnOk result (sites.new ≡ sites.old ++ sites_at caller 0
        (nodes_of (procedure_sites (types_of setting.now) (procedure_of proc.now)))) }
    ensures walks { IfOk result (λ walks. walks ≡ procedure_walks (types_of setting.now)
        (procedure_of proc.now)) }
{
    let vars = one_part(alloc, proc.on)?;
    let mut found = Found {
        nodes: Items::new(alloc),
        walks: 0,
    };
    items(
        alloc,
        setting,
        vars.as_slice(),
        proc.body.items.as_slice(),
        &mut found,
    )?;
    found.nodes.push(proc.on.node)?;
    push_sites(sites, caller, found.nodes.as_slice())?;
    Ok(found.walks)
}

/// The sites of procedures, by procedure, and the number of walks over multisets and powersets.
pub(crate) fn sites_of(
    alloc: Global,
    setting: &Setting,
    procs: &[Proc],
) -> Result<(Items<Site>, usize), AllocError>
    requires { sum_by procedure_items (map procedure_of procs.now) ≤ 2 ^ 30 }
    ensures sites { IfOk result (λ made. made.0 ≡ sites_in (types_of setting.now) 0
        (map procedure_of procs.now)) }
    ensures walks { IfOk result (λ made. made.1 ≡ sum_by (procedure_walks (types_of setting.now))
        (map procedure_of procs.now)) }
{
    let mut sites = Items::new(alloc);
    let mut walks = 0;
    for (caller, proc) in procs.iter().enumerate() {
        walks += push_procedure(alloc, setting, caller, proc, &mut sites)?;
    }
    Ok((sites, walks))
}
