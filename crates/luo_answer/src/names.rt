// Names of definitions, nodes, procedures and sites, in lines.
ghost use Rattle.std.specs.Prelude.{◌≡◌, ◌++◌, slice_get, OnOk};
ghost use Rattle.luo_model.specs.View.{plain_of};
ghost use Rattle.luo_answer.specs.Names.{name_of_definition, node_name, procedure_name, site_name};

use itoa::Buffer;
use luo_model::Program;
use luo_num::NoMemory;

// Puts the name of a definition behind the text.
fn put_definition(text: &mut Vec<u8>, program: &Program, definition: usize) -> Result<(), NoMemory>
    ensures { OnOk result (text.new.items ≡ text.old.items ++ name_of_definition
        (slice_get program.now.defs definition)) }
{
    if let Some(def) = program.defs.get(definition) {
        text.extend_from_slice(def.name.as_slice())?;
    }
    Ok(())
}

/// Puts the name of a node behind the text: its definition's, and its place there.
pub fn put_node(text: &mut Vec<u8>, program: &Program, node: usize) -> Result<(), NoMemory>
    ensures { OnOk result (text.new.items ≡ text.old.items ++ node_name
        (plain_of program.now) node) }
{
    let mut buffer = Buffer::new();
    let Some(node) = program.nodes.get(node) else {
        return Ok(());
    };
    put_definition(text, program, node.owner)?;
    text.push(b'.')?;
    text.extend_from_slice(buffer.format(node.place).as_bytes())?;
    Ok(())
}

/// Puts the name of a procedure behind the text.
pub fn put_procedure(
    text: &mut Vec<u8>,
    program: &Program,
    procedure: usize,
) -> Result<(), NoMemory>
    ensures { OnOk result (text.new.items ≡ text.old.items ++ procedure_name
        (plain_of program.now) procedure) }
{
    if let Some(procedure) = program.procs.get(procedure) {
        text.extend_from_slice(procedure.name.as_slice())?;
    }
    Ok(())
}

/// Puts the name of a site behind the text: its procedure's, and its place there.
pub fn put_site(text: &mut Vec<u8>, program: &Program, site: usize) -> Result<(), NoMemory>
    ensures { OnOk result (text.new.items ≡ text.old.items ++ site_name
        (plain_of program.now) site) }
{
    let mut buffer = Buffer::new();
    let Some(site) = program.sites.get(site) else {
        return Ok(());
    };
    put_procedure(text, program, site.caller)?;
    text.push(b'.')?;
    text.extend_from_slice(buffer.format(site.place).as_bytes())?;
    Ok(())
}
