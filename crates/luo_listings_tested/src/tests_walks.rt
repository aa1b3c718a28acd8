// What a walk gives, beside the same lists: each structure made of the one before it.

use crate::tests_places::Asked;
use crate::tests_structures::are_same;
use luo_list::Cursor;
use luo_model::Program;
use luo_num::NoMemory;
use luo_struct::Structure;
use std::alloc::Global;
use std::process::Abort;
use std::test::Fail;

// Whether the cursor answers this structure next. What it answers is given back to it.
fn is_next(
    alloc: Global,
    program: &Program,
    cursor: &mut Cursor<'_>,
    asked: Asked<'_>,
    there: &Structure,
) -> Result<bool, NoMemory> {
    match cursor.next(alloc)? {
        Some(s) => {
            let is_same = are_same(program, asked.node, asked.n, &s, there);
            cursor.step_from(s);
            Ok(is_same)
        }
        None => Ok(false),
    }
}

// Whether the cursor answers nothing more.
fn is_at_end(alloc: Global, cursor: &mut Cursor<'_>) -> Result<bool, NoMemory> {
    match cursor.next(alloc)? {
        Some(_) => Ok(false),
        None => Ok(true),
    }
}

// The cursor answers this structure next.
fn answers<R: Abort>(
    rt: &R,
    alloc: Global,
    program: &Program,
    cursor: &mut Cursor<'_>,
    asked: Asked<'_>,
    there: &Structure,
) -> Result<(), Fail> {
    let is_next = is_next(alloc, program, cursor, asked, there)?;
    let Asked { example, node, n } = asked;
    assert!(rt; is_next, "{example}: a step of size {n} of node {node}");
    Ok(())
}

/// The cursor answers these structures, one after the other, and then nothing.
pub fn goes_through<R: Abort>(
    rt: &R,
    alloc: Global,
    program: &Program,
    cursor: &mut Cursor<'_>,
    asked: Asked<'_>,
    structures: &[Structure],
) -> Result<(), Fail> {
    for there in structures {
        answers(rt, alloc, program, cursor, asked, there)?;
    }
    let is_at_end = is_at_end(alloc, cursor)?;
    let Asked { example, node, n } = asked;
    assert!(rt; is_at_end, "{example}: the end of size {n} of node {node}");
    Ok(())
}
