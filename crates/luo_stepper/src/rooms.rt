// The next size and labels of a first.
ghost use Rattle.std.specs.Prelude.{◌≡◌, ◌+◌, ◌<◌, ◌≤◌, length, IfOk, Option};
ghost use Rattle.luo_model.specs.Program.{shape_of};
ghost use Rattle.luo_model.specs.View.{plain_of};
ghost use Rattle.luo_places.specs.Tails.{IsSpread, first_node};
ghost use Rattle.luo_rank.specs.inner.Lookup.{IsLooked, tail_at, IsLeft, Stands};
ghost use Rattle.luo_stepper.specs.inner.Stepping.{IsRoomOf, IsNextRoom, IsLastRoom, Turned};
ghost use Rattle.luo_stepper.specs.inner.Told.{RoomTold};

use crate::beginning::{first_row, first_structure};
use crate::labels::{labels_at, place_of};
use crate::sizes::size_from;
use luo_num::{Items, NoMemory};
use luo_rank::tables::Tables;
use luo_struct::Structure;
use std::alloc::Global;

// A size and labels of a first, and the labels of the rest.
#[derive(Drop)]
pub struct Room {
    pub size: usize,
    pub first: Items<u32>,
    pub rest: Items<u32>,
}

// The size and labels after these; `None` where they are the last.
fn next_room(
    alloc: Global,
    tables: &Tables<'_>,
    x: usize,
    f: usize,
    node: usize,
    labels: &[u32],
    n: usize,
    size: usize,
    own: &[u32],
) -> Result<Option<Room>, NoMemory>
    requires tables { IsLooked tables.now }
    requires node { x < length tables.now.program.nodes }
    requires first { node ≡ first_node (tail_at (plain_of tables.now.program) x f) }
    requires there { node < length tables.now.program.nodes }
    requires stands { Stands (shape_of (plain_of tables.now.program) x) tables.now.last f n }
    requires left { IsLeft (tail_at (plain_of tables.now.program) x f) n }
    requires spread { IsSpread (tail_at (plain_of tables.now.program) x f) }
    requires reach { n ≤ tables.now.last }
    requires room { IsRoomOf tables.now x f labels.now n size own.now }
    ensures { IfOk result (RoomTold tables.now x f labels.now n size own.now) }
{
    let place = place_of(tables, x, f, labels, n, size, own) + 1;
    if place < tables.ways(x, f, n, size) {
        let parted = labels_at(alloc, tables, x, f, labels, n, size, place)?;
        return Ok(Some(Room {
            size,
            first: parted.first,
            rest: parted.rest,
        }));
    }
    let size = size_from(tables, x, f, n, node, size + 1);
    if size > n {
        return Ok(None);
    }
    let parted = labels_at(alloc, tables, x, f, labels, n, size, 0)?;
    Ok(Some(Room {
        size,
        first: parted.first,
        rest: parted.rest,
    }))
}

// Puts the first structures of the next size and labels after those in `items`; false where there are none.
pub fn turn(
    alloc: Global,
    tables: &Tables<'_>,
    x: usize,
    f: usize,
    node: usize,
    labels: &[u32],
    n: usize,
    size: usize,
    own: &[u32],
    items: &mut Items<Structure>,
) -> Result<bool, NoMemory>
    requires tables { IsLooked tables.now }
    requires node { x < length tables.now.program.nodes }
    requires first { node ≡ first_node (tail_at (plain_of tables.now.program) x f) }
    requires there { node < length tables.now.program.nodes }
    requires stands { Stands (shape_of (plain_of tables.now.program) x) tables.now.last f n }
    requires left { IsLeft (tail_at (plain_of tables.now.program) x f) n }
    requires spread { IsSpread (tail_at (plain_of tables.now.program) x f) }
    requires reach { n ≤ tables.now.last }
    requires room { IsRoomOf tables.now x f labels.now n size own.now }
    ensures { IfOk result (Turned tables.now x f labels.now n size own.now items.old items.new) }
{
    let found = next_room(alloc, tables, x, f, node, labels, n, size, own)?;
    match found {
        Some(room) => {
            let first = first_structure(alloc, tables, node, room.first.as_slice(), room.size)?;
            items.push(first)?;
            first_row(
                alloc,
                tables,
                x,
                f + 1,
                room.rest.as_slice(),
                n - room.size,
                items,
            )?;
            Ok(true)
        }
        None => Ok(false),
    }
}
