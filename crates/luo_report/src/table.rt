// Tables.
use luo_model::Row;
use luo_num::Items;

/// The rows of a procedure, by size.
#[derive(Debug, Drop)]
pub struct Table {
    pub callee: usize,
    pub rows: Items<Row>,
}
