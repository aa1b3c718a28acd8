// The rows and entries of a table.

/// A row of a report: a size, the number of structures of that size, and the sum of the charges over them.
#[derive(Clone, Copy, Debug, PartialEq, Eq)]
pub struct Row {
    pub n: u32,
    pub count: u128,
    pub total: u128,
}

/// What a table is filled with: the counts of nodes, or also the totals of sites.
#[derive(Clone, Copy, Debug, PartialEq, Eq)]
pub enum Fill {
    Counts,
    All,
}

/// An entry of a table at one size: the count of a node, or the total of a site.
#[derive(Clone, Copy, Debug, PartialEq, Eq)]
pub enum Entry {
    Count(usize),
    Total(usize),
}
