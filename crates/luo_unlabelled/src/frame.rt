// What a plane is made for.
ghost use Rattle.std.specs.Prelude.{◌≡◌, ◌+◌, ◌≤◌};
ghost use Rattle.luo_unlabelled.specs.inner.Planes.{last_of};

use luo_model::Kind;

/// The kind, the bounds and the greatest size of a table of multisets or powersets.
#[derive(Clone, Copy)]
pub struct Frame {
    pub kind: Kind,
    pub low: u32,
    pub high: Option<u32>,
    pub n_max: u32,
}

impl Frame {
    // The number of cells of a row: one for each size.
    pub fn wide(self) -> usize
        ensures { result ≡ self.n_max + 1 }
    {
        self.n_max as usize + 1
    }

    // The number of rows: one for each number of components.
    pub fn deep(self) -> usize
        ensures { result ≡ last_of self.high self.n_max + 1 }
    {
        self.last(self.n_max as usize) + 1
    }

    // The greatest number of components of size n.
    pub fn last(self, n: usize) -> usize
        ensures { result ≡ last_of self.high n }
    {
        match self.high {
            Some(high) => n.min(high as usize),
            None => n,
        }
    }
}
