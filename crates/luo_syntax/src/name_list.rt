// Lists of names.
#![tactic(auto, using(crate::proofs::NamesSoFar::names_steps))]

ghost use Rattle.std.specs.Prelude.{◌<◌, length, IfOk, IfErr, OnOk};
ghost use Rattle.luo_syntax.specs.inner.Next.{OnStop};
ghost use Rattle.luo_source.specs.GrammarTypes.{AreNames};
ghost use Rattle.luo_syntax.specs.inner.StopsNames.{NamesStop};

use crate::cursor::Cursor;
use crate::fault::Fault;
use luo_num::Items;
use luo_scan::Mark;
use luo_source::Name;
use std::alloc::Global;

impl<'t> Cursor<'t> {
    /// Reads names with commas between them, and this mark after them.
    pub fn names(&mut self, close: Mark, alloc: Global) -> Result<Items<Name>, Fault>
        ensures reads { IfOk result (λ ns. AreNames close self.old self.new ns) }
        ensures stops { IfErr result (λ f. OnStop f (NamesStop close self.old self.new)) }
        ensures shorter { OnOk result (length self.new < length self.old) }
    {
        let mut names = Items::new(alloc);
        'names: loop {
            let name = self.name(alloc)?;
            names.push(name)?;
            if self.take_mark(close) {
                return Ok(names);
            }
            self.expect_mark(Mark::Comma)?;
        }
    }
}
