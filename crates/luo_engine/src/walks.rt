// Charges over the collections of one kind, summed size by size.
ghost use Rattle.std.specs.Prelude.{◌≡◌, ◌≤◌, length, IfOk};
ghost use Rattle.luo_num.specs.Mark.{capped};
ghost use Rattle.luo_engine.specs.inner.Asked.{GoesWithAs, KeepsCounts, unasked_walk, total_asked, asked_more};
ghost use Rattle.luo_engine.specs.inner.Forms.{asked_of, asked_walk_of};

use crate::collections::{Collection, Counter, marked};
use luo_binom::Pascal;
use luo_labelled::ChainWalk;
use luo_num::NoMemory;
use luo_unlabelled::{LineWalk, PartsWalk, UnboundedWalk};
use std::alloc::Global;
use std::marker::Model;

/// The table that sums charges over a kind of collections.
#[derive(Drop)]
pub enum Summer {
    /// Over labelled sequences, sets and cycles.
    Chain(ChainWalk),
    /// Over unlabelled sequences.
    Line(LineWalk),
    /// Over unlabelled multisets and powersets within bounds.
    Parts(PartsWalk),
    /// Over unlabelled multisets and powersets by size alone.
    Unbounded(UnboundedWalk),
}

/// Sums charges over the collections that a `Collection` counts, size by size. Contracts see in it the numbers of components that its
/// calls were given, and what they see in a `Collection`, with sums of charges in place of numbers.
#[derive(Drop)]
pub struct CollectionWalk {
    pub(crate) summer: Summer,
}

impl Model for CollectionWalk {
    ghost use Rattle.luo_engine.specs.inner.Asked.{AskedWalk};
    ghost use Rattle.luo_engine.specs.inner.Forms.{asked_walk_of};

    ghost Value = { AskedWalk };

    ghost view = { λ w. asked_walk_of w.summer };
}

impl Summer {
    fn new(alloc: Global, counter: &Counter) -> Result<Summer, NoMemory>
        ensures { IfOk result (λ summer. asked_walk_of summer ≡ unasked_walk
            (asked_of counter.now)) }
    {
        match counter {
            Counter::Chain(chain) => Ok(Summer::Chain(ChainWalk::new(alloc, chain)?)),
            Counter::Line(line) => Ok(Summer::Line(LineWalk::new(alloc, line)?)),
            Counter::Parts(parts) => Ok(Summer::Parts(PartsWalk::new(alloc, parts)?)),
            Counter::Unbounded(table) => {
                Ok(Summer::Unbounded(UnboundedWalk::new(alloc, table)?))
            }
        }
    }

    fn total_at(
        &mut self,
        counter: &Counter,
        pascal: &Pascal,
        comp: &[u128],
        body: &[u128],
        here: u128,
    ) -> u128
        requires goes_with { GoesWithAs (asked_of counter.now) (asked_walk_of self.old)
            comp.now body.now here }
        requires reached { length comp.now ≤ pascal.now }
        ensures answer { result ≡ capped (total_asked (asked_of counter.now) body.now here) }
        ensures counts { KeepsCounts (asked_of counter.now) comp.now
            (asked_walk_of self.new).counts }
        ensures sums { (asked_walk_of self.new).sums
            ≡ asked_more (asked_walk_of self.old).sums body.now here result }
    {
        match (self, counter) {
            (Summer::Chain(walk), Counter::Chain(chain)) => {
                marked(walk.total_at(chain, pascal, comp, body, here))
            }
            (Summer::Line(walk), Counter::Line(line)) => {
                marked(walk.total_at(line, comp, body, here))
            }
            (Summer::Parts(walk), Counter::Parts(parts)) => {
                marked(walk.total_at(parts, comp, body, here))
            }
            (Summer::Unbounded(walk), Counter::Unbounded(table)) => {
                marked(walk.total_at(table, comp, body, here))
            }
            _ => unreachable!(),
        }
    }
}

impl CollectionWalk {
    /// A table for charges over the collections that `collection` counts. It takes all memory that it will need.
    ///
    /// # Errors
    ///
    /// `NoMemory` where memory is refused.
    pub fn new(alloc: Global, collection: &Collection) -> Result<CollectionWalk, NoMemory>
        ensures { IfOk result (λ walk. walk ≡ unasked_walk collection.now) }
    {
        let summer = Summer::new(alloc, &collection.counter)?;
        Ok(CollectionWalk { summer })
    }

    /// The sum of the charges of their components over all collections of the next size n, marked; `collection` has answered for n.
    /// `comp` has the numbers of components of the sizes below n, `body` the sums of the charges over them, and `here` is that of size
    /// n where one component is within the bounds, and 0 elsewhere.
    pub fn total_at(
        &mut self,
        collection: &Collection,
        pascal: &Pascal,
        comp: &[u128],
        body: &[u128],
        here: u128,
    ) -> u128
        requires goes_with { GoesWithAs collection.now self.old comp.now body.now here }
        requires reached { length comp.now ≤ pascal.now }
        ensures answer { result ≡ capped (total_asked collection.now body.now here) }
        ensures counts { KeepsCounts collection.now comp.now self.new.counts }
        ensures sums { self.new.sums ≡ asked_more self.old.sums body.now here result }
    {
        self.summer
            .total_at(&collection.counter, pascal, comp, body, here)
    }
}
