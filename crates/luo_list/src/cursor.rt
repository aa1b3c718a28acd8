// A walk over structures by their places.
ghost use Rattle.std.specs.Prelude.{◌≡◌, ◌≤◌, ◌<◌, IfOk, IfErr};
ghost use Rattle.luo_finite.specs.Places.{IsPlace};
ghost use Rattle.luo_model.specs.Order.{IsBefore};
ghost use Rattle.luo_model.specs.Structures.{IsStructure};
ghost use Rattle.luo_model.specs.View.{plain_of};
ghost use Rattle.luo_struct.specs.View.{tree_of};
ghost use Rattle.luo_list.specs.Span.{Answers, HasPassed};
ghost use Rattle.luo_list.specs.inner.Finder.{ranked_of};
ghost use Rattle.luo_list.specs.inner.Kept.{IsKept};

use luo_num::NoMemory;
use luo_rank::Ranker;
use luo_stepper::behind;
use luo_struct::Structure;
use std::alloc::Global;
use std::marker::Model;

// A ranker that a cursor owns, or one that it is lent.
#[derive(Drop)]
pub enum Finder<'p> {
    Owned(Ranker<'p>),
    Lent(&'p Ranker<'p>),
}

impl<'p> Finder<'p> {
    // The ranker.
    fn ranker(&self) -> &Ranker<'p>
        ensures { result.now ≡ ranked_of self.now }
    {
        match self {
            Finder::Owned(ranker) => ranker,
            Finder::Lent(ranker) => ranker,
        }
    }
}

/// What is left of a walk over the structures of a node and a size, in their order. Contracts see the
/// program, the node, the size, the next place and the end.
#[derive(Drop)]
pub struct Cursor<'p> {
    finder: Finder<'p>,
    place: u128,
    end: u128,
    // The structure before the next place, where it was given back.
    before: Option<Structure>,
}

impl<'p> Model for Cursor<'p> {
    ghost use Rattle.std.specs.Prelude.{◌≤◌};
    ghost use Rattle.luo_list.specs.Span.{Span};
    ghost use Rattle.luo_list.specs.inner.Finder.{ranked_of};
    ghost use Rattle.luo_list.specs.inner.Kept.{IsKept};
    ghost use Rattle.luo_model.specs.contracts.body.Item as done;
    ghost use Rattle.luo_model.specs.contracts.value.Value as made;
    ghost use Rattle.std.specs.Coded.{codes};

    ghost Value = { Span };

    ghost coded = { Prim.hlevel (codes, done.the_row.coded, made.the_row.coded) };

    ghost view = { λ c. record {
      program = (ranked_of c.finder).program;
      node = (ranked_of c.finder).node;
      size = (ranked_of c.finder).size;
      place = c.place;
      end = c.end;
    } };

    ghost invariant = { λ c. (c.place ≤ c.end) × (c.end ≤ (ranked_of c.finder).count)
        × IsKept (ranked_of c.finder).program (ranked_of c.finder).node (ranked_of c.finder).size
        c.place c.before };
}

// The structure at a place, made of the one before it where that is there.
fn structure_here(
    alloc: Global,
    ranker: &Ranker<'_>,
    place: u128,
    before: Option<Structure>,
) -> Result<Structure, NoMemory>
    requires there { place < ranker.now.count }
    requires before { IsKept ranker.now.program ranker.now.node ranker.now.size place before }
    ensures { IfOk result (λ s. IsPlace (IsStructure (plain_of ranker.now.program) ranker.now.node
        ranker.now.size) IsBefore place (tree_of s)) }
{
    match before {
        Some(before) => behind(alloc, ranker, place - 1, before),
        None => ranker.at(alloc, place),
    }
}

impl<'p> Cursor<'p> {
    // A walk among the structures of this ranker.
    fn over(finder: Finder<'p>, start: u128, end: u128) -> Cursor<'p>
        requires order { start ≤ end }
        requires there { end ≤ (ranked_of finder).count }
        ensures { result ≡ record {
          program = (ranked_of finder.entry).program;
          node = (ranked_of finder.entry).node;
          size = (ranked_of finder.entry).size;
          place = start;
          end = end;
        } }
    {
        Cursor {
            finder,
            place: start,
            end,
            before: None,
        }
    }

    /// A walk from the place `start` to before the place `end`, among the structures that the ranker
    /// finds; places count from 0. It takes no memory.
    pub fn new(ranker: Ranker<'p>, start: u128, end: u128) -> Cursor<'p>
        requires order { start ≤ end }
        requires there { end ≤ ranker.count }
        ensures { result ≡ record {
          program = ranker.entry.program;
          node = ranker.entry.node;
          size = ranker.entry.size;
          place = start;
          end = end;
        } }
    {
        Cursor::over(Finder::Owned(ranker), start, end)
    }

    /// The same walk with a ranker that is lent, so that several walks share it.
    pub fn lent(ranker: &'p Ranker<'p>, start: u128, end: u128) -> Cursor<'p>
        requires order { start ≤ end }
        requires there { end ≤ ranker.now.count }
        ensures { result ≡ record {
          program = ranker.now.program;
          node = ranker.now.node;
          size = ranker.now.size;
          place = start;
          end = end;
        } }
    {
        Cursor::over(Finder::Lent(ranker), start, end)
    }

    /// The structure at the next place. `None` comes exactly where the end is reached.
    ///
    /// It is looked up by its place, or made of the one before it where that was given back by `step_from`,
    /// which is several times as fast.
    ///
    /// # Errors
    ///
    /// `NoMemory` where memory is refused; then the walk goes on from the same place.
    pub fn next(&mut self, alloc: Global) -> Result<Option<Structure>, NoMemory>
        ensures answers { IfOk result (λ found. Answers self.old found self.new) }
        ensures unchanged { IfErr result (λ _. self.new ≡ self.old) }
    {
        if self.place == self.end {
            return Ok(None);
        }
        let before = self.before.take();
        let structure = structure_here(alloc, self.finder.ranker(), self.place, before)?;
        self.place += 1;
        Ok(Some(structure))
    }

    /// Gives back the structure that the walk has answered last, so that the next one is made of it. The
    /// walk stays where it is.
    pub fn step_from(&mut self, structure: Structure)
        requires { HasPassed self.old (tree_of structure) }
        ensures { self.new ≡ self.old }
    {
        self.before = Some(structure);
    }
}
