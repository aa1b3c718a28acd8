// The engine: all tables of a program, size by size.
ghost use Rattle.std.specs.Prelude.{◌≡◌, ◌<◌, ◌≤◌, ◌+◌, ◌-◌, length, IfOk, IfErr, IsTrue, ◌↔◌, true, false};
ghost use Rattle.luo_num.specs.declared.TheConstants.{MAX};
ghost use Rattle.luo_model.specs.declared.table.Fill.TheVariants.{All};
ghost use Rattle.luo_model.specs.Tables.{IsCount, IsTotal};
ghost use Rattle.luo_model.specs.View.{plain_of};
ghost use Rattle.luo_engine.specs.Entries.{IsFirstOver, NoneOver};

use crate::collecting::collections_of;
use crate::collections::Collection;
use crate::kept::rows_of;
use crate::plan::Plan;
use crate::sizes::{extend_counts, extend_totals};
use crate::table::Table;
use crate::tasks::Sites;
use crate::total_tables::total_tables;
use crate::walks::CollectionWalk;
use luo_founded::Ranks;
use luo_model::{Counts, Entry, Fill, Program};
use luo_num::NoMemory;
use luo_num::limits::SIZE_LIMIT;
use std::alloc::Global;
use std::marker::Model;

/// The first entry that overflows, with its size.
#[derive(Clone, Copy, Debug, PartialEq, Eq)]
pub struct Overflow {
    pub entry: Entry,
    pub n: u32,
}

/// The tables of a program up to a last size, filled size by size. Contracts see the program, what
/// is filled in and up to which size, how many sizes are filled, and whether an overflow came.
#[derive(Drop)]
pub struct Engine<'p> {
    plan: Plan<'p>,
    sites: Sites,
    counts: Table,
    collections: Vec<Option<Collection>>,
    partials: Table,
    totals: Table,
    walks: Vec<Option<CollectionWalk>>,
    points: Table,
    last: u32,
    fill: Fill,
    filled: u32,
    stopped: bool,
}

impl<'p> Model for Engine<'p> {
    ghost use Rattle.luo_engine.specs.Run.{Run};
    ghost use Rattle.luo_engine.specs.inner.Totalling.{IsRun};
    ghost use Rattle.luo_model.specs.contracts.body.Item as done;
    ghost use Rattle.luo_model.specs.contracts.value.Value as made;
    ghost use Rattle.std.specs.Coded.{codes};

    ghost Value = { Run };

    ghost coded = { Prim.hlevel (codes, done.the_row.coded, made.the_row.coded) };

    ghost view = { λ e. record {
      program = e.plan.program;
      last = e.last;
      fill = e.fill;
      filled = e.filled;
      stopped = e.stopped;
    } };

    ghost invariant = { λ e. IsRun e.plan e.sites e.counts e.collections.items e.partials e.totals
        e.walks.items e.points e.last e.fill e.filled e.stopped };
}

// Whether totals are filled in.
fn has_totals(fill: Fill) -> bool
    ensures { IsTrue result ↔ (fill ≡ All) }
{
    match fill {
        Fill::Counts => false,
        Fill::All => true,
    }
}

impl<'p> Engine<'p> {
    /// An engine that has filled no size yet. All memory of the run is taken here.
    ///
    /// # Errors
    ///
    /// `NoMemory` where memory is refused.
    pub fn start(
        alloc: Global,
        program: &'p Program,
        ranks: &Ranks<'_>,
        n_max: u32,
        fill: Fill,
    ) -> Result<Engine<'p>, NoMemory>
        requires same { ranks.now ≡ program.now }
        requires small { n_max ≤ SIZE_LIMIT }
        ensures { IfOk result (λ engine. engine
            ≡ record {
              program = program.now;
              last = n_max;
              fill = fill;
              filled = 0;
              stopped = false;
            }) }
    {
        let plan = Plan::new(alloc, program, ranks, n_max)?;
        let sizes = n_max as usize + 1;
        let counts = Table::zeros(alloc, plan.nodes(), sizes)?;
        let collections = collections_of(alloc, program, n_max)?;
        let partials = Table::zeros(alloc, plan.factors().len(), sizes)?;
        let made = total_tables(alloc, &plan, ranks, collections.as_slice(), sizes, fill)?;
        Ok(Engine {
            plan,
            sites: made.sites,
            counts,
            collections,
            partials,
            totals: made.totals,
            walks: made.walks,
            points: made.points,
            last: n_max,
            fill,
            filled: 0,
            stopped: false,
        })
    }

    /// How many sizes are filled.
    pub fn filled(&self) -> u32
        ensures { result ≡ self.now.filled }
    {
        self.filled
    }

    /// Whether a call answered an overflow.
    pub fn stopped(&self) -> bool
        ensures { result ≡ self.now.stopped }
    {
        self.stopped
    }

    /// The counts of the filled sizes, of which there is one at least.
    ///
    /// # Errors
    ///
    /// `NoMemory` where memory is refused.
    pub fn counts(&self, alloc: Global) -> Result<Counts<'p>, NoMemory>
        requires any { 1 ≤ self.now.filled }
        ensures { IfOk result (λ counts.
            counts ≡ record { program = self.now.program; last = self.now.filled - 1 }) }
    {
        let rows = rows_of(alloc, self, self.plan.nodes())?;
        Ok(Counts::new(self.plan.program, rows))
    }

    // The number of structures of the node of size n, as it stands in the table.
    pub(crate) fn small_count(&self, node: usize, n: u32) -> u128
        requires node { node < length self.now.program.nodes }
        requires size { n < self.now.filled }
        ensures count { IsCount (plain_of self.now.program) node n result }
        ensures small { result ≤ MAX }
    {
        self.counts.entry(node, n as usize)
    }

    /// The number of structures of the node of size n.
    pub fn count(&self, node: usize, n: u32) -> u128
        requires node { node < length self.now.program.nodes }
        requires size { n < self.now.filled }
        ensures { IsCount (plain_of self.now.program) node n result }
    {
        self.counts.entry(node, n as usize)
    }

    /// The sum of the site's charges over the structures of its node of size n.
    pub fn total(&self, site: usize, n: u32) -> u128
        requires site { site < length self.now.program.sites }
        requires size { n < self.now.filled }
        requires all { self.now.fill ≡ All }
        ensures { IsTotal (plain_of self.now.program) site n result }
    {
        self.totals.entry(site, n as usize)
    }

    /// Fills the next size. It takes no memory.
    ///
    /// # Errors
    ///
    /// An overflow names the first entry that overflows; the smaller sizes stay as they are.
    pub fn extend(&mut self) -> Result<(), Overflow>
        requires room { self.old.filled ≤ self.old.last }
        requires going { self.old.stopped ≡ false }
        ensures ok { IfOk result (λ _. self.new ≡ record self.old
            { filled = self.old.filled + 1 }) }
        ensures none_over { IfOk result (λ _.
            NoneOver (plain_of self.old.program) self.old.fill self.old.filled) }
        ensures over { IfErr result (λ overflow. IsFirstOver (plain_of self.old.program)
            self.old.last self.old.fill overflow.entry overflow.n) }
        ensures stopped { IfErr result (λ overflow. (overflow.n ≡ self.old.filled)
            × (self.new ≡ record self.old { stopped = true })) }
    {
        let n = self.filled as usize;
        if let Some(x) = extend_counts(
            &self.plan,
            &mut self.counts,
            &mut self.collections,
            &mut self.partials,
            n,
        ) {
            self.stopped = true;
            return Err(Overflow {
                entry: Entry::Count(x),
                n: self.filled,
            });
        }
        if !has_totals(self.fill) {
            self.filled += 1;
            return Ok(());
        }
        match extend_totals(
            &self.plan,
            &self.sites,
            &self.counts,
            self.collections.as_slice(),
            &self.partials,
            &mut self.totals,
            &mut self.walks,
            &mut self.points,
            n,
        ) {
            Some(i) => {
                self.stopped = true;
                Err(Overflow {
                    entry: Entry::Total(i),
                    n: self.filled,
                })
            }
            None => {
                self.filled += 1;
                Ok(())
            }
        }
    }
}
