// The check of right sides.
#![tactic(auto, using(luo_value_types::proofs::StopLemmas::stop_steps))]

ghost use Rattle.std.specs.Prelude.{◌≡◌, ◌++◌, [], flat_map, IfErr, OnOk};
ghost use Rattle.luo_rules.specs.Breaches.{StopsAt};
ghost use Rattle.luo_rules.specs.Meanings.{meaning, type_use};
ghost use Rattle.luo_rules.specs.TypeBreaches.{kind_breaches, bound_breaches};
ghost use Rattle.luo_types.specs.inner.Held.{breaches_in};

use crate::rules::{check_bound, check_kind, check_weight};
use luo_model::{Kind, Universe};
use luo_rules::{Names, Stop};
use luo_source::{Bound, Name, TypeExpr};
use luo_value_types::use_type;
use std::alloc::Global;

/// What right sides are checked by: the universe, and what names mean.
#[derive(Drop)]
pub(crate) struct Checker<'n> {
    pub alloc: Global,
    pub universe: Universe,
    pub names: &'n Names,
}

impl<'n> Checker<'n> {
    /// Checks a right side, or a part of one.
    #[cycle(expressions)]
    pub fn expr(&self, expr: &TypeExpr) -> Result<(), Stop>
        ensures ok { OnOk result (breaches_in self.now.universe self.now.names.now expr.now
            ≡ []) }
        ensures stops { IfErr result
            (λ s. StopsAt (breaches_in self.now.universe self.now.names.now expr.now) s) }
    {
        match expr {
            TypeExpr::Named(name) => return self.named(name),
            TypeExpr::Epsilon { .. } => return Ok(()),
            TypeExpr::Atom {
                weight,
                weight_at,
                ..
            } => {
                return check_weight(self.alloc, self.universe, *weight, *weight_at);
            }
            TypeExpr::Union { parts } => return self.exprs(parts.as_slice()),
            TypeExpr::Product { parts, .. } => return self.exprs(parts.as_slice()),
            TypeExpr::Coll {
                kind,
                part,
                bound,
                at,
            } => {
                return self.collection(*kind, part.get(), *bound, *at);
            }
        }
    }

    // Checks a name.
    fn named(&self, name: &Name) -> Result<(), Stop>
        ensures ok { OnOk result (type_use (meaning self.now.names.now name.now.text) name.now
            ≡ []) }
        ensures stops { IfErr result
            (λ s. StopsAt (type_use (meaning self.now.names.now name.now.text) name.now) s) }
    {
        use_type(self.alloc, self.names.meaning(name.text.as_slice()), name)?;
        Ok(())
    }

    // Checks a collection.
    #[cycle(expressions)]
    fn collection(
        &self,
        kind: Kind,
        part: &TypeExpr,
        bound: Option<Bound>,
        at: usize,
    ) -> Result<(), Stop>
        ensures ok { OnOk result (kind_breaches self.now.universe kind at
            ++ breaches_in self.now.universe self.now.names.now part.now
            ++ bound_breaches kind bound ≡ []) }
        ensures stops { IfErr result
            (λ s. StopsAt (kind_breaches self.now.universe kind at
            ++ breaches_in self.now.universe self.now.names.now part.now
            ++ bound_breaches kind bound) s) }
    {
        check_kind(self.alloc, self.universe, kind, at)?;
        self.expr(part)?;
        check_bound(self.alloc, kind, bound)?;
        Ok(())
    }

    // Checks parts.
    #[cycle(expressions)]
    fn exprs(&self, exprs: &[TypeExpr]) -> Result<(), Stop>
        ensures ok { OnOk result (flat_map
            (breaches_in self.now.universe self.now.names.now) exprs.now ≡ []) }
        ensures stops { IfErr result
            (λ s. StopsAt (flat_map
            (breaches_in self.now.universe self.now.names.now) exprs.now) s) }
    {
        for expr in exprs {
            self.expr(expr)?;
        }
        Ok(())
    }
}
