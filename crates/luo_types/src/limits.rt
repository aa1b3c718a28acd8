// The limits that a source passes.
ghost use Rattle.std.specs.Prelude.{◌≡◌, ◌*◌, ◌<◌, length, sum_by, IfSome, IfNone};
ghost use Rattle.luo_num.specs.Mark.{capped};
ghost use Rattle.luo_rules.specs.Counted.{greatest_by};
ghost use Rattle.luo_source.specs.View.{plain_source};
ghost use Rattle.luo_rules.specs.Checks.{PassesFirst, IsWithinLimits};
ghost use Rattle.luo_types.specs.inner.Held.{nodes_in, multisets_in, parts_in, bound_in};

use crate::counts::{TypeCounts, count_expr};
use crate::statement_counts::count_procs;
use luo_num::limits::{
    ANALYSIS_LIMIT, BOUND_LIMIT, DEFINITION_LIMIT, MULTISET_LIMIT, NODE_LIMIT, PART_LIMIT,
    PROCEDURE_LIMIT, STATEMENT_LIMIT,
};
use luo_num::{marked_add, marked_mul};
use luo_rules::CountLimit;
use luo_source::{Source, TypeDef};

// Counts in a definition, with a copy of the right side for each name.
fn count_type(def: &TypeDef) -> TypeCounts
    ensures nodes { result.nodes ≡ capped (length def.now.names * nodes_in def.now.body) }
    ensures multisets { result.multisets
        ≡ capped (length def.now.names * multisets_in def.now.body) }
    ensures parts { result.parts ≡ parts_in def.now.body }
    ensures bound { result.bound ≡ bound_in def.now.body }
{
    let names = def.names.len() as u128;
    let right = count_expr(&def.body);
    TypeCounts {
        nodes: marked_mul(names, right.nodes),
        multisets: marked_mul(names, right.multisets),
        ..right
    }
}

// Counts in definitions.
fn count_types(types: &[TypeDef]) -> TypeCounts
    ensures nodes { result.nodes
        ≡ capped (sum_by (λ d. length d.names * nodes_in d.body) types.now) }
    ensures multisets { result.multisets
        ≡ capped (sum_by (λ d. length d.names * multisets_in d.body) types.now) }
    ensures parts { result.parts ≡ greatest_by (λ d. parts_in d.body) types.now }
    ensures bound { result.bound ≡ greatest_by (λ d. bound_in d.body) types.now }
{
    let mut all = TypeCounts::NOTHING;
    for def in types {
        all = all.beside(count_type(def));
    }
    all
}

// The marked number of names that are defined.
fn count_names(types: &[TypeDef]) -> u128
    ensures { result ≡ capped (sum_by (λ d. length d.names) types.now) }
{
    let mut total = 0;
    for def in types {
        total = marked_add(total, def.names.len() as u128);
    }
    total
}

/// The first limit that a source passes, in the order of `CountLimit`, if any. Walks are not counted here.
pub(crate) fn passed_limit(source: &Source) -> Option<CountLimit>
    ensures some { IfSome result (λ which. PassesFirst (plain_source source.now) which) }
    ensures none { IfNone result (IsWithinLimits (plain_source source.now)) }
{
    let types = source.types.as_slice();
    if count_names(types) > DEFINITION_LIMIT {
        return Some(CountLimit::Definitions);
    }
    let counts = count_types(types);
    if counts.nodes > NODE_LIMIT {
        return Some(CountLimit::Nodes);
    }
    if counts.parts > PART_LIMIT {
        return Some(CountLimit::Parts);
    }
    if counts.bound > BOUND_LIMIT {
        return Some(CountLimit::Bounds);
    }
    if counts.multisets > MULTISET_LIMIT {
        return Some(CountLimit::Multisets);
    }
    if source.procs.len() > PROCEDURE_LIMIT {
        return Some(CountLimit::Procedures);
    }
    if count_procs(source.procs.as_slice()) > STATEMENT_LIMIT {
        return Some(CountLimit::Statements);
    }
    if source.analyses.len() > ANALYSIS_LIMIT {
        return Some(CountLimit::Analyses);
    }
    None
}
