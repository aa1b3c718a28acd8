// A program as its text says it.
use crate::names::Name;
use crate::statements::Stmt;
use crate::types::{MeasureDef, TypeDef};
use crate::values::SourceValue;
use luo_model::Universe;
use luo_num::Items;

/// What a procedure does.
#[derive(Debug, Drop)]
pub enum ProcBody {
    /// It runs statements.
    Statements(Items<Stmt>),
    /// It makes a value of the type `result`. `colon` is the mark before that type.
    Value {
        colon: usize,
        result: Name,
        value: SourceValue,
    },
}

/// A procedure of one parameter, of the type `on`.
#[derive(Debug, Drop)]
pub struct ProcDef {
    pub name: Name,
    pub param: Name,
    pub on: Name,
    pub body: ProcBody,
}

/// A program.
#[derive(Debug, Drop)]
pub struct Source {
    pub universe: Universe,
    pub types: Items<TypeDef>,
    pub measures: Items<MeasureDef>,
    pub procs: Items<ProcDef>,
    pub analyses: Items<Name>,
}
