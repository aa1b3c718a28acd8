// Statements and blocks.
#![tactic(auto, using(crate::proofs::StatementsSteps::statements_steps))]

ghost use Rattle.std.specs.Prelude.{◌<◌, length, IfOk, IfErr, OnOk};
ghost use Rattle.luo_scan.specs.declared.token.Word.TheVariants.{KwCase, KwForall};
ghost use Rattle.luo_syntax.specs.inner.Next.{OnStop};
ghost use Rattle.luo_source.specs.GrammarStatements.{IsBlock, AreStmts, IsStmt, IsSimple, AreArms, IsArm};
ghost use Rattle.luo_syntax.specs.inner.StopsStatements.{EndsStmt, IsInside, IsBehind, IsArg, IsOver, ArgStops, OverStops, InsideStops, StmtsStop, StmtStops, CaseStops, ForallStops, SimpleStops, ArmsStop, ArmStops, BlockStops};

use crate::cursor::Cursor;
use crate::fault::Fault;
use luo_num::{Boxed, Items};
use luo_scan::{Mark, Word};
use luo_source::{Name, SourceArm, Stmt};
use std::alloc::Global;

impl<'t> Cursor<'t> {
    /// Reads a block.
    pub fn block(&mut self, alloc: Global) -> Result<Items<Stmt>, Fault>
        ensures reads { IfOk result (λ ss. IsBlock self.old self.new ss) }
        ensures stops { IfErr result (λ f. OnStop f (BlockStops self.old self.new)) }
        ensures shorter { OnOk result (length self.new < length self.old) }
    {
        self.expect_word(Word::KwBegin)?;
        let stmts = self.inside(alloc)?;
        Ok(stmts)
    }

    /// Reads a block whose first word has been read.
    #[cycle(blocks)]
    fn inside(&mut self, alloc: Global) -> Result<Items<Stmt>, Fault>
        ensures reads { IfOk result (λ ss. IsInside self.old self.new ss) }
        ensures stops { IfErr result (λ f. OnStop f (InsideStops self.old self.new)) }
    {
        if self.take_word(Word::KwEnd) {
            return Ok(Items::new(alloc));
        }
        let stmts = self.stmts(alloc)?;
        Ok(stmts)
    }

    /// Reads statements with semicolons between them, and the end after them.
    #[cycle(blocks)]
    fn stmts(&mut self, alloc: Global) -> Result<Items<Stmt>, Fault>
        ensures reads { IfOk result (λ ss. AreStmts self.old self.new ss) }
        ensures stops { IfErr result (λ f. OnStop f (StmtsStop self.old self.new)) }
    {
        let mut stmts = Items::new(alloc);
        'stmts: loop {
            let stmt = self.stmt(alloc)?;
            stmts.push(stmt)?;
            if self.take_word(Word::KwEnd) {
                return Ok(stmts);
            }
            self.expect_mark(Mark::Semicolon)?;
        }
    }

    /// Reads a statement.
    #[cycle(blocks)]
    fn stmt(&mut self, alloc: Global) -> Result<Stmt, Fault>
        ensures reads { IfOk result (λ s. IsStmt self.old self.new s) }
        ensures ends { IfOk result (λ s. EndsStmt s self.new) }
        ensures stops { IfErr result (λ f. OnStop f (StmtStops self.old self.new)) }
        ensures shorter { OnOk result (length self.new < length self.old) }
    {
        if self.take_word(Word::KwCase) {
            let read = self.case_behind(alloc)?;
            return Ok(read);
        }
        if self.take_word(Word::KwForall) {
            let read = self.forall_behind(alloc)?;
            return Ok(read);
        }
        let read = self.simple(alloc)?;
        Ok(read)
    }

    /// Reads a case whose first word has been read.
    #[cycle(blocks)]
    fn case_behind(&mut self, alloc: Global) -> Result<Stmt, Fault>
        ensures reads { IfOk result (λ s. IsBehind KwCase self.old self.new s) }
        ensures ends { IfOk result (λ s. EndsStmt s self.new) }
        ensures stops { IfErr result (λ f. OnStop f (CaseStops self.old self.new)) }
    {
        let var = self.name(alloc)?;
        self.expect_word(Word::KwOf)?;
        let arms = self.arms(alloc)?;
        Ok(Stmt::Case { var, arms })
    }

    /// Reads arms with semicolons between them, and the end after them.
    #[cycle(blocks)]
    fn arms(&mut self, alloc: Global) -> Result<Items<SourceArm>, Fault>
        ensures reads { IfOk result (λ xs. AreArms self.old self.new xs) }
        ensures stops { IfErr result (λ f. OnStop f (ArmsStop self.old self.new)) }
    {
        let mut arms = Items::new(alloc);
        'arms: loop {
            let arm = self.arm(alloc)?;
            arms.push(arm)?;
            if self.take_word(Word::KwEnd) {
                return Ok(arms);
            }
            self.expect_mark(Mark::Semicolon)?;
        }
    }

    /// Reads an arm.
    #[cycle(blocks)]
    fn arm(&mut self, alloc: Global) -> Result<SourceArm, Fault>
        ensures reads { IfOk result (λ x. IsArm self.old self.new x) }
        ensures ends { IfOk result (λ x. EndsStmt x.body self.new) }
        ensures stops { IfErr result (λ f. OnStop f (ArmStops self.old self.new)) }
        ensures shorter { OnOk result (length self.new < length self.old) }
    {
        let pattern = self.pattern(alloc)?;
        self.expect_mark(Mark::Colon)?;
        let body = self.simple(alloc)?;
        Ok(SourceArm { pattern, body })
    }

    /// Reads a loop whose first word has been read.
    #[cycle(blocks)]
    fn forall_behind(&mut self, alloc: Global) -> Result<Stmt, Fault>
        ensures reads { IfOk result (λ s. IsBehind KwForall self.old self.new s) }
        ensures ends { IfOk result (λ s. EndsStmt s self.new) }
        ensures stops { IfErr result (λ f. OnStop f (ForallStops self.old self.new)) }
    {
        let (var, source) = self.var_in(alloc)?;
        self.expect_word(Word::KwDo)?;
        let read = self.simple(alloc)?;
        let body = Boxed::new(alloc, read)?;
        Ok(Stmt::Forall { var, source, body })
    }

    /// Reads a variable and the collection that it runs over.
    fn var_in(&mut self, alloc: Global) -> Result<(Name, Name), Fault>
        ensures reads { IfOk result (λ r. IsOver self.old self.new r.0 r.1) }
        ensures stops { IfErr result (λ f. OnStop f (OverStops self.old self.new)) }
    {
        let var = self.name(alloc)?;
        self.expect_word(Word::KwIn)?;
        let source = self.name(alloc)?;
        Ok((var, source))
    }

    /// Reads a statement that is neither a case nor a loop.
    #[cycle(blocks)]
    fn simple(&mut self, alloc: Global) -> Result<Stmt, Fault>
        ensures reads { IfOk result (λ s. IsSimple self.old self.new s) }
        ensures ends { IfOk result (λ s. EndsStmt s self.new) }
        ensures stops { IfErr result (λ f. OnStop f (SimpleStops self.old self.new)) }
        ensures shorter { OnOk result (length self.new < length self.old) }
    {
        if self.take_word(Word::KwSkip) {
            return Ok(Stmt::Skip);
        }
        if self.take_word(Word::KwBegin) {
            let stmts = self.inside(alloc)?;
            return Ok(Stmt::Block(stmts));
        }
        let name = self.name(alloc)?;
        if !self.take_mark(Mark::LeftRound) {
            return Ok(Stmt::Charge(name));
        }
        let arg = self.call_arg(alloc)?;
        Ok(Stmt::Call { callee: name, arg })
    }

    /// Reads what a procedure is called on, and the mark after it.
    fn call_arg(&mut self, alloc: Global) -> Result<Name, Fault>
        ensures reads { IfOk result (λ n. IsArg self.old self.new n) }
        ensures stops { IfErr result (λ f. OnStop f (ArgStops self.old self.new)) }
    {
        let arg = self.name(alloc)?;
        self.expect_mark(Mark::RightRound)?;
        Ok(arg)
    }
}
