ghost use Rattle.std.specs.Prelude.{◌≡◌, ◌<◌, ◌≤◌, ◌↔◌, ◌++◌, ◌∷◌, [], ℕ, List, IsTrue, IfOk, OnOk, Some};
ghost use Rattle.ext_mean.specs.declared.expr.Expr.{Expr};
ghost use Rattle.ext_mean.specs.declared.statement.Block.{Block};
ghost use Rattle.ext_mean.specs.declared.statement.Kind.{Kind};
ghost use Rattle.ext_mean.specs.declared.statement.Statement.{Statement};
ghost use Rattle.ext_mean.specs.declared.statement.Statement.TheVariants as does;
ghost use Rattle.ext_mean.specs.declared.token.Mark.TheVariants as mark;
ghost use Rattle.ext_mean.specs.declared.token.Token.TheVariants as token;
ghost use Rattle.ext_mean.specs.Derived.{block_of};
ghost use Rattle.ext_grammar.specs.Coming.{AroundStatement, AroundBlock, Looking, in_block, none_block, else_block, fixed, value, some_word, some_name, none_word, arms_end, done, braces, statements, maybe_else};
ghost use Rattle.ext_parse.specs.Parts.{behind_called};
ghost use Rattle.ext_parse.specs.Readers.{stand, left, next, advanced, remaining, Reads};

use crate::fault::ParseFault;
use crate::reader::{Reader, is_mark};
use ext_mean::{Mark, Name, Word};
use sp_base::Memory;

impl Reader<'_> {
    /// The `some` of an arm.
    #[tactic(auto, using(crate::proofs::Parts::arms_met, crate::proofs::Steps::counting_down))]
    pub fn some_word(&mut self) -> Result<(), ParseFault>
        ensures reads { (looking : Looking) (around : AroundStatement) →
            Reads result (λ _. left (some_name looking around) (stand self.new)) (left (some_word looking around) (stand self.old)) }
        ensures shorter { OnOk result (remaining (stand self.new) < remaining (stand self.old)) }
    {
        if !self.sees(Word::Some) {
            return Err(self.refuse());
        }
        self.advance();
        Ok(())
    }

    /// The `none` of an arm, where the read has so many operators.
    #[tactic(auto, using(crate::proofs::Parts::arms_met, crate::proofs::Parts::counting_back))]
    pub fn none_word(&mut self, operators: u32) -> Result<(), ParseFault>
        ensures reads { (looking : Looking) (name : List ℕ) (block : Block) (around : AroundStatement) →
            Reads result (λ _. left (fixed mark.Arm (braces (none_block looking name block operators around))) (stand self.new))
            (left (none_word operators looking name block around) (stand self.old)) }
        ensures shorter { OnOk result (remaining (stand self.new) < remaining (stand self.old)) }
    {
        self.go_on(operators);
        if !self.sees(Word::None) {
            return Err(self.refuse());
        }
        self.advance();
        Ok(())
    }

    /// The `}` behind the arms of a read that has so many operators.
    #[tactic(auto, using(crate::proofs::Parts::arms_met, crate::proofs::Parts::counting_back))]
    pub fn end_arms(&mut self, operators: u32) -> Result<(), ParseFault>
        ensures reads { (statement : Statement) (around : AroundStatement) →
            Reads result (λ _. left (done statement around) (stand self.new)) (left (arms_end operators statement around) (stand self.old)) }
        ensures shorter { OnOk result (remaining (stand self.new) < remaining (stand self.old)) }
    {
        self.go_on(operators);
        if !self.eat(Mark::CloseBlock) {
            return Err(self.refuse());
        }
        self.go_on(0);
        Ok(())
    }

    /// Whether an `else` comes next, of an `if` whose test has so many operators; if so, goes behind it.
    #[tactic(auto, using(crate::proofs::Parts::else_met, crate::proofs::Steps::counting_down))]
    pub fn take_else(&mut self, operators: u32) -> bool
        ensures found { IsTrue result → (test : Expr) (block : Block) (around : AroundStatement) →
            left (maybe_else test block operators around) (stand self.old) ≡ left (braces (else_block test block around)) (stand self.new) }
        ensures none { (IsTrue result → ⊥) → (test : Expr) (block : Block) (known : List Statement) (around : AroundBlock) →
            left (maybe_else test block operators (in_block known around)) (stand self.old)
            ≡ left (statements (known ++ does.If test block (block_of []) ∷ []) around) (stand self.new) }
        ensures shorter { remaining (stand self.new) ≤ remaining (stand self.old) }
    {
        let found = self.sees(Word::Else);
        if found {
            self.advance();
            self.go_on(operators);
        }
        found
    }

    /// Whether a `(` stands behind the next token.
    #[tactic(auto, unfolding(crate::specs::Readers::stand, crate::specs::Readers::next, crate::specs::Readers::advanced), using(crate::proofs::Places::seconds))]
    fn sees_open_behind(&self) -> bool
        ensures { IsTrue result ↔ next (advanced (stand self.now)) ≡ Some (token.Mark mark.Open) }
    {
        match self.rest {
            [_, second, ..] => is_mark(&second.token, Mark::Open),
            _ => false,
        }
    }

    /// The name of a called function with the `(` of its arguments, if both come next; goes behind them.
    #[tactic(auto, using(crate::proofs::Parts::values_met, crate::proofs::Steps::counting_down))]
    pub fn called(&mut self) -> Result<Option<Name>, Memory>
        ensures reads { IfOk result (λ called. (name : List ℕ) (kind : Kind) (around : AroundStatement) →
            left (value name kind around) (stand self.old) ≡ left (behind_called name kind around called) (stand self.new)) }
        ensures shorter { OnOk result (remaining (stand self.new) ≤ remaining (stand self.old)) }
    {
        let name = match self.next_name() {
            Some(name) => name,
            None => return Ok(None),
        };
        if !self.sees_open_behind() {
            return Ok(None);
        }
        let name = name.share(self.alloc)?;
        self.advance();
        self.advance();
        Ok(Some(name))
    }
}
