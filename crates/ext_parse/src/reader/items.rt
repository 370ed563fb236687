ghost use Rattle.std.specs.Prelude.{◌≡◌, ◌<◌, ◌↔◌, ◌++◌, ◌∷◌, [], ℕ, List, IsTrue, IfOk, OnOk, Some};
ghost use Rattle.ext_mean.specs.declared.expr.Expr.{Expr};
ghost use Rattle.ext_mean.specs.declared.statement.Statement.{Statement};
ghost use Rattle.ext_mean.specs.declared.statement.Statement.TheVariants as does;
ghost use Rattle.ext_mean.specs.declared.token.Mark.TheVariants as mark;
ghost use Rattle.ext_mean.specs.declared.token.Token.TheVariants as token;
ghost use Rattle.ext_mean.specs.declared.token.Word.TheVariants as word;
ghost use Rattle.ext_mean.specs.Derived.{block_of};
ghost use Rattle.ext_grammar.specs.Coming.{AroundStatement, AroundBlock, behind, returned, semicolon, done, braces, statements, last_brace, closed};
ghost use Rattle.ext_parse.specs.Readers.{stand, left, next, advanced, begun, remaining, Reads};

use crate::fault::ParseFault;
use crate::reader::Reader;
use ext_mean::{Mark, Token, Word};
use sp_base::Memory;

impl Reader<'_> {
    /// The operators so far of the open item.
    #[tactic(auto, unfolding(crate::specs::Readers::stand))]
    pub fn operators(&self) -> u32
        ensures { result ≡ (stand self.now).counted.operators }
    {
        self.operators
    }

    /// Begins an item at the next token, without going on.
    #[tactic(auto, unfolding(crate::specs::Readers::stand, crate::specs::Readers::begun), using(crate::proofs::Places::first_lines))]
    fn begin_item(&mut self) -> Result<(), Memory>
        ensures { OnOk result (stand self.new ≡ begun (stand self.old)) }
    {
        if let [first, ..] = self.rest {
            self.lines.push(first.line)?;
        }
        self.operators = 0;
        Ok(())
    }

    /// Begins an item with the next token, and goes behind it.
    pub fn begin(&mut self) -> Result<(), Memory>
        ensures { OnOk result (stand self.new ≡ advanced (begun (stand self.old))) }
    {
        self.begin_item()?;
        self.advance();
        Ok(())
    }

    /// The `;` that ends an item.
    #[tactic(auto, using(crate::proofs::Statements::marks_around, crate::proofs::Steps::counting_down))]
    pub fn end_item(&mut self) -> Result<(), ParseFault>
        ensures statement { (statement : Statement) (around : AroundStatement) →
            Reads result (λ _. left (done statement around) (stand self.new)) (left (semicolon statement around) (stand self.old)) }
        ensures last { (found : Expr) (known : List Statement) (around : AroundBlock) →
            Reads result (λ _. left (last_brace (known ++ does.Return found ∷ []) around) (stand self.new))
            (left (behind found (returned known around)) (stand self.old)) }
        ensures shorter { OnOk result (remaining (stand self.new) < remaining (stand self.old)) }
    {
        if !self.eat(Mark::Semicolon) {
            return Err(self.refuse());
        }
        self.go_on(0);
        Ok(())
    }

    /// The `{` of a block.
    #[tactic(auto, using(crate::proofs::Statements::marks_around, crate::proofs::Steps::counting_down))]
    pub fn open_block(&mut self) -> Result<(), ParseFault>
        ensures reads { (around : AroundBlock) →
            Reads result (λ _. left (statements [] around) (stand self.new)) (left (braces around) (stand self.old)) }
        ensures shorter { OnOk result (remaining (stand self.new) < remaining (stand self.old)) }
    {
        if !self.eat(Mark::OpenBlock) {
            return Err(self.refuse());
        }
        self.go_on(0);
        Ok(())
    }

    /// Whether the `}` of a block comes next; if so, goes behind it.
    #[tactic(auto, using(crate::proofs::Statements::marks_around, crate::proofs::Steps::counting_down))]
    pub fn close_block(&mut self) -> bool
        ensures closed { IsTrue result → (known : List Statement) (around : AroundBlock) →
            left (statements known around) (stand self.old) ≡ left (closed (block_of known) around) (stand self.new) }
        ensures shorter { IsTrue result → remaining (stand self.new) < remaining (stand self.old) }
        ensures kept { (IsTrue result → ⊥) → stand self.new ≡ stand self.old }
        ensures other { (IsTrue result → ⊥) → next (stand self.old) ≡ Some (token.Mark mark.CloseBlock) → ⊥ }
    {
        let found = self.eat(Mark::CloseBlock);
        if found {
            self.go_on(0);
        }
        found
    }

    /// The `}` behind the last item of a block.
    #[tactic(auto, using(crate::proofs::Statements::marks_around, crate::proofs::Steps::counting_down))]
    pub fn last_brace(&mut self) -> Result<(), ParseFault>
        ensures reads { (known : List Statement) (around : AroundBlock) →
            Reads result (λ _. left (closed (block_of known) around) (stand self.new)) (left (last_brace known around) (stand self.old)) }
        ensures shorter { OnOk result (remaining (stand self.new) < remaining (stand self.old)) }
    {
        if !self.eat(Mark::CloseBlock) {
            return Err(self.refuse());
        }
        self.go_on(0);
        Ok(())
    }

    /// Whether this word comes next.
    pub fn sees(&self, word: Word) -> bool
        ensures { IsTrue result ↔ next (stand self.now) ≡ Some (token.Word word) }
    {
        match self.peek() {
            Some(token) => is_word(token, word),
            None => false,
        }
    }
}

/// Whether the token is the word.
fn is_word(token: &Token, word: Word) -> bool
    ensures { IsTrue result ↔ token.now ≡ Token.Word word }
{
    match token {
        Token::Word(found) => *found == word,
        _ => false,
    }
}
