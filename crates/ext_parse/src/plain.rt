ghost use Rattle.std.specs.Prelude.{◌≡◌, ◌<◌, ◌++◌, ◌∷◌, [], ℕ, List, IsTrue, OnOk, Some};
ghost use Rattle.ext_mean.specs.declared.statement.Kind.{Kind};
ghost use Rattle.ext_mean.specs.declared.statement.Statement.{Statement};
ghost use Rattle.ext_mean.specs.declared.statement.Statement.TheVariants as does;
ghost use Rattle.ext_mean.specs.declared.token.Mark.TheVariants as mark;
ghost use Rattle.ext_mean.specs.declared.token.Token.TheVariants as token;
ghost use Rattle.ext_mean.specs.declared.token.Word.TheVariants as word;
ghost use Rattle.ext_mean.specs.Grammar.{Writing, set, set8, copy};
ghost use Rattle.ext_grammar.specs.Coming.{AroundBlock, AroundStatement, in_block, value, first_argument, semicolon, statements, last_brace, written_name, assigned, expression, fixed};
ghost use Rattle.ext_parse.specs.Parts.{written_by, is_write};
ghost use Rattle.ext_mean.specs.Derived.{write_tree};
ghost use Rattle.ext_parse.specs.Readers.{stand, left, next, remaining, Reads};

use crate::fault::ParseFault;
use crate::reader::Reader;
use ext_mean::{Expr, Kind, Mark, Name, Statement, Word};
use sp_base::Memory;
use sqlite_items::Items;

impl Reader<'_> {
    /// `name "=" expr ";"`, whose name comes next.
    #[tactic(auto, unfolding(crate::specs::Readers::answer_for), using(crate::proofs::Statements::statement_begins, crate::proofs::Statements::statement_parts, crate::proofs::Steps::counting_down))]
    pub fn assign(&mut self, name: Name) -> Result<Statement, ParseFault>
        requires { next (stand self.old) ≡ Some (token.Name name) }
        ensures reads { (known : List Statement) (around : AroundBlock) →
            Reads result (λ found. left (statements (known ++ found ∷ []) around) (stand self.new)) (left (statements known around) (stand self.old)) }
        ensures shorter { OnOk result (remaining (stand self.new) < remaining (stand self.old)) }
    {
        self.begin_assign(&name)?;
        self.expect(Mark::Assign)?;
        let value = self.expression()?;
        self.end_item()?;
        Ok(Statement::Assign { name, value })
    }

    #[tactic(auto, using(crate::proofs::Statements::statement_begins, crate::proofs::Steps::counting_down))]
    fn begin_assign(&mut self, name: &Name) -> Result<(), Memory>
        requires { next (stand self.old) ≡ Some (token.Name name.now) }
        ensures reads { OnOk result ((known : List Statement) (around : AroundBlock) → left (statements known around) (stand self.old)
            ≡ left (fixed mark.Assign (expression (assigned name.now (in_block known around)))) (stand self.new)) }
        ensures shorter { OnOk result (remaining (stand self.new) < remaining (stand self.old)) }
    {
        self.begin()?;
        Ok(())
    }

    /// `"return" expr ";"`, the last statement of its block.
    #[tactic(auto, unfolding(crate::specs::Readers::answer_for), using(crate::proofs::Statements::statement_begins, crate::proofs::Statements::statement_parts, crate::proofs::Steps::counting_down))]
    pub fn returned(&mut self) -> Result<Statement, ParseFault>
        requires { next (stand self.old) ≡ Some (token.Word word.Return) }
        ensures reads { (known : List Statement) (around : AroundBlock) →
            Reads result (λ found. left (last_brace (known ++ found ∷ []) around) (stand self.new)) (left (statements known around) (stand self.old)) }
        ensures shorter { OnOk result (remaining (stand self.new) < remaining (stand self.old)) }
    {
        self.begin()?;
        let value = self.expression()?;
        self.end_item()?;
        Ok(Statement::Return { value })
    }

    /// `"let" name ":" type "=" ( expr | call ) ";"`
    #[tactic(auto, unfolding(crate::specs::Readers::answer_for), using(crate::proofs::Statements::statement_begins, crate::proofs::Statements::statement_parts, crate::proofs::Steps::counting_down))]
    pub fn declaration(&mut self) -> Result<Statement, ParseFault>
        requires { next (stand self.old) ≡ Some (token.Word word.Let) }
        ensures reads { (known : List Statement) (around : AroundBlock) →
            Reads result (λ found. left (statements (known ++ found ∷ []) around) (stand self.new)) (left (statements known around) (stand self.old)) }
        ensures shorter { OnOk result (remaining (stand self.new) < remaining (stand self.old)) }
    {
        self.begin()?;
        let name = self.local()?;
        self.expect(Mark::Colon)?;
        let kind = self.kind()?;
        self.expect(Mark::Assign)?;
        self.value(name, kind)
    }

    /// The value of a variable, or the call that gives it, with the `;` behind it.
    #[tactic(auto, unfolding(crate::specs::Readers::answer_for), using(crate::proofs::Statements::statement_parts))]
    fn value(&mut self, name: Name, kind: Kind) -> Result<Statement, ParseFault>
        ensures reads { (known : List Statement) (around : AroundBlock) →
            Reads result (λ found. left (statements (known ++ found ∷ []) around) (stand self.new))
            (left (value name kind (in_block known around)) (stand self.old)) }
        ensures shorter { OnOk result (remaining (stand self.new) < remaining (stand self.old)) }
    {
        if let Some(function) = self.called()? {
            let args = self.arguments()?;
            self.end_item()?;
            return Ok(Statement::LetCall {
                name,
                kind,
                function,
                args,
            });
        }
        let value = self.expression()?;
        self.end_item()?;
        Ok(Statement::Let { name, kind, value })
    }

    /// The arguments of a call behind its `(`, with the `)`.
    #[tactic(auto, unfolding(crate::specs::Readers::answer_for), using(crate::proofs::Parts::arguments_met, crate::proofs::Steps::counting_down))]
    fn arguments(&mut self) -> Result<Items<Expr>, ParseFault>
        ensures reads { (name : List ℕ) (kind : Kind) (called : List ℕ) (around : AroundStatement) →
            Reads result (λ values. left (semicolon (does.LetCall name kind called values) around) (stand self.new))
            (left (first_argument name kind called around) (stand self.old)) }
        ensures shorter { OnOk result (remaining (stand self.new) < remaining (stand self.old)) }
    {
        let mut found = Items::new(self.alloc);
        if self.eat(Mark::Close) {
            return Ok(found);
        }
        'values: loop {
            found.push(self.expression()?)?;
            if self.eat(Mark::Close) {
                return Ok(found);
            }
            self.expect(Mark::Comma)?;
        }
    }

    /// A change of a buffer behind its word.
    #[tactic(auto, unfolding(crate::specs::Readers::answer_for), using(crate::proofs::Statements::statement_parts))]
    fn written(&mut self, word: Word) -> Result<Statement, ParseFault>
        ensures reads { (known : List Statement) (around : AroundBlock) →
            Reads result (λ found. left (statements (known ++ found ∷ []) around) (stand self.new))
            (left (fixed mark.Open (written_name (written_by word) (in_block known around))) (stand self.old)) }
        ensures shorter { OnOk result (remaining (stand self.new) < remaining (stand self.old)) }
    {
        self.expect(Mark::Open)?;
        let name = self.name()?;
        self.expect(Mark::Comma)?;
        let place = self.expression()?;
        self.expect(Mark::Comma)?;
        let value = self.expression()?;
        self.expect(Mark::Close)?;
        self.end_item()?;
        Ok(write_of(word, name, place, value))
    }

    /// `( "set" | "set8" | "copy" ) "(" name "," expr "," expr ")" ";"`
    #[tactic(auto, unfolding(crate::specs::Readers::answer_for), using(crate::proofs::Parts::write_begins, crate::proofs::Steps::counting_down))]
    pub fn write(&mut self, word: Word) -> Result<Statement, ParseFault>
        requires next { next (stand self.old) ≡ Some (token.Word word) }
        requires writes { IsTrue (is_write word) }
        ensures reads { (known : List Statement) (around : AroundBlock) →
            Reads result (λ found. left (statements (known ++ found ∷ []) around) (stand self.new)) (left (statements known around) (stand self.old)) }
        ensures shorter { OnOk result (remaining (stand self.new) < remaining (stand self.old)) }
    {
        self.begin_write(word)?;
        self.written(word)
    }

    #[tactic(auto, using(crate::proofs::Parts::write_begins, crate::proofs::Steps::counting_down))]
    fn begin_write(&mut self, word: Word) -> Result<(), Memory>
        requires next { next (stand self.old) ≡ Some (token.Word word) }
        requires writes { IsTrue (is_write word) }
        ensures reads { OnOk result ((known : List Statement) (around : AroundBlock) → left (statements known around) (stand self.old)
            ≡ left (fixed mark.Open (written_name (written_by word) (in_block known around))) (stand self.new)) }
        ensures shorter { OnOk result (remaining (stand self.new) < remaining (stand self.old)) }
    {
        self.begin()?;
        Ok(())
    }

    /// `"put" "(" name ")" ";"`
    #[tactic(auto, unfolding(crate::specs::Readers::answer_for), using(crate::proofs::Statements::statement_begins, crate::proofs::Steps::counting_down))]
    pub fn put(&mut self) -> Result<Statement, ParseFault>
        requires { next (stand self.old) ≡ Some (token.Word word.Put) }
        ensures reads { (known : List Statement) (around : AroundBlock) →
            Reads result (λ found. left (statements (known ++ found ∷ []) around) (stand self.new)) (left (statements known around) (stand self.old)) }
        ensures shorter { OnOk result (remaining (stand self.new) < remaining (stand self.old)) }
    {
        self.begin()?;
        self.expect(Mark::Open)?;
        let name = self.name()?;
        self.expect(Mark::Close)?;
        self.end_item()?;
        Ok(Statement::Put { name })
    }

    /// `"del" "(" expr "," expr ")" ";"`
    #[tactic(auto, unfolding(crate::specs::Readers::answer_for), using(crate::proofs::Statements::statement_begins, crate::proofs::Statements::statement_parts, crate::proofs::Steps::counting_down))]
    pub fn del(&mut self) -> Result<Statement, ParseFault>
        requires { next (stand self.old) ≡ Some (token.Word word.Del) }
        ensures reads { (known : List Statement) (around : AroundBlock) →
            Reads result (λ found. left (statements (known ++ found ∷ []) around) (stand self.new)) (left (statements known around) (stand self.old)) }
        ensures shorter { OnOk result (remaining (stand self.new) < remaining (stand self.old)) }
    {
        self.begin()?;
        self.expect(Mark::Open)?;
        let table = self.expression()?;
        self.expect(Mark::Comma)?;
        let key = self.expression()?;
        self.expect(Mark::Close)?;
        self.end_item()?;
        Ok(Statement::Del { table, key })
    }

    /// `"resp" "(" expr ")" ";"`
    #[tactic(auto, unfolding(crate::specs::Readers::answer_for), using(crate::proofs::Statements::statement_begins, crate::proofs::Statements::statement_parts, crate::proofs::Steps::counting_down))]
    pub fn resp(&mut self) -> Result<Statement, ParseFault>
        requires { next (stand self.old) ≡ Some (token.Word word.Resp) }
        ensures reads { (known : List Statement) (around : AroundBlock) →
            Reads result (λ found. left (statements (known ++ found ∷ []) around) (stand self.new)) (left (statements known around) (stand self.old)) }
        ensures shorter { OnOk result (remaining (stand self.new) < remaining (stand self.old)) }
    {
        self.begin()?;
        self.expect(Mark::Open)?;
        let value = self.expression()?;
        self.expect(Mark::Close)?;
        self.end_item()?;
        Ok(Statement::Resp { value })
    }
}

/// The change of a buffer that begins with this word.
fn write_of(word: Word, name: Name, place: Expr, value: Expr) -> Statement
    ensures { result ≡ write_tree (written_by word) name place value }
{
    match word {
        Word::Set => Statement::Set { name, place, value },
        Word::Set8 => Statement::Set8 { name, place, value },
        _ => Statement::Copy {
            name,
            place,
            source: value,
        },
    }
}
