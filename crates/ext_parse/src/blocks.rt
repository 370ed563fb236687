ghost use Rattle.std.specs.Prelude.{◌≡◌, ◌<◌, ◌++◌, ◌∷◌, [], List, OnOk, Some};
ghost use Rattle.ext_mean.specs.declared.statement.Statement.{Statement};
ghost use Rattle.ext_mean.specs.declared.token.Mark.TheVariants as mark;
ghost use Rattle.ext_mean.specs.declared.token.Token.TheVariants as token;
ghost use Rattle.ext_mean.specs.declared.token.Word.TheVariants as word_of;
ghost use Rattle.ext_grammar.specs.Coming.{AroundBlock, Looking, in_block, looking_statement, some_word, fixed, braces, statements, closed};
ghost use Rattle.ext_parse.specs.Looks.{looking_of};
ghost use Rattle.ext_parse.specs.Readers.{stand, left, next, remaining, Reads};

use crate::fault::ParseFault;
use crate::look::{Arms, Look};
use crate::reader::Reader;
use ext_mean::{Block, Mark, Statement, Token, Word};
use sqlite_items::Items;

impl Reader<'_> {
    /// `block = "{" { statement } [ "return" expr ";" ] "}"`
    #[cycle(statement)]
    #[tactic(auto, unfolding(crate::specs::Readers::answer_for), using(crate::proofs::Steps::counting_down))]
    pub fn block(&mut self) -> Result<Block, ParseFault>
        ensures reads { (around : AroundBlock) →
            Reads result (λ block. left (closed block around) (stand self.new)) (left (braces around) (stand self.old)) }
        ensures shorter { OnOk result (remaining (stand self.new) < remaining (stand self.old)) }
    {
        self.open_block()?;
        let mut items = Items::new(self.alloc);
        'items: loop {
            if self.close_block() {
                return Ok(Block { items });
            }
            if self.sees(Word::Return) {
                items.push(self.returned()?)?;
                self.last_brace()?;
                return Ok(Block { items });
            }
            items.push(self.statement()?)?;
        }
    }

    /// A statement other than `return`.
    #[cycle(statement)]
    #[tactic(auto, unfolding(crate::specs::Readers::answer_for), using(crate::proofs::Statements::statements_other))]
    fn statement(&mut self) -> Result<Statement, ParseFault>
        requires inside { next (stand self.old) ≡ Some (token.Mark mark.CloseBlock) → ⊥ }
        requires more { next (stand self.old) ≡ Some (token.Word word_of.Return) → ⊥ }
        ensures reads { (known : List Statement) (around : AroundBlock) →
            Reads result (λ found. left (statements (known ++ found ∷ []) around) (stand self.new)) (left (statements known around) (stand self.old)) }
        ensures shorter { OnOk result (remaining (stand self.new) < remaining (stand self.old)) }
    {
        let token = match self.peek() {
            Some(token) => token,
            None => return Err(self.refuse()),
        };
        match token {
            Token::Name(name) => {
                let name = name.share(self.alloc)?;
                self.assign(name)
            }
            Token::Word(word) => self.worded(*word),
            Token::Mark(_) => Err(self.refuse()),
            Token::Number(_) => Err(self.refuse()),
            Token::Str(_) => Err(self.refuse()),
            Token::Not => Err(self.refuse()),
            Token::Binary(_) => Err(self.refuse()),
        }
    }

    /// A statement that begins with the word that comes next.
    #[cycle(statement)]
    fn worded(&mut self, word: Word) -> Result<Statement, ParseFault>
        requires next { next (stand self.old) ≡ Some (token.Word word) }
        requires more { word ≡ word_of.Return → ⊥ }
        ensures reads { (known : List Statement) (around : AroundBlock) →
            Reads result (λ found. left (statements (known ++ found ∷ []) around) (stand self.new)) (left (statements known around) (stand self.old)) }
        ensures shorter { OnOk result (remaining (stand self.new) < remaining (stand self.old)) }
    {
        match word {
            Word::Let => self.declaration(),
            Word::If => self.branch(),
            Word::While => self.turns(),
            Word::Get => {
                let look = self.get()?;
                self.armed(look)
            }
            Word::Multiget => {
                let look = self.multiget()?;
                self.armed(look)
            }
            Word::Set => self.write(Word::Set),
            Word::Set8 => self.write(Word::Set8),
            Word::Copy => self.write(Word::Copy),
            Word::Put => self.put(),
            Word::Del => self.del(),
            Word::Resp => self.resp(),
            _ => Err(self.refuse()),
        }
    }

    /// `"if" expr block [ "else" block ]`
    #[cycle(statement)]
    #[tactic(auto, unfolding(crate::specs::Readers::answer_for), using(crate::proofs::Statements::statement_begins, crate::proofs::Statements::statement_parts, crate::proofs::Steps::counting_down))]
    fn branch(&mut self) -> Result<Statement, ParseFault>
        requires { next (stand self.old) ≡ Some (token.Word word_of.If) }
        ensures reads { (known : List Statement) (around : AroundBlock) →
            Reads result (λ found. left (statements (known ++ found ∷ []) around) (stand self.new)) (left (statements known around) (stand self.old)) }
        ensures shorter { OnOk result (remaining (stand self.new) < remaining (stand self.old)) }
    {
        self.begin()?;
        let test = self.boxed_expression()?;
        let operators = self.operators();
        let yes = self.block()?;
        if self.take_else(operators) {
            let no = self.block()?;
            return Ok(Statement::If {
                test: test.into_inner(),
                yes,
                no,
            });
        }
        let no = Block {
            items: Items::new(self.alloc),
        };
        Ok(Statement::If {
            test: test.into_inner(),
            yes,
            no,
        })
    }

    /// `"while" expr block`
    #[cycle(statement)]
    #[tactic(auto, unfolding(crate::specs::Readers::answer_for), using(crate::proofs::Statements::statement_begins, crate::proofs::Statements::statement_parts, crate::proofs::Steps::counting_down))]
    fn turns(&mut self) -> Result<Statement, ParseFault>
        requires { next (stand self.old) ≡ Some (token.Word word_of.While) }
        ensures reads { (known : List Statement) (around : AroundBlock) →
            Reads result (λ found. left (statements (known ++ found ∷ []) around) (stand self.new)) (left (statements known around) (stand self.old)) }
        ensures shorter { OnOk result (remaining (stand self.new) < remaining (stand self.old)) }
    {
        self.begin()?;
        let test = self.boxed_expression()?;
        let body = self.block()?;
        Ok(Statement::While {
            test: test.into_inner(),
            body,
        })
    }

    /// The arms of a read.
    #[cycle(statement)]
    fn armed(&mut self, look: Look) -> Result<Statement, ParseFault>
        ensures reads { (known : List Statement) (around : AroundBlock) →
            Reads result (λ found. left (statements (known ++ found ∷ []) around) (stand self.new))
            (left (fixed mark.OpenBlock (some_word (looking_of look) (in_block known around))) (stand self.old)) }
        ensures shorter { OnOk result (remaining (stand self.new) < remaining (stand self.old)) }
    {
        let arms = self.arms()?;
        Ok(look.with_arms(arms))
    }

    /// `arms = "{" "some" name "=>" block "none" "=>" block "}"`
    #[cycle(statement)]
    fn arms(&mut self) -> Result<Arms, ParseFault>
        ensures reads { (looking : Looking) (known : List Statement) (around : AroundBlock) → Reads result
            (λ arms. left (statements (known ++ looking_statement looking arms.some arms.yes arms.no ∷ []) around) (stand self.new))
            (left (fixed mark.OpenBlock (some_word looking (in_block known around))) (stand self.old)) }
        ensures shorter { OnOk result (remaining (stand self.new) < remaining (stand self.old)) }
    {
        self.expect(Mark::OpenBlock)?;
        self.some_word()?;
        let operators = self.operators();
        let some = self.local()?;
        self.expect(Mark::Arm)?;
        let yes = self.block()?;
        self.none_word(operators)?;
        self.expect(Mark::Arm)?;
        let no = self.block()?;
        self.end_arms(operators)?;
        Ok(Arms { some, yes, no })
    }
}
