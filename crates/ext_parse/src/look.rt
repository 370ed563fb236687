ghost use Rattle.std.specs.Prelude.{◌≡◌, ◌<◌, List, OnOk, Some};
ghost use Rattle.ext_mean.specs.declared.statement.Statement.{Statement};
ghost use Rattle.ext_mean.specs.declared.token.Mark.TheVariants as mark;
ghost use Rattle.ext_mean.specs.declared.token.Token.TheVariants as token;
ghost use Rattle.ext_mean.specs.declared.token.Word.TheVariants as word_of;
ghost use Rattle.ext_grammar.specs.Coming.{AroundBlock, AroundExpr, behind, expression, in_block, looking_statement, some_word, fixed, statements};
ghost use Rattle.ext_parse.specs.Looks.{looking_of};
ghost use Rattle.ext_parse.specs.Readers.{stand, left, next, remaining, Reads};

use crate::fault::ParseFault;
use crate::reader::Reader;
use ext_mean::{Block, Expr, Mark, Name, Statement};
use sqlite_items::Boxed;

/// A read with its operands.
#[derive(Drop)]
pub enum Look {
    Get {
        table: Boxed<Expr>,
        key: Boxed<Expr>,
    },
    Multiget {
        table: Boxed<Expr>,
        keys: Boxed<Expr>,
        width: Boxed<Expr>,
    },
}

/// The arms of a read.
#[derive(Drop)]
pub struct Arms {
    pub some: Name,
    pub yes: Block,
    pub no: Block,
}

impl Look {
    /// The read's statement.
    pub fn with_arms(self, arms: Arms) -> Statement
        ensures { result ≡ looking_statement (looking_of self) arms.some arms.yes arms.no }
    {
        let Arms { some, yes, no } = arms;
        match self {
            Look::Get { table, key } => Statement::Get {
                table: table.into_inner(),
                key: key.into_inner(),
                some,
                yes,
                no,
            },
            Look::Multiget { table, keys, width } => Statement::Multi {
                table: table.into_inner(),
                keys: keys.into_inner(),
                width: width.into_inner(),
                some,
                yes,
                no,
            },
        }
    }
}

impl Reader<'_> {
    /// An expression in a box.
    #[tactic(auto, unfolding(crate::specs::Readers::answer_for))]
    pub fn boxed_expression(&mut self) -> Result<Boxed<Expr>, ParseFault>
        ensures reads { (around : AroundExpr) → Reads result (λ found. left (behind found around) (stand self.new))
            (left (expression around) (stand self.old)) }
        ensures shorter { OnOk result (remaining (stand self.new) < remaining (stand self.old)) }
    {
        let found = self.expression()?;
        Ok(Boxed::new(self.alloc, found)?)
    }

    /// `"get" "(" expr "," expr ")"`
    #[tactic(auto, unfolding(crate::specs::Readers::answer_for), using(crate::proofs::Statements::statement_begins, crate::proofs::Statements::statement_parts, crate::proofs::Steps::counting_down))]
    pub fn get(&mut self) -> Result<Look, ParseFault>
        requires { next (stand self.old) ≡ Some (token.Word word_of.Get) }
        ensures reads { (known : List Statement) (around : AroundBlock) → Reads result
            (λ look. left (fixed mark.OpenBlock (some_word (looking_of look) (in_block known around))) (stand self.new))
            (left (statements known around) (stand self.old)) }
        ensures shorter { OnOk result (remaining (stand self.new) < remaining (stand self.old)) }
    {
        self.begin()?;
        self.expect(Mark::Open)?;
        let table = self.boxed_expression()?;
        self.expect(Mark::Comma)?;
        let key = self.boxed_expression()?;
        self.expect(Mark::Close)?;
        Ok(Look::Get { table, key })
    }

    /// `"multiget" "(" expr "," expr "," expr ")"`
    #[tactic(auto, unfolding(crate::specs::Readers::answer_for), using(crate::proofs::Statements::statement_begins, crate::proofs::Statements::statement_parts, crate::proofs::Steps::counting_down))]
    pub fn multiget(&mut self) -> Result<Look, ParseFault>
        requires { next (stand self.old) ≡ Some (token.Word word_of.Multiget) }
        ensures reads { (known : List Statement) (around : AroundBlock) → Reads result
            (λ look. left (fixed mark.OpenBlock (some_word (looking_of look) (in_block known around))) (stand self.new))
            (left (statements known around) (stand self.old)) }
        ensures shorter { OnOk result (remaining (stand self.new) < remaining (stand self.old)) }
    {
        self.begin()?;
        self.expect(Mark::Open)?;
        let table = self.boxed_expression()?;
        self.expect(Mark::Comma)?;
        let keys = self.boxed_expression()?;
        self.expect(Mark::Comma)?;
        let width = self.boxed_expression()?;
        self.expect(Mark::Close)?;
        Ok(Look::Multiget { table, keys, width })
    }
}
