ghost use Rattle.std.specs.Prelude.{◌≡◌, ◌<◌, ◌+◌, IfOk, OnOk, Some};
ghost use Rattle.ext_mean.specs.declared.expr.Expr.{Expr};
ghost use Rattle.ext_mean.specs.declared.expr.Expr.TheVariants as expr;
ghost use Rattle.ext_mean.specs.declared.token.Mark.TheVariants as mark;
ghost use Rattle.ext_mean.specs.declared.token.Token.TheVariants as token;
ghost use Rattle.ext_grammar.specs.Coming.{AroundExpr, behind, unary, primary, chain, side, expression, fixed, view_name, Single, Double, Triple, byte, u64, sub, alloc, single_expr, double_expr, only_operand, first_of_two, first_of_three, third_of_three};
ghost use Rattle.ext_parse.specs.Levels.{of_level};
ghost use Rattle.ext_parse.specs.Readers.{stand, left, next, advanced, remaining, Reads};

use crate::fault::ParseFault;
use crate::level::Level;
use crate::reader::Reader;
use ext_mean::{BinOp, Expr, Mark, Token, Word};
use sp_base::Memory;
use sqlite_items::Boxed;

impl Reader<'_> {
    /// An expression, with the operators that may follow its operands.
    #[cycle(expression)]
    pub fn expression(&mut self) -> Result<Expr, ParseFault>
        ensures reads { (around : AroundExpr) → Reads result (λ found. left (behind found around) (stand self.new))
            (left (expression around) (stand self.old)) }
        ensures shorter { OnOk result (remaining (stand self.new) < remaining (stand self.old)) }
    {
        self.chain(Level::Disjoining)
    }

    /// Sides of operators of a level, which join to the left; of a comparison there are two.
    #[cycle(expression)]
    #[tactic(auto, unfolding(crate::specs::Readers::answer_for), using(crate::proofs::Chains::operands))]
    fn chain(&mut self, level: Level) -> Result<Expr, ParseFault>
        ensures reads { (around : AroundExpr) → Reads result (λ found. left (behind found around) (stand self.new))
            (left (unary (side (of_level level) (chain (of_level level) around))) (stand self.old)) }
        ensures shorter { OnOk result (remaining (stand self.new) < remaining (stand self.old)) }
    {
        let mut found = self.side(level)?;
        'operators: loop {
            let operator = match self.take_operator(level)? {
                Some(operator) => operator,
                None => return Ok(found),
            };
            let right = self.side(level)?;
            found = self.binary(operator, found, right)?;
            if level == Level::Comparing {
                return Ok(found);
            }
        }
    }

    /// A side of an operator of a level.
    #[cycle(expression)]
    #[tactic(auto, using(crate::proofs::Chains::operands))]
    fn side(&mut self, level: Level) -> Result<Expr, ParseFault>
        ensures reads { (around : AroundExpr) → Reads result (λ found. left (behind found around) (stand self.new))
            (left (unary (side (of_level level) around)) (stand self.old)) }
        ensures shorter { OnOk result (remaining (stand self.new) < remaining (stand self.old)) }
    {
        match level.tighter() {
            Some(tighter) => self.chain(tighter),
            None => self.unary(),
        }
    }

    /// `unary = [ "!" ] prim`
    #[cycle(expression)]
    #[tactic(auto, unfolding(crate::specs::Readers::answer_for), using(crate::proofs::Chains::operands))]
    fn unary(&mut self) -> Result<Expr, ParseFault>
        ensures reads { (around : AroundExpr) → Reads result (λ found. left (behind found around) (stand self.new))
            (left (unary around) (stand self.old)) }
        ensures shorter { OnOk result (remaining (stand self.new) < remaining (stand self.old)) }
    {
        if self.take_not()? {
            let operand = self.primary()?;
            return Ok(Expr::Not(Boxed::new(self.alloc, operand)?));
        }
        self.primary()
    }

    /// A number, a byte string, a variable, or what begins with a bracket or a word.
    #[cycle(expression)]
    #[tactic(auto, unfolding(crate::specs::Readers::answer_for), using(crate::proofs::Operands::operand_begins, crate::proofs::Steps::counting_down))]
    fn primary(&mut self) -> Result<Expr, ParseFault>
        ensures reads { (around : AroundExpr) → Reads result (λ found. left (behind found around) (stand self.new))
            (left (primary around) (stand self.old)) }
        ensures shorter { OnOk result (remaining (stand self.new) < remaining (stand self.old)) }
    {
        let token = match self.peek() {
            Some(token) => token,
            None => return Err(self.refuse()),
        };
        let found = match token {
            Token::Number(value) => Expr::Number(*value),
            Token::Str(items) => Expr::Str(items.share(self.alloc)?),
            Token::Name(name) => Expr::Var(name.share(self.alloc)?),
            Token::Word(word) => return self.word(*word),
            Token::Mark(mark) => return self.parentheses(*mark),
            Token::Not | Token::Binary(_) => return Err(self.refuse()),
        };
        self.advance();
        Ok(found)
    }

    /// An expression in parentheses, of which the first is to be the mark that comes next.
    #[cycle(expression)]
    #[tactic(auto, using(crate::proofs::Operands::operand_begins, crate::proofs::Operands::operand_ends, crate::proofs::Steps::counting_down))]
    fn parentheses(&mut self, mark: Mark) -> Result<Expr, ParseFault>
        requires { next (stand self.old) ≡ Some (token.Mark mark) }
        ensures reads { (around : AroundExpr) → Reads result (λ found. left (behind found around) (stand self.new))
            (left (primary around) (stand self.old)) }
        ensures shorter { OnOk result (remaining (stand self.new) < remaining (stand self.old)) }
    {
        match mark {
            Mark::Open => self.advance(),
            _ => return Err(self.refuse()),
        }
        let found = self.expression()?;
        self.expect(Mark::Close)?;
        Ok(found)
    }

    /// What begins with the word that comes next.
    #[cycle(expression)]
    #[tactic(auto, using(crate::proofs::Operands::operand_begins, crate::proofs::Steps::counting_down))]
    fn word(&mut self, word: Word) -> Result<Expr, ParseFault>
        requires { next (stand self.old) ≡ Some (token.Word word) }
        ensures reads { (around : AroundExpr) → Reads result (λ found. left (behind found around) (stand self.new))
            (left (primary around) (stand self.old)) }
        ensures shorter { OnOk result (remaining (stand self.new) < remaining (stand self.old)) }
    {
        match word {
            Word::True => Ok(self.truth(true)),
            Word::False => Ok(self.truth(false)),
            Word::Args => {
                self.advance();
                self.args()
            }
            Word::View => {
                self.advance();
                self.view()
            }
            Word::Len => {
                self.advance();
                Ok(Expr::Len(self.one_operand()?))
            }
            Word::Temp => {
                self.advance();
                Ok(Expr::Temp(self.one_operand()?))
            }
            Word::Byte => {
                self.advance();
                self.byte()
            }
            Word::U64 => {
                self.advance();
                self.u64_of()
            }
            Word::Sub => {
                self.advance();
                self.sub()
            }
            Word::Alloc => {
                self.advance();
                self.alloc_of()
            }
            _ => Err(self.refuse()),
        }
    }

    /// The value of `true` or `false`, which comes next.
    fn truth(&mut self, value: bool) -> Expr
        ensures value { result ≡ expr.Truth value }
        ensures behind { stand self.new ≡ advanced (stand self.old) }
    {
        self.advance();
        Expr::Truth(value)
    }

    /// `"(" ")"` behind `args`.
    fn args(&mut self) -> Result<Expr, ParseFault>
        ensures reads { (around : AroundExpr) → Reads result (λ found. left (behind found around) (stand self.new))
            (left (fixed mark.Open (fixed mark.Close (behind expr.Args around))) (stand self.old)) }
        ensures shorter { OnOk result (remaining (stand self.new) < remaining (stand self.old)) }
    {
        self.expect(Mark::Open)?;
        self.expect(Mark::Close)?;
        Ok(Expr::Args)
    }

    /// `"(" name ")"` behind `view`.
    fn view(&mut self) -> Result<Expr, ParseFault>
        ensures reads { (around : AroundExpr) → Reads result (λ found. left (behind found around) (stand self.new))
            (left (fixed mark.Open (view_name around)) (stand self.old)) }
        ensures shorter { OnOk result (remaining (stand self.new) < remaining (stand self.old)) }
    {
        self.expect(Mark::Open)?;
        let name = self.name()?;
        self.expect(Mark::Close)?;
        Ok(Expr::View(name))
    }

    /// `"(" expr ")"`
    #[cycle(expression)]
    #[tactic(auto, unfolding(crate::specs::Readers::answer_for), using(crate::proofs::Operands::operand_ends))]
    fn one_operand(&mut self) -> Result<Boxed<Expr>, ParseFault>
        ensures reads { (of : Single) (around : AroundExpr) → Reads result
            (λ operand. left (behind (single_expr of operand) around) (stand self.new))
            (left (fixed mark.Open (expression (only_operand of around))) (stand self.old)) }
        ensures shorter { OnOk result (remaining (stand self.new) < remaining (stand self.old)) }
    {
        self.expect(Mark::Open)?;
        let operand = self.expression()?;
        self.expect(Mark::Close)?;
        Ok(Boxed::new(self.alloc, operand)?)
    }

    /// `"(" expr "," expr ")"`
    #[cycle(expression)]
    #[tactic(auto, unfolding(crate::specs::Readers::answer_for), using(crate::proofs::Operands::operand_ends))]
    fn two_operands(&mut self) -> Result<(Boxed<Expr>, Boxed<Expr>), ParseFault>
        ensures reads { (of : Double) (around : AroundExpr) → Reads result
            (λ operands. left (behind (double_expr of operands.0 operands.1) around) (stand self.new))
            (left (fixed mark.Open (expression (first_of_two of around))) (stand self.old)) }
        ensures shorter { OnOk result (remaining (stand self.new) < remaining (stand self.old)) }
    {
        self.expect(Mark::Open)?;
        let first = self.expression()?;
        self.expect(Mark::Comma)?;
        let second = self.expression()?;
        self.expect(Mark::Close)?;
        Ok((
            Boxed::new(self.alloc, first)?,
            Boxed::new(self.alloc, second)?,
        ))
    }

    /// `"(" expr "," expr ")"` behind `byte`.
    #[cycle(expression)]
    #[tactic(auto, unfolding(crate::specs::Readers::answer_for), using(crate::proofs::Operands::operand_ends))]
    fn byte(&mut self) -> Result<Expr, ParseFault>
        ensures reads { (around : AroundExpr) → Reads result (λ found. left (behind found around) (stand self.new))
            (left (fixed mark.Open (expression (first_of_two byte around))) (stand self.old)) }
        ensures shorter { OnOk result (remaining (stand self.new) < remaining (stand self.old)) }
    {
        let (bytes, place) = self.two_operands()?;
        Ok(Expr::Byte(bytes, place))
    }

    /// `"(" expr "," expr ")"` behind `u64`.
    #[cycle(expression)]
    #[tactic(auto, unfolding(crate::specs::Readers::answer_for), using(crate::proofs::Operands::operand_ends))]
    fn u64_of(&mut self) -> Result<Expr, ParseFault>
        ensures reads { (around : AroundExpr) → Reads result (λ found. left (behind found around) (stand self.new))
            (left (fixed mark.Open (expression (first_of_two u64 around))) (stand self.old)) }
        ensures shorter { OnOk result (remaining (stand self.new) < remaining (stand self.old)) }
    {
        let (bytes, place) = self.two_operands()?;
        Ok(Expr::Word(bytes, place))
    }

    /// `"(" expr "," expr ","`, the first two of three operands.
    #[cycle(expression)]
    #[tactic(auto, unfolding(crate::specs::Readers::answer_for), using(crate::proofs::Operands::operand_ends))]
    fn leading_operands(&mut self) -> Result<(Boxed<Expr>, Boxed<Expr>), ParseFault>
        ensures reads { (of : Triple) (around : AroundExpr) → Reads result
            (λ operands. left (expression (third_of_three of operands.0 operands.1 around)) (stand self.new))
            (left (fixed mark.Open (expression (first_of_three of around))) (stand self.old)) }
        ensures shorter { OnOk result (remaining (stand self.new) < remaining (stand self.old)) }
    {
        self.expect(Mark::Open)?;
        let first = self.expression()?;
        self.expect(Mark::Comma)?;
        let second = self.expression()?;
        self.expect(Mark::Comma)?;
        Ok((
            Boxed::new(self.alloc, first)?,
            Boxed::new(self.alloc, second)?,
        ))
    }

    /// `"(" expr "," expr "," expr ")"` behind `sub`.
    #[cycle(expression)]
    #[tactic(auto, unfolding(crate::specs::Readers::answer_for), using(crate::proofs::Operands::operand_ends))]
    fn sub(&mut self) -> Result<Expr, ParseFault>
        ensures reads { (around : AroundExpr) → Reads result (λ found. left (behind found around) (stand self.new))
            (left (fixed mark.Open (expression (first_of_three sub around))) (stand self.old)) }
        ensures shorter { OnOk result (remaining (stand self.new) < remaining (stand self.old)) }
    {
        let (bytes, from) = self.leading_operands()?;
        let count = self.expression()?;
        self.expect(Mark::Close)?;
        Ok(Expr::Sub(bytes, from, Boxed::new(self.alloc, count)?))
    }

    /// `"(" expr "," expr "," expr ")"` behind `alloc`.
    #[cycle(expression)]
    #[tactic(auto, unfolding(crate::specs::Readers::answer_for), using(crate::proofs::Operands::operand_ends))]
    fn alloc_of(&mut self) -> Result<Expr, ParseFault>
        ensures reads { (around : AroundExpr) → Reads result (λ found. left (behind found around) (stand self.new))
            (left (fixed mark.Open (expression (first_of_three alloc around))) (stand self.old)) }
        ensures shorter { OnOk result (remaining (stand self.new) < remaining (stand self.old)) }
    {
        let (table, key) = self.leading_operands()?;
        let size = self.expression()?;
        self.expect(Mark::Close)?;
        Ok(Expr::Alloc(table, key, Boxed::new(self.alloc, size)?))
    }

    /// An operator with its two sides.
    fn binary(&self, operator: BinOp, left: Expr, right: Expr) -> Result<Expr, Memory>
        ensures { IfOk result (λ whole. whole ≡ expr.Bin operator left right) }
    {
        let left = Boxed::new(self.alloc, left)?;
        let right = Boxed::new(self.alloc, right)?;
        Ok(Expr::Bin(operator, left, right))
    }
}
