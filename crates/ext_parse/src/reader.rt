ghost use Rattle.std.specs.Prelude.{◌≡◌, ◌<◌, ◌≤◌, ◌+◌, ◌↔◌, ℕ, List, [], ◌∷◌, ◌++◌, IsTrue, IsSome, IsErr, IfOk, IfErr, OnOk, OnErr, true, false, nat_le, if◌then◌else◌};
ghost use Rattle.std.specs.Option.{option_copied};
ghost use Rattle.ext_mean.specs.declared.token.Token.TheVariants as token;
ghost use Rattle.ext_mean.specs.declared.expr.Expr.{Expr};
ghost use Rattle.ext_mean.specs.declared.expr.Expr.TheVariants as expr;
ghost use Rattle.ext_mean.specs.declared.statement.Statement.TheVariants as does;
ghost use Rattle.ext_mean.specs.declared.token.Mark.TheVariants as mark;
ghost use Rattle.ext_mean.specs.declared.tree.Function.{Function};
ghost use Rattle.ext_mean.specs.declared.tree.Param.{Param};
ghost use Rattle.ext_mean.specs.Grammar.{Writing};
ghost use Rattle.ext_grammar.specs.Coming.{Coming, AroundExpr, AroundStatement, Looking, fixed, unary, primary, behind, chain, negated, expression, view_name, written_name, write_place, put_name, semicolon, function_name, first_parameter, let_name, let_kind, value, some_name, some_block, braces, parameter, parameter_kind, behind_parameter, result_kind, function_body, kind_of};
ghost use Rattle.ext_parse.specs.Levels.{of_level, operator_at, behind_operand};
ghost use Rattle.ext_grammar.specs.Reading.{Answer};
ghost use Rattle.ext_mean.specs.Wording.{is_operator};
ghost use Rattle.ext_parse.specs.Readers.{stand, left, next, advanced, going_on, begun, with_operator, with_local, with_function, refusal, crowding, answer_for, remaining, name_at, kind_at, param_of, Reads};

mod arms;
mod heads;
mod items;

use crate::fault::ParseFault;
use crate::level::Level;
use ext_mean::{BinOp, Kind, Mark, Name, Placed, SyntaxCode, Token, Word};
use ext_tokens::End;
use std::alloc::Global;

/// The greatest number of operators of one item.
const MOST_OPERATORS: u32 = 64;
/// The greatest number of locals of one function.
const MOST_LOCALS: u32 = 256;
/// The greatest number of functions.
const MOST_FUNCTIONS: u32 = 32;

/// A reader of the grammar between two tokens.
#[derive(Drop)]
pub struct Reader<'a> {
    pub alloc: Global,
    rest: &'a [Placed],
    end: End,
    /// The functions so far.
    functions: u32,
    /// The locals so far of the function.
    locals: u32,
    /// The operators so far of the open item; 0 where none is open.
    operators: u32,
    /// The lines of the items so far.
    lines: Vec<u32>,
}

impl<'a> Reader<'a> {
    /// The next token.
    #[tactic(auto, unfolding(crate::specs::Readers::stand, crate::specs::Readers::next), using(crate::proofs::Places::places))]
    pub fn peek(&self) -> Option<&'a Token>
        ensures { option_copied result ≡ next (stand self.now) }
    {
        match self.rest {
            [first, ..] => Some(&first.token),
            [] => None,
        }
    }

    /// The fault of the place before the next token, where no program has it.
    #[tactic(auto, unfolding(crate::specs::Readers::stand, crate::specs::Readers::refusal, crate::specs::Readers::answer_for), using(crate::proofs::Places::places))]
    pub fn refuse(&self) -> ParseFault
        ensures { (total : Answer) → answer_for result total ≡ refusal (stand self.now) }
    {
        match self.rest {
            [first, ..] => {
                let line = first.line;
                let code = if is_operator(&first.token) && self.operators >= MOST_OPERATORS {
                    SyntaxCode::Many
                } else {
                    SyntaxCode::Expected
                };
                ParseFault::Syntax { line, code }
            }
            [] => match self.end {
                End::Text(line) => ParseFault::Syntax {
                    line,
                    code: SyntaxCode::Expected,
                },
                End::Fault(line, code) => ParseFault::Syntax { line, code },
            },
        }
    }

    /// Goes behind the next token.
    #[tactic(auto, unfolding(crate::specs::Readers::stand, crate::specs::Readers::advanced), using(crate::proofs::Places::places))]
    pub fn advance(&mut self)
        ensures { stand self.new ≡ advanced (stand self.old) }
    {
        if let [_, rest @ ..] = self.rest {
            self.rest = rest;
        }
    }

    /// Goes on in an item that has so many operators, or in none with 0.
    #[tactic(auto, unfolding(crate::specs::Readers::stand, crate::specs::Readers::going_on))]
    pub fn go_on(&mut self, operators: u32)
        ensures { stand self.new ≡ going_on operators (stand self.old) }
    {
        self.operators = operators;
    }

    /// Whether the mark comes next; if so, goes behind it.
    pub fn eat(&mut self, mark: Mark) -> bool
        ensures found { IsTrue result ↔ next (stand self.old) ≡ Some (token.Mark mark) }
        ensures behind { IsTrue result → stand self.new ≡ advanced (stand self.old) }
        ensures kept { (IsTrue result → ⊥) → stand self.new ≡ stand self.old }
    {
        let found = match self.peek() {
            Some(token) => is_mark(token, mark),
            None => false,
        };
        if found {
            self.advance();
        }
        found
    }

    /// Goes behind the mark.
    #[tactic(auto, using(crate::proofs::Marks::mark_steps, crate::proofs::Steps::counting_down))]
    pub fn expect(&mut self, mark: Mark) -> Result<(), ParseFault>
        ensures reads { (coming : Coming) → Reads result (λ _. left coming (stand self.new)) (left (fixed mark coming) (stand self.old)) }
        ensures shorter { OnOk result (remaining (stand self.new) < remaining (stand self.old)) }
    {
        if self.eat(mark) {
            Ok(())
        } else {
            Err(self.refuse())
        }
    }

    /// An operator that comes next, counted for its item.
    #[tactic(auto, unfolding(crate::specs::Readers::stand, crate::specs::Readers::with_operator))]
    fn count_operator(&mut self) -> Result<(), ParseFault>
        ensures ok { OnOk result ((nat_le 64 (stand self.old).counted.operators ≡ false)
            × (stand self.new ≡ advanced (with_operator (stand self.old)))) }
        ensures full { IsErr result → nat_le 64 (stand self.old).counted.operators ≡ true }
        ensures err { IfErr result (λ fault. (total : Answer) → answer_for fault total ≡ refusal (stand self.old)) }
    {
        if self.operators >= MOST_OPERATORS {
            return Err(self.refuse());
        }
        self.operators += 1;
        self.advance();
        Ok(())
    }

    /// The operator of a level, if one comes next.
    fn operator_at(&self, level: Level) -> Option<BinOp>
        ensures { result ≡ operator_at (of_level level) (next (stand self.now)) }
    {
        match self.peek() {
            Some(Token::Binary(operator)) if Level::of(*operator) == level => Some(*operator),
            _ => None,
        }
    }

    /// The operator of a level, if one comes next; goes behind it, and counts it for its item.
    #[tactic(auto, using(crate::proofs::Chains::taken_operators, crate::proofs::Steps::counting_down))]
    pub fn take_operator(&mut self, level: Level) -> Result<Option<BinOp>, ParseFault>
        ensures reads { (found : Expr) (around : AroundExpr) → Reads result
            (λ taken. left (behind_operand (of_level level) found around taken) (stand self.new))
            (left (behind found (chain (of_level level) around)) (stand self.old)) }
        ensures shorter { OnOk result (remaining (stand self.new) ≤ remaining (stand self.old)) }
        ensures taken { IfOk result (λ taken. IsSome taken → remaining (stand self.new) < remaining (stand self.old)) }
    {
        let found = self.operator_at(level);
        if found.is_some() {
            self.count_operator()?;
        }
        Ok(found)
    }

    /// Whether `!` comes next; if so, goes behind it, and counts it for its item.
    #[tactic(auto, using(crate::proofs::Chains::taken_operators, crate::proofs::Steps::counting_down))]
    pub fn take_not(&mut self) -> Result<bool, ParseFault>
        ensures reads { (around : AroundExpr) → Reads result
            (λ taken. left (if taken then primary (negated around) else primary around) (stand self.new))
            (left (unary around) (stand self.old)) }
        ensures shorter { OnOk result (remaining (stand self.new) ≤ remaining (stand self.old)) }
    {
        let found = self.sees_not();
        if found {
            self.count_operator()?;
        }
        Ok(found)
    }

    /// Whether `!` comes next.
    fn sees_not(&self) -> bool
        ensures { IsTrue result ↔ next (stand self.now) ≡ Some token.Not }
    {
        match self.peek() {
            Some(token) => is_not(token),
            None => false,
        }
    }

    /// The name that comes next, if one does.
    fn next_name(&self) -> Option<&'a Name>
        ensures { option_copied result ≡ name_at (next (stand self.now)) }
    {
        match self.peek() {
            Some(Token::Name(name)) => Some(name),
            _ => None,
        }
    }

    /// A name that is no local's.
    #[tactic(auto, unfolding(crate::specs::Readers::answer_for), using(crate::proofs::Names::names_met, crate::proofs::Steps::counting_down))]
    pub fn name(&mut self) -> Result<Name, ParseFault>
        ensures view { (around : AroundExpr) → Reads result
            (λ name. left (fixed mark.Close (behind (expr.View name) around)) (stand self.new))
            (left (view_name around) (stand self.old)) }
        ensures written { (writing : Writing) (around : AroundStatement) → Reads result
            (λ name. left (fixed mark.Comma (expression (write_place writing name around))) (stand self.new))
            (left (written_name writing around) (stand self.old)) }
        ensures put { (around : AroundStatement) → Reads result
            (λ name. left (fixed mark.Close (semicolon (does.Put name) around)) (stand self.new))
            (left (put_name around) (stand self.old)) }
        ensures function { (known : List Function) → Reads result
            (λ name. left (fixed mark.Open (first_parameter known name)) (stand self.new))
            (left (function_name known) (stand self.old)) }
        ensures shorter { OnOk result (remaining (stand self.new) < remaining (stand self.old)) }
    {
        match self.next_name() {
            Some(name) => {
                let name = name.share(self.alloc)?;
                self.advance();
                Ok(name)
            }
            None => Err(self.refuse()),
        }
    }

    /// The fault of a token that is one too many.
    #[tactic(auto, unfolding(crate::specs::Readers::stand, crate::specs::Readers::crowding, crate::specs::Readers::refusal, crate::specs::Readers::answer_for), using(crate::proofs::Places::places))]
    fn crowd(&self) -> ParseFault
        ensures { (total : Answer) → answer_for result total ≡ crowding (stand self.now) }
    {
        match self.rest {
            [first, ..] => ParseFault::Syntax {
                line: first.line,
                code: SyntaxCode::Many,
            },
            [] => self.refuse(),
        }
    }

    /// The name of a local, counted for its function.
    #[tactic(auto, unfolding(crate::specs::Readers::answer_for), using(crate::proofs::Names::locals_met, crate::proofs::Steps::counting_down))]
    pub fn local(&mut self) -> Result<Name, ParseFault>
        ensures variable { (around : AroundStatement) → Reads result
            (λ name. left (fixed mark.Colon (let_kind name around)) (stand self.new))
            (left (let_name around) (stand self.old)) }
        ensures found { (looking : Looking) (around : AroundStatement) → Reads result
            (λ name. left (fixed mark.Arm (braces (some_block looking name (stand self.old).counted.operators around))) (stand self.new))
            (left (some_name looking around) (stand self.old)) }
        ensures parameter { (known : List Function) (of : List ℕ) (params : List Param) → Reads result
            (λ name. left (fixed mark.Colon (parameter_kind known of params name)) (stand self.new))
            (left (parameter known of params) (stand self.old)) }
        ensures shorter { OnOk result (remaining (stand self.new) < remaining (stand self.old)) }
    {
        match self.next_name() {
            Some(_) if self.has_most_locals() => Err(self.crowd()),
            Some(name) => {
                let name = name.share(self.alloc)?;
                self.count_local();
                self.advance();
                Ok(name)
            }
            None => Err(self.refuse()),
        }
    }

    /// Whether the function has the greatest number of locals.
    #[tactic(auto, unfolding(crate::specs::Readers::stand))]
    fn has_most_locals(&self) -> bool
        ensures { result ≡ nat_le 256 (stand self.now).counted.locals }
    {
        self.locals >= MOST_LOCALS
    }

    #[tactic(auto, unfolding(crate::specs::Readers::stand, crate::specs::Readers::with_local))]
    fn count_local(&mut self)
        requires { nat_le 256 (stand self.old).counted.locals ≡ false }
        ensures { stand self.new ≡ with_local (stand self.old) }
    {
        self.locals += 1;
    }

    #[tactic(auto, using(crate::proofs::Names::kinds_met, crate::proofs::Steps::counting_down))]
    pub fn kind(&mut self) -> Result<Kind, ParseFault>
        ensures variable { (name : List ℕ) (around : AroundStatement) → Reads result
            (λ kind. left (fixed mark.Assign (value name kind around)) (stand self.new))
            (left (let_kind name around) (stand self.old)) }
        ensures parameter { (known : List Function) (name : List ℕ) (params : List Param) (param : List ℕ) → Reads result
            (λ kind. left (behind_parameter known name (params ++ param_of param kind ∷ [])) (stand self.new))
            (left (parameter_kind known name params param) (stand self.old)) }
        ensures returned { (known : List Function) (name : List ℕ) (params : List Param) → Reads result
            (λ kind. left (braces (function_body known name params kind)) (stand self.new))
            (left (result_kind known name params) (stand self.old)) }
        ensures shorter { OnOk result (remaining (stand self.new) < remaining (stand self.old)) }
    {
        match self.next_kind() {
            Some(kind) => {
                self.advance();
                Ok(kind)
            }
            None => Err(self.refuse()),
        }
    }

    /// The kind that comes next, if one does.
    fn next_kind(&self) -> Option<Kind>
        ensures { result ≡ kind_at (next (stand self.now)) }
    {
        match self.peek() {
            Some(token) => kind_of(token),
            None => None,
        }
    }
}

/// Whether the token is an operator, which is counted.
fn is_operator(token: &Token) -> bool
    ensures { result ≡ is_operator token.now }
{
    match token {
        Token::Not | Token::Binary(_) => true,
        _ => false,
    }
}

/// Whether the token is the mark.
fn is_mark(token: &Token, mark: Mark) -> bool
    ensures { IsTrue result ↔ token.now ≡ Token.Mark mark }
{
    match token {
        Token::Mark(found) => *found == mark,
        _ => false,
    }
}

fn is_not(token: &Token) -> bool
    ensures { IsTrue result ↔ token.now ≡ Token.Not }
{
    match token {
        Token::Not => true,
        _ => false,
    }
}

/// The kind that a token names.
fn kind_of(token: &Token) -> Option<Kind>
    ensures { result ≡ kind_of token.now }
{
    match token {
        Token::Word(Word::Int) => Some(Kind::Int),
        Token::Word(Word::Bool) => Some(Kind::Bool),
        Token::Word(Word::Slice) => Some(Kind::Slice),
        Token::Word(Word::Buf) => Some(Kind::Buf),
        Token::Word(Word::Temp) => Some(Kind::Temp),
        _ => None,
    }
}
