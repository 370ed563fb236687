ghost use Rattle.std.specs.Prelude.{◌≡◌, IfOk};

use crate::expr::Expr;
use crate::statement::{Block, Statement};
use crate::tree::{Function, Param, Program};
use sp_base::Memory;
use sqlite_items::{Boxed, Items};
use std::alloc::Global;

/// A statement of this form whose fields are equal to these, besides those that are given.
macro_rules! equal {
    ($form:ident in $alloc:ident: $($field:ident),* $(; $($own:ident: $value:expr),*)?) => {
        Ok(Statement::$form { $($field: $field.share($alloc)?,)* $($($own: $value,)*)? })
    };
}

impl Program {
    /// An equal tree.
    pub fn share(&self, alloc: Global) -> Result<Program, Memory>
        ensures { IfOk result (λ program. program ≡ self.now) }
    {
        let mut functions = Items::new(alloc);
        for function in self.functions.as_slice() {
            functions.push(function.share(alloc)?)?;
        }
        Ok(Program { functions })
    }
}

impl Function {
    /// An equal function.
    pub fn share(&self, alloc: Global) -> Result<Function, Memory>
        ensures { IfOk result (λ function. function ≡ self.now) }
    {
        let name = self.name.share(alloc)?;
        let params = share_params(alloc, &self.params)?;
        let body = self.body.share(alloc)?;
        Ok(Function {
            name,
            params,
            result: self.result,
            body,
        })
    }
}

/// Equal parameters.
fn share_params(alloc: Global, params: &Items<Param>) -> Result<Items<Param>, Memory>
    ensures { IfOk result (λ copy. copy ≡ params.now) }
{
    let mut copy = Items::new(alloc);
    for param in params.as_slice() {
        let name = param.name.share(alloc)?;
        copy.push(Param {
            name,
            kind: param.kind,
        })?;
    }
    Ok(copy)
}

impl Block {
    /// An equal block.
    #[cycle(share)]
    pub fn share(&self, alloc: Global) -> Result<Block, Memory>
        ensures { IfOk result (λ block. block ≡ self.now) }
    {
        let mut items = Items::new(alloc);
        for statement in self.items.as_slice() {
            items.push(statement.share(alloc)?)?;
        }
        Ok(Block { items })
    }
}

impl Statement {
    /// An equal statement.
    #[cycle(share)]
    pub fn share(&self, alloc: Global) -> Result<Statement, Memory>
        ensures { IfOk result (λ statement. statement ≡ self.now) }
    {
        match self {
            Statement::Let { name, kind, value } => equal!(Let in alloc: name, value; kind: *kind),
            Statement::LetCall {
                name,
                kind,
                function,
                args,
            } =>
                equal!(LetCall in alloc: name, function; kind: *kind, args: share_all(alloc, args)?),
            Statement::Assign { name, value } => equal!(Assign in alloc: name, value),
            Statement::If { test, yes, no } => equal!(If in alloc: test, yes, no),
            Statement::While { test, body } => equal!(While in alloc: test, body),
            Statement::Get {
                table,
                key,
                some,
                yes,
                no,
            } => equal!(Get in alloc: table, key, some, yes, no),
            Statement::Multi {
                table,
                keys,
                width,
                some,
                yes,
                no,
            } => equal!(Multi in alloc: table, keys, width, some, yes, no),
            Statement::Set { name, place, value } => equal!(Set in alloc: name, place, value),
            Statement::Set8 { name, place, value } => equal!(Set8 in alloc: name, place, value),
            Statement::Copy {
                name,
                place,
                source,
            } => equal!(Copy in alloc: name, place, source),
            Statement::Put { name } => equal!(Put in alloc: name),
            Statement::Del { table, key } => equal!(Del in alloc: table, key),
            Statement::Resp { value } => equal!(Resp in alloc: value),
            Statement::Return { value } => equal!(Return in alloc: value),
        }
    }
}

/// Equal expressions.
fn share_all(alloc: Global, expressions: &Items<Expr>) -> Result<Items<Expr>, Memory>
    ensures { IfOk result (λ copy. copy ≡ expressions.now) }
{
    let mut copy = Items::new(alloc);
    for expression in expressions.as_slice() {
        copy.push(expression.share(alloc)?)?;
    }
    Ok(copy)
}

impl Expr {
    /// An equal expression.
    pub fn share(&self, alloc: Global) -> Result<Expr, Memory>
        ensures { IfOk result (λ expression. expression ≡ self.now) }
    {
        match self {
            Expr::Number(number) => Ok(Expr::Number(*number)),
            Expr::Str(bytes) => Ok(Expr::Str(bytes.share(alloc)?)),
            Expr::Truth(truth) => Ok(Expr::Truth(*truth)),
            Expr::Var(name) => Ok(Expr::Var(name.share(alloc)?)),
            Expr::Args => Ok(Expr::Args),
            Expr::Len(bytes) => Ok(Expr::Len(boxed(alloc, bytes.get().share(alloc)?)?)),
            Expr::View(name) => Ok(Expr::View(name.share(alloc)?)),
            Expr::Temp(size) => Ok(Expr::Temp(boxed(alloc, size.get().share(alloc)?)?)),
            Expr::Byte(bytes, place) => Ok(Expr::Byte(
                boxed(alloc, bytes.get().share(alloc)?)?,
                boxed(alloc, place.get().share(alloc)?)?,
            )),
            Expr::Word(bytes, place) => Ok(Expr::Word(
                boxed(alloc, bytes.get().share(alloc)?)?,
                boxed(alloc, place.get().share(alloc)?)?,
            )),
            Expr::Sub(bytes, from, count) => Ok(Expr::Sub(
                boxed(alloc, bytes.get().share(alloc)?)?,
                boxed(alloc, from.get().share(alloc)?)?,
                boxed(alloc, count.get().share(alloc)?)?,
            )),
            Expr::Alloc(table, key, size) => Ok(Expr::Alloc(
                boxed(alloc, table.get().share(alloc)?)?,
                boxed(alloc, key.get().share(alloc)?)?,
                boxed(alloc, size.get().share(alloc)?)?,
            )),
            Expr::Not(test) => Ok(Expr::Not(boxed(alloc, test.get().share(alloc)?)?)),
            Expr::Bin(operator, left, right) => Ok(Expr::Bin(
                *operator,
                boxed(alloc, left.get().share(alloc)?)?,
                boxed(alloc, right.get().share(alloc)?)?,
            )),
        }
    }
}

/// An expression on the way back to its own kind.
pub fn boxed(alloc: Global, expression: Expr) -> Result<Boxed<Expr>, Memory>
    ensures { IfOk result (λ b. b ≡ expression) }
{
    Ok(Boxed::new(alloc, expression)?)
}
