ghost use Rattle.std.specs.Prelude.{◌≡◌};
ghost use Rattle.ext_grammar.specs.Coming.{level_of};
ghost use Rattle.ext_parse.specs.Levels.{of_level, tighter_than};

use ext_mean::BinOp;

/// How tightly an operator between two operands binds, from the loosest.
#[derive(Clone, Copy, Debug, PartialEq, Eq)]
pub enum Level {
    Disjoining,
    Conjoining,
    Comparing,
    Adding,
    Multiplying,
}

impl Level {
    pub fn of(operator: BinOp) -> Level
        ensures { of_level result ≡ level_of operator }
    {
        match operator {
            BinOp::Or => Level::Disjoining,
            BinOp::And => Level::Conjoining,
            BinOp::Equal | BinOp::NotEqual | BinOp::Less => Level::Comparing,
            BinOp::LessEqual | BinOp::Greater | BinOp::GreaterEqual => Level::Comparing,
            BinOp::Add | BinOp::Subtract => Level::Adding,
            BinOp::Multiply | BinOp::Divide | BinOp::Remainder => Level::Multiplying,
        }
    }

    /// The next level that binds more tightly.
    pub fn tighter(self) -> Option<Level>
        ensures { result ≡ tighter_than self }
    {
        match self {
            Level::Disjoining => Some(Level::Conjoining),
            Level::Conjoining => Some(Level::Comparing),
            Level::Comparing => Some(Level::Adding),
            Level::Adding => Some(Level::Multiplying),
            Level::Multiplying => None,
        }
    }
}
