ghost use Rattle.std.specs.Prelude.{◌≡◌};
ghost use Rattle.ext_mean.specs.Tokens as text;

use ext_mean::{BinOp, Mark};

/// The bytes of a mark.
pub fn mark_bytes(mark: Mark) -> &'static [u8]
    ensures { result.now ≡ text.mark_bytes mark }
{
    match mark {
        Mark::Open => b"(",
        Mark::Close => b")",
        Mark::OpenBlock => b"{",
        Mark::CloseBlock => b"}",
        Mark::Comma => b",",
        Mark::Semicolon => b";",
        Mark::Colon => b":",
        Mark::Assign => b"=",
        Mark::Arrow => b"->",
        Mark::Arm => b"=>",
    }
}

/// The bytes of an operator between two operands.
pub fn operator_bytes(operator: BinOp) -> &'static [u8]
    ensures { result.now ≡ text.operator_bytes operator }
{
    match operator {
        BinOp::Or => b"||",
        BinOp::And => b"&&",
        BinOp::Equal => b"==",
        BinOp::NotEqual => b"!=",
        BinOp::Less => b"<",
        BinOp::LessEqual => b"<=",
        BinOp::Greater => b">",
        BinOp::GreaterEqual => b">=",
        BinOp::Add => b"+",
        BinOp::Subtract => b"-",
        BinOp::Multiply => b"*",
        BinOp::Divide => b"/",
        BinOp::Remainder => b"%",
    }
}
