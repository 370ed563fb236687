ghost use Rattle.ext_grammar.specs.Reading.{whole_answer};
ghost use Rattle.ext_parse.specs.Ends.{IsAnswered};
ghost use Rattle.ext_parse.specs.Readers.{ending_of};

use crate::fault::ParseFault;
use crate::parsed::Parsed;
use crate::reader::Reader;
use ext_mean::Placed;
use ext_tokens::End;
use std::alloc::Global;

/// The program of these tokens with the lines of its items, or the first fault of them and of what
/// stands behind them.
#[tactic(auto, unfolding(crate::specs::Readers::answer_for))]
pub fn read_program(alloc: Global, tokens: &[Placed], end: End) -> Result<Parsed, ParseFault>
    ensures { IsAnswered result (whole_answer (ending_of end) tokens.now) }
{
    let mut reader = Reader::new(alloc, tokens, end);
    let program = reader.program()?;
    let lines = reader.into_lines();
    Ok(Parsed { program, lines })
}
