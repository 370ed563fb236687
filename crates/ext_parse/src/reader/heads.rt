ghost use Rattle.std.specs.Prelude.{◌≡◌, ◌<◌, [], List, true, false, nat_le, OnOk};
ghost use Rattle.ext_mean.specs.declared.tree.Function.{Function};
ghost use Rattle.ext_grammar.specs.Coming.{functions, function_name};
ghost use Rattle.ext_grammar.specs.Reading.{whole_answer};
ghost use Rattle.ext_parse.specs.Ends.{ends, may_follow};
ghost use Rattle.ext_parse.specs.Readers.{stand, left, ending_of, with_function, remaining, Reads};

use crate::fault::ParseFault;
use crate::reader::{MOST_FUNCTIONS, Reader};
use ext_mean::{Placed, Word};
use ext_tokens::End;
use std::alloc::Global;

impl<'a> Reader<'a> {
    /// A reader before the first of these tokens.
    #[tactic(auto, unfolding(crate::specs::Readers::stand, crate::specs::Readers::left))]
    pub fn new(alloc: Global, tokens: &'a [Placed], end: End) -> Reader<'a>
        ensures { left (functions []) (stand result) ≡ whole_answer (ending_of end) tokens.now }
    {
        Reader {
            alloc,
            rest: tokens,
            end,
            functions: 0,
            locals: 0,
            operators: 0,
            lines: Vec::new(alloc),
        }
    }

    /// The `fn` of a function, counted.
    #[tactic(auto, unfolding(crate::specs::Readers::answer_for), using(crate::proofs::Programs::functions_met, crate::proofs::Steps::counting_down))]
    pub fn begin_function(&mut self) -> Result<(), ParseFault>
        ensures reads { (known : List Function) → may_follow (ends (stand self.old)) known ≡ true →
            Reads result (λ _. left (function_name known) (stand self.new)) (left (functions known) (stand self.old)) }
        ensures shorter { OnOk result (remaining (stand self.new) < remaining (stand self.old)) }
    {
        if !self.sees(Word::Fn) {
            return Err(self.refuse());
        }
        if self.has_most_functions() {
            return Err(self.crowd());
        }
        self.count_function();
        self.begin()?;
        Ok(())
    }

    /// Whether there is the greatest number of functions.
    #[tactic(auto, unfolding(crate::specs::Readers::stand))]
    fn has_most_functions(&self) -> bool
        ensures { result ≡ nat_le 32 (stand self.now).counted.functions }
    {
        self.functions >= MOST_FUNCTIONS
    }

    #[tactic(auto, unfolding(crate::specs::Readers::stand, crate::specs::Readers::with_function))]
    fn count_function(&mut self)
        requires { nat_le 32 (stand self.old).counted.functions ≡ false }
        ensures { stand self.new ≡ with_function (stand self.old) }
    {
        self.functions += 1;
        self.locals = 0;
    }

    /// Whether the text ends here.
    #[tactic(auto, unfolding(crate::specs::Readers::stand, crate::specs::Ends::ends), using(crate::proofs::Programs::ends_met))]
    pub fn is_at_end(&self) -> bool
        ensures { result ≡ ends (stand self.now) }
    {
        if self.rest.is_empty() {
            is_text(self.end)
        } else {
            false
        }
    }

    /// The lines of the items.
    #[tactic(auto, unfolding(crate::specs::Readers::stand))]
    pub fn into_lines(self) -> Vec<u32>
        ensures { result.items ≡ (stand self.entry).counted.lines }
    {
        self.lines
    }
}

/// Whether nothing behind the tokens is faulty by itself.
fn is_text(end: End) -> bool
    ensures { result ≡ (ending_of end).complete }
{
    match end {
        End::Text(_) => true,
        End::Fault(_, _) => false,
    }
}
