ghost use Rattle.std.specs.Prelude.{◌≡◌, ◌<◌, ◌++◌, ◌∷◌, [], ℕ, List, true, OnOk};
ghost use Rattle.ext_mean.specs.declared.token.Mark.TheVariants as mark;
ghost use Rattle.ext_mean.specs.declared.tree.Function.{Function};
ghost use Rattle.ext_mean.specs.declared.tree.Param.{Param};
ghost use Rattle.ext_grammar.specs.Coming.{functions, first_parameter, parameter, behind_parameter, result_kind, fixed};
ghost use Rattle.ext_grammar.specs.Reading.{accepted};
ghost use Rattle.ext_parse.specs.Ends.{ends, may_follow};
ghost use Rattle.ext_parse.specs.Readers.{stand, left, remaining, Reads};

use crate::fault::ParseFault;
use crate::reader::Reader;
use ext_mean::{Function, Mark, Param, Program};
use sqlite_items::Items;

impl Reader<'_> {
    /// `program = function { function }`
    #[tactic(auto, unfolding(crate::specs::Readers::answer_for), using(crate::proofs::Programs::program_met))]
    pub fn program(&mut self) -> Result<Program, ParseFault>
        ensures { Reads result (λ program. accepted program (stand self.new).counted.lines) (left (functions []) (stand self.old)) }
    {
        let mut functions = Items::new(self.alloc);
        'functions: loop {
            functions.push(self.function()?)?;
            if self.is_at_end() {
                return Ok(Program { functions });
            }
        }
    }

    /// `function = "fn" name "(" [ param { "," param } ] ")" "->" type block`
    fn function(&mut self) -> Result<Function, ParseFault>
        ensures reads { (known : List Function) → may_follow (ends (stand self.old)) known ≡ true →
            Reads result (λ found. left (functions (known ++ found ∷ [])) (stand self.new)) (left (functions known) (stand self.old)) }
        ensures shorter { OnOk result (remaining (stand self.new) < remaining (stand self.old)) }
    {
        self.begin_function()?;
        let name = self.name()?;
        self.expect(Mark::Open)?;
        let params = self.parameters()?;
        self.expect(Mark::Arrow)?;
        let result = self.kind()?;
        let body = self.block()?;
        Ok(Function {
            name,
            params,
            result,
            body,
        })
    }

    /// The parameters of a function behind its `(`, with the `)`.
    #[tactic(auto, unfolding(crate::specs::Readers::answer_for), using(crate::proofs::Programs::parameters_met, crate::proofs::Steps::counting_down))]
    fn parameters(&mut self) -> Result<Items<Param>, ParseFault>
        ensures reads { (known : List Function) (name : List ℕ) →
            Reads result (λ params. left (fixed mark.Arrow (result_kind known name params)) (stand self.new))
            (left (first_parameter known name) (stand self.old)) }
        ensures shorter { OnOk result (remaining (stand self.new) < remaining (stand self.old)) }
    {
        let mut found = Items::new(self.alloc);
        if self.eat(Mark::Close) {
            return Ok(found);
        }
        'params: loop {
            found.push(self.parameter()?)?;
            if self.eat(Mark::Close) {
                return Ok(found);
            }
            self.expect(Mark::Comma)?;
        }
    }

    /// `param = name ":" type`
    fn parameter(&mut self) -> Result<Param, ParseFault>
        ensures reads { (known : List Function) (name : List ℕ) (params : List Param) →
            Reads result (λ param. left (behind_parameter known name (params ++ param ∷ [])) (stand self.new))
            (left (parameter known name params) (stand self.old)) }
        ensures shorter { OnOk result (remaining (stand self.new) < remaining (stand self.old)) }
    {
        let name = self.local()?;
        self.expect(Mark::Colon)?;
        let kind = self.kind()?;
        Ok(Param { name, kind })
    }
}
