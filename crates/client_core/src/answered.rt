ghost use Rattle.std.specs.Prelude.{◌≡◌, [], ◌∷◌, ◌++◌, length, OnOk};

use sp_base::Memory;
use std::alloc::Global;
use std::marker::Model;
use wire::Item;

/// How a call ended, by an item that pushes no call.
#[derive(Debug, Drop)]
pub struct CallAnswer {
    pub item: Item,
    /// Whether the call was pushed back to the client.
    pub away: bool,
}

/// The answers to the calls of a batch, in order, which contracts see as their list.
#[derive(Debug, Drop)]
pub struct CallAnswers {
    items: Vec<CallAnswer>,
}

impl Model for CallAnswers {
    ghost use Rattle.std.specs.Prelude.{List};
    ghost use Rattle.client_core.specs.declared.answered.CallAnswer.{CallAnswer};

    ghost Value = { List CallAnswer };

    ghost view = { λ a. a.items.items };
}

impl CallAnswers {
    /// No answers.
    pub fn new(alloc: Global) -> CallAnswers
        ensures { result ≡ [] }
    {
        CallAnswers {
            items: Vec::new(alloc),
        }
    }

    /// The answers as a vector, which needs no memory.
    pub fn into_vec(self) -> Vec<CallAnswer>
        ensures { result.items ≡ self }
    {
        let CallAnswers { items } = self;
        items
    }

    pub fn as_slice(&self) -> &[CallAnswer]
        ensures { result.now ≡ self.now }
    {
        self.items.as_slice()
    }

    pub fn len(&self) -> usize
        ensures { result ≡ length self.now }
    {
        self.items.len()
    }

    /// Adds an answer at the end.
    pub(crate) fn push(&mut self, answer: CallAnswer) -> Result<(), Memory>
        ensures { OnOk result (self.new ≡ self.old ++ answer ∷ []) }
    {
        self.items.push(answer)?;
        Ok(())
    }
}
