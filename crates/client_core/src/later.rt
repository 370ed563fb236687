ghost use Rattle.std.specs.Prelude.{◌≡◌, ◌++◌, [], IfNone};
ghost use Rattle.std.specs.List.{zip};
ghost use Rattle.std.specs.Option.{option_to_list};

use sp_base::Call;
use std::collections::VecDeque;
use std::marker::Model;
use wire::{Item, Items};

/// The calls of a batch, in order, which contracts see as their list.
#[derive(Debug, Drop)]
pub struct CallList {
    items: Vec<Call>,
}

impl Model for CallList {
    ghost use Rattle.std.specs.Prelude.{List};
    ghost use Rattle.sp_base.specs.declared.calls.Call.{Call};

    ghost Value = { List Call };

    ghost view = { λ c. c.items.items };
}

impl CallList {
    /// The calls of a vector, which needs no memory.
    pub(crate) fn from_vec(items: Vec<Call>) -> CallList
        ensures { result ≡ items.items }
    {
        CallList { items }
    }

    pub fn as_slice(&self) -> &[Call]
        ensures { result.now ≡ self.now }
    {
        self.items.as_slice()
    }

    /// Each call with its item, in order.
    pub(crate) fn with_items(self, items: Items) -> Later
        ensures { result ≡ zip self items }
    {
        let CallList { items: calls } = self;
        Later {
            calls: VecDeque::from_vec(calls),
            items: VecDeque::from_vec(items.into_vec()),
        }
    }
}

/// Calls whose items are still to be looked at, with these, in order. Contracts see the list of pairs.
#[derive(Drop)]
pub struct Later {
    calls: VecDeque<Call>,
    items: VecDeque<Item>,
}

impl Model for Later {
    ghost use Rattle.std.specs.Prelude.{List};
    ghost use Rattle.std.specs.List.{zip};
    ghost use Rattle.sp_base.specs.declared.calls.Call.{Call};
    ghost use Rattle.wire.specs.declared.items.Item.{Item};

    ghost Value = { List (Call × Item) };

    ghost view = { λ l. zip l.calls.items l.items.items };
}

impl Later {
    /// Takes the first call with its item, where there is one.
    pub(crate) fn pop(&mut self) -> Option<(Call, Item)>
        ensures pops { self.old ≡ option_to_list result ++ self.new }
        ensures none { IfNone result (self.old ≡ []) }
    {
        let Some(call) = self.calls.pop_front() else {
            return None;
        };
        let Some(item) = self.items.pop_front() else {
            return None;
        };
        Some((call, item))
    }
}
