//! The rule of the hub's table, and what each step tells.
use crate::sight::{Origin, Sight};
use atomic_table::{Join, Play, Seat, Shared, Split, TableRule};
use sp_base::Keeps;

/// The rule over four words and one slot.
pub struct HubRule;

impl<B: Keeps> TableRule<Option<B>, Sight<B, B::Entry>, Origin<B>> for HubRule {
    ghost use Rattle.hub.specs.Rule.{Kept, founding_sight};

    ghost holds = { Kept B.stands_for B.fixed };

    ghost first = { founding_sight };
}

/// The table as threads share it.
pub(crate) type Line<B> = Shared<Option<B>, Sight<B, <B as Keeps>::Entry>, Origin<B>, HubRule>;

pub(crate) type Place<B> = Seat<Option<B>, Sight<B, <B as Keeps>::Entry>>;

pub(crate) struct Draw;

impl<B: Keeps> Play<Option<B>, Sight<B, B::Entry>> for Draw {
    ghost use Rattle.hub.specs.Steps.{drawn};

    ghost then = { drawn };
}

/// A look at serving.
pub(crate) struct Call;

impl<B: Keeps> Play<Option<B>, Sight<B, B::Entry>> for Call {
    ghost use Rattle.hub.specs.Steps.{called};

    ghost then = { called B.fixed };
}

/// A look at the length.
pub(crate) struct Look;

impl<B: Keeps> Play<Option<B>, Sight<B, B::Entry>> for Look {
    ghost use Rattle.hub.specs.Steps.{looked};

    ghost then = { looked B.stands_for };
}

pub(crate) struct Append;

impl<B: Keeps> Play<Option<B>, Sight<B, B::Entry>> for Append {
    ghost use Rattle.hub.specs.Steps.{appended};

    ghost then = { appended B.stands_for };
}

pub(crate) struct HandOn;

impl<B: Keeps> Play<Option<B>, Sight<B, B::Entry>> for HandOn {
    ghost use Rattle.hub.specs.Steps.{handed_on};

    ghost then = { handed_on };
}

/// A look at the length after a join.
pub(crate) struct Settle;

impl<B: Keeps> Play<Option<B>, Sight<B, B::Entry>> for Settle {
    ghost use Rattle.hub.specs.Steps.{settled};

    ghost then = { settled };
}

pub(crate) struct Enter;

impl<B: Keeps> Play<Option<B>, Sight<B, B::Entry>> for Enter {
    ghost use Rattle.hub.specs.Steps.{entered};

    ghost then = { entered };
}

pub(crate) struct Leave;

impl<B: Keeps> Play<Option<B>, Sight<B, B::Entry>> for Leave {
    ghost use Rattle.hub.specs.Steps.{left};

    ghost then = { left };
}

/// A look at the load.
pub(crate) struct Weigh;

impl<B: Keeps> Play<Option<B>, Sight<B, B::Entry>> for Weigh {
    ghost use Rattle.hub.specs.Steps.{weighed};

    ghost then = { weighed };
}

pub(crate) struct Cut;

impl<B: Keeps> Split<Sight<B, B::Entry>> for Cut {
    ghost use Rattle.hub.specs.Steps.{split_off};

    ghost left = { λ v. v };

    ghost right = { split_off };
}

pub(crate) struct Glue;

impl<B: Keeps> Join<Sight<B, B::Entry>> for Glue {
    ghost use Rattle.hub.specs.Steps.{joined, spent};

    ghost both = { joined };

    ghost spent = { spent };
}
