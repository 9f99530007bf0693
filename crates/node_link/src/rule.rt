// The rule of an inbox: what the channel holds, and what each of its ends knows.
use crossbeam_channel::protocol::{Join, Lesson, Outcome, Protocol, Split};
use std::collections::LinkedList;

// A letter with the number of its sender.
#[derive(Drop)]
pub(crate) struct Tagged<L> {
    pub(crate) from: u32,
    pub(crate) letter: L,
}

// What a pass knows: a sender's what it put, the receiver's what it got and how many senders were made. No value of it
// is made.
pub(crate) struct View<L> {
    pub(crate) sends: bool,
    pub(crate) from: u32,
    pub(crate) put: LinkedList<L>,
    pub(crate) gets: bool,
    pub(crate) made: u32,
    pub(crate) got: LinkedList<Tagged<L>>,
}

// What each sender put is what the receiver got of it, and then what the channel holds of it.
pub(crate) struct InOrder;

impl<L> Protocol<Tagged<L>, View<L>> for InOrder {
    ghost use Rattle.std.specs.Prelude.{[]};
    ghost use Rattle.node_link.specs.Rule.{hub, Delivers};

    ghost holds = { Delivers };

    ghost first = { hub 0 [] };
}

// One more sender.
pub(crate) struct Seats;

impl<L> Split<View<L>> for Seats {
    ghost use Rattle.std.specs.Prelude.{[]};
    ghost use Rattle.node_link.specs.Rule.{one_more, sender};

    ghost left = { one_more };

    ghost right = { λ v. sender v.made [] };
}

// The receiver takes in what a sender knows.
pub(crate) struct Ends;

impl<L> Join<View<L>> for Ends {
    ghost use Rattle.node_link.specs.Rule.{beside, nobody};

    ghost both = { beside };

    ghost spent = { nobody };
}

// A letter was sent.
pub(crate) struct Sent;

impl<L> Outcome<Tagged<L>, View<L>> for Sent {
    ghost use Rattle.std.specs.Prelude.{◌≡◌};
    ghost use Rattle.node_link.specs.Rule.{with_put};

    ghost then = { λ v x w. w ≡ with_put v x };
}

impl<L> Lesson<Tagged<L>, View<L>> for Sent {
    ghost use Rattle.node_link.specs.Rule.{Nothing};

    ghost fact = { Nothing };
}

// A letter was taken.
pub(crate) struct Got;

impl<L> Outcome<Tagged<L>, View<L>> for Got {
    ghost use Rattle.std.specs.Prelude.{◌≡◌};
    ghost use Rattle.node_link.specs.Rule.{with_got};

    ghost then = { λ v x w. w ≡ with_got v x };
}

impl<L> Lesson<Tagged<L>, View<L>> for Got {
    ghost use Rattle.node_link.specs.Rule.{Nothing};

    ghost fact = { Nothing };
}

// What was taken is compared with what a sender sent.
pub(crate) struct Compared;

impl<L> Lesson<Tagged<L>, View<L>> for Compared {
    ghost use Rattle.node_link.specs.Rule.{Whole};

    ghost fact = { Whole };
}
