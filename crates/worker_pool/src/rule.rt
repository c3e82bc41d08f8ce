//! The rule of one deque, and the kinds of steps that keep it: what was pushed is what its owner popped, what its thief stole and what it holds, each
//! once.
ghost use Rattle.std.specs.Prelude.{◌≡◌, ◌<◌};
ghost use Rattle.worker_pool.specs.inside.Parts.{more_pushed, more_popped, more_stolen, AllTaken, IsAmong, IsWhole};

use crate::ticket::Ticket;
use crossbeam_deque::protocol::{Join, Lesson, Outcome, Protocol, Split};
use crossbeam_deque::{Pass, Stealer, Worker};
use std::alloc::Global;
use std::collections::LinkedList;

/// What a pass knows: its rights to pop and to steal (each deque has one of each), what was pushed, and what was popped and stolen by these rights.
/// It is for contracts alone: no value of it is made.
pub struct View {
    pub pop_right: u64,
    pub steal_right: u64,
    pub pushed: LinkedList<Ticket>,
    pub popped: LinkedList<Ticket>,
    pub stolen: LinkedList<Ticket>,
}

/// The rule. The owner's pass begins with both rights.
pub struct Fair;

impl Protocol<Ticket, View> for Fair {
    ghost use Rattle.std.specs.Prelude.{[]};
    ghost use Rattle.worker_pool.specs.inside.Parts.{view_of, Dealt};

    ghost holds = { Dealt };

    ghost first = { view_of 1 1 [] [] [] };

    ghost guest = { view_of 0 0 [] [] [] };
}

/// A push, before the other pass is made.
pub struct Puts;

impl Outcome<Ticket, View> for Puts {
    ghost then = { λ v xs w. w ≡ more_pushed xs v };
}

/// The owner takes something that was pushed. If it has both rights, it finds nothing only if everything that was pushed was taken.
pub struct Pops;

impl Outcome<Ticket, View> for Pops {
    ghost then = { λ v xs w. (w ≡ more_popped xs v) × IsAmong xs v };

    ghost empty = { λ v. 0 < v.steal_right → AllTaken v };
}

/// The thief takes something that was pushed.
pub struct Steals;

impl Outcome<Ticket, View> for Steals {
    ghost then = { λ v xs w. (w ≡ more_stolen xs v) × IsAmong xs v };
}

/// The owner makes the thief's pass, and takes it back. The thief knows from the start what was pushed, and so that what it steals was pushed.
pub struct Shared;

impl Split<View> for Shared {
    ghost use Rattle.worker_pool.specs.inside.Parts.{owner_of, thief_of};

    ghost left = { owner_of };

    ghost right = { thief_of };
}

impl Join<View> for Shared {
    ghost use Rattle.std.specs.Prelude.{[]};
    ghost use Rattle.worker_pool.specs.inside.Parts.{view_of, joined};

    ghost both = { joined };

    ghost spent = { view_of 0 0 [] [] [] };
}

/// What the pass with both rights learns: some moves lead to everything that it knows, and to what the deque holds.
pub struct Total;

impl Lesson<Ticket, View> for Total {
    ghost fact = { λ v items. IsWhole v items };
}

/// The owner's end of a deque.
pub type Owner = Worker<Ticket, Global, View, Fair>;

/// The thief's end.
pub type Thief = Stealer<Ticket, Global, View, Fair>;

/// The thief's pass.
pub type StealPass = Pass<Ticket, View>;
