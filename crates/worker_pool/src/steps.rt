//! The steps at a queue.
ghost use Rattle.std.specs.Prelude.{◌≡◌, ℕ, ◌+◌, ◌<◌, ◌≤◌, Bool, [], ◌∷◌, count_by, IfOk, OnOk, IfSome, IfNone};
ghost use Rattle.crossbeam_deque.specs.Handles.{view, IsPassOf, stealer_deque, worker_deque, worker_view, worker_index, worker_capacity};
ghost use Rattle.worker_pool.specs.inside.Queues.{took, Below, SameButOwn, SameQueue};
ghost use Rattle.worker_pool.specs.inside.Parts.{view_of, owner_of, thief_of, joined, more_pushed, more_popped, more_stolen, AllTaken, IsAmong};
ghost use Rattle.worker_pool.specs.inside.Ring.{IsSettled, TakenIn};

use crate::queue::{LocalQueue, Next};
use crate::rule::{Owner, Pops, Puts, Shared, StealPass, Steals, Thief, Total};
use crate::ticket::Ticket;
use crossbeam_deque::Steal;
use std::alloc::{AllocError, Global};
use std::sync::Wait;
use std::thread;

impl LocalQueue {
    /// A queue with an empty deque that has room for this many tickets.
    pub fn new(alloc: Global, room: usize) -> Result<LocalQueue, AllocError>
        ensures view { IfOk result (λ d. worker_view d.own ≡ view_of 1 1 [] [] []) }
        ensures next { IfOk result (λ d. d.next ≡ None) }
        ensures kept { IfOk result (λ d. d.kept ≡ None) }
        ensures room { IfOk result (λ d. (room ≤ worker_capacity d.own) × (worker_index d.own ≡ 0)) }
    {
        let own = Owner::fifo_as(alloc, room)?;
        Ok(LocalQueue {
            own,
            next: None,
            kept: None,
        })
    }

    /// Puts a ticket at the back, in room that was reserved.
    pub fn deal(&mut self, ticket: Ticket)
        requires alone { 0 < (worker_view self.old.own).steal_right }
        requires room { worker_index self.old.own < worker_capacity self.old.own }
        ensures same { SameButOwn self.old self.new }
        ensures view { worker_view self.new.own ≡ more_pushed (ticket ∷ []) (worker_view self.old.own) }
        ensures room { (worker_index self.new.own ≡ worker_index self.old.own + 1) × (worker_capacity self.old.own ≤ worker_capacity self.new.own) }
    {
        let Ok(()) = self.own.push_as::<Puts>(ticket) else {
            unreachable!()
        };
    }

    /// Makes the thief's pass at this queue's deque.
    pub fn share(&mut self) -> Result<Next, AllocError>
        requires { 0 < (worker_view self.old.own).steal_right }
        ensures same { SameButOwn self.old self.new }
        ensures own { OnOk result (worker_view self.new.own ≡ owner_of (worker_view self.old.own)) }
        ensures next { IfOk result (λ n. view n.pass ≡ thief_of (worker_view self.old.own)) }
        ensures from { IfOk result (λ n. stealer_deque n.from ≡ worker_deque self.old.own) }
    {
        let from = self.own.stealer()?;
        let pass = self.own.another::<Shared>();
        Ok(Next { from, pass })
    }

    /// Takes back the thief's pass.
    pub fn take_in(&mut self, next: Next)
        requires { stealer_deque next.from ≡ worker_deque self.old.own }
        ensures same { SameButOwn self.old self.new }
        ensures view { worker_view self.new.own ≡ joined (worker_view self.old.own) (view next.pass) }
    {
        let Next { from, pass } = next;
        self.own.absorb::<Shared>(pass);
        drop(from);
    }

    /// Learns what the deque holds: some moves lead to that, and to everything that the queue knows.
    pub fn settle(&mut self)
        requires { TakenIn self.old }
        ensures { IsSettled self.old }
    {
        let _held = self.own.len_as::<Total>();
    }

    /// Takes the front of the queue's own deque.
    pub fn pop(&mut self) -> Option<Ticket>
        ensures same { SameQueue self.old self.new × (self.new.next ≡ self.old.next) × (self.new.kept ≡ self.old.kept) }
        ensures some { IfSome result (λ x. worker_view self.new.own ≡ more_popped (x ∷ []) (worker_view self.old.own)) }
        ensures among { IfSome result (λ x. IsAmong (x ∷ []) (worker_view self.old.own)) }
        ensures same_view { IfNone result (worker_view self.new.own ≡ worker_view self.old.own) }
        ensures none { IfNone result (0 < (worker_view self.old.own).steal_right → AllTaken (worker_view self.old.own)) }
    {
        self.own.pop_as::<Pops>()
    }

    /// Takes a ticket from the queue's own deque, or else from the next one.
    pub fn find<R: Wait>(&mut self, rt: &R) -> Option<Ticket>
        ensures same { SameQueue self.old self.new × (self.new.kept ≡ self.old.kept) }
        ensures some { IfSome result (λ x. (test : ℕ → Bool) → took test self.new ≡ took test self.old + count_by test (x ∷ [])) }
        ensures none { IfNone result ((test : ℕ → Bool) → took test self.new ≡ took test self.old) }
        ensures below { (count : ℕ) → Below count self.old → IfSome result (λ x. x < count) }
    {
        let own = self.pop();
        if own.is_some() {
            return own;
        }
        let Some(next) = self.next.take() else {
            return None;
        };
        let Next { from, mut pass } = next;
        let found = steal(rt, &from, &mut pass);
        self.next = Some(Next { from, pass });
        found
    }
}

/// Takes the front of the deque, and tries again if another was first.
fn steal<R: Wait>(rt: &R, from: &Thief, pass: &mut StealPass) -> Option<Ticket>
    requires table { IsPassOf (stealer_deque from.now) pass.old }
    requires right { 0 < (view pass.old).steal_right }
    ensures table { IsPassOf (stealer_deque from.now) pass.new }
    ensures some { IfSome result (λ x. view pass.new ≡ more_stolen (x ∷ []) (view pass.old)) }
    ensures among { IfSome result (λ x. IsAmong (x ∷ []) (view pass.old)) }
    ensures none { IfNone result (view pass.new ≡ view pass.old) }
{
    for _ in rt.forever() {
        match from.steal_as::<Steals>(pass) {
            Steal::Success(x) => return Some(x),
            Steal::Empty => return None,
            Steal::Retry => thread::yield_now(),
        }
    }
    unreachable!()
}
