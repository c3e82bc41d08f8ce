//! The queues of all workers, in a ring.
ghost use Rattle.std.specs.Prelude.{◌≡◌, ℕ, ◌+◌, ◌%◌, ◌<◌, ◌≤◌, Bool, All, None, ◌≢◌, IfOk, OnOk, IsSome, vec_len, slice_index_or};
ghost use Rattle.crossbeam_deque.specs.Handles.{worker_view};
ghost use Rattle.worker_pool.specs.declared.queue.LocalQueue.{LocalQueue};
ghost use Rattle.worker_pool.specs.inside.Ring.{next_of, IsRing, Fresh, Whole, TakenIn, IsSettled};
ghost use Rattle.worker_pool.specs.inside.Ring.{AreDealtBelow, KnowStolen, KnowsStolen, SameNextBut, SameOwns, SamePushed};

use crate::queue::LocalQueue;
use crate::ticket::Ticket;
use std::alloc::{AllocError, Global};

/// The place after k of n in the ring.
fn place_after(n: usize, k: usize) -> usize
    requires { k < n }
    ensures { result ≡ next_of n k }
{
    if k + 1 == n { 0 } else { k + 1 }
}

/// Takes the pass of queue k back into the next queue.
fn absorb_one(queues: &mut Vec<LocalQueue>, k: usize, next: usize)
    requires within { k < vec_len queues.old }
    requires next { next ≡ next_of (vec_len queues.old) k }
    requires ring { IsRing queues.old.items }
    ensures len { vec_len queues.new ≡ vec_len queues.old }
    ensures ring { IsRing queues.new.items }
    ensures none { (d : LocalQueue) → (slice_index_or queues.new.items k d).next ≡ None }
    ensures others { SameNextBut k queues.old.items queues.new.items }
    ensures stolen { (test : ℕ → Bool) (d : LocalQueue) → KnowsStolen test queues.old.items queues.new.items k next d }
    ensures still { (j : ℕ) (d : LocalQueue) → j ≢ next
        → (worker_view (slice_index_or queues.new.items j d).own).stolen ≡ (worker_view (slice_index_or queues.old.items j d).own).stolen }
    ensures each { SameOwns queues.old.items queues.new.items }
{
    let pass = queues[k].next.take();
    if let Some(pass) = pass {
        queues[next].take_in(pass);
    }
}

/// Takes each thief's pass back, so that each queue knows everything about its deque.
pub fn absorb_all(queues: &mut Vec<LocalQueue>)
    requires ring { IsRing queues.old.items }
    ensures len { vec_len queues.new ≡ vec_len queues.old }
    ensures whole { All TakenIn queues.new.items }
    ensures stolen { KnowStolen (vec_len queues.old) (vec_len queues.old) queues.old.items queues.new.items }
    ensures each { SameOwns queues.old.items queues.new.items }
{
    let n = queues.len();
    for k in 0..n {
        absorb_one(queues, k, place_after(n, k));
    }
}

/// Learns of one deque what it holds.
fn settle_one(mut queue: LocalQueue)
    requires { TakenIn queue }
    ensures { IsSettled queue }
{
    queue.settle();
}

/// Learns of all deques what they hold.
pub fn settle_all(queues: Vec<LocalQueue>)
    requires { All TakenIn queues.items }
    ensures { All IsSettled queues.items }
{
    for queue in queues {
        settle_one(queue);
    }
}

/// Makes the thief's pass of queue k at the next queue's deque.
fn link_one(queues: &mut Vec<LocalQueue>, k: usize, next: usize) -> Result<(), AllocError>
    requires within { k < vec_len queues.old }
    requires next { next ≡ next_of (vec_len queues.old) k }
    requires apart { k ≢ next }
    requires ring { IsRing queues.old.items }
    requires none { (d : LocalQueue) → (slice_index_or queues.old.items k d).next ≡ None }
    ensures len { vec_len queues.new ≡ vec_len queues.old }
    ensures ring { OnOk result (IsRing queues.new.items) }
    ensures here { OnOk result ((d : LocalQueue) → IsSome (slice_index_or queues.new.items k d).next) }
    ensures others { OnOk result (SameNextBut k queues.old.items queues.new.items) }
    ensures fresh { OnOk result ((count : ℕ) → All (Fresh count) queues.old.items → All (Fresh count) queues.new.items) }
    ensures pushed { OnOk result (SamePushed queues.old.items queues.new.items) }
{
    let pass = queues[next].share()?;
    queues[k].next = Some(pass);
    Ok(())
}

/// Makes all thieves' passes.
pub fn link_all(queues: &mut Vec<LocalQueue>, count: u32) -> Result<(), AllocError>
    requires whole { All (Whole count) queues.old.items }
    ensures len { vec_len queues.new ≡ vec_len queues.old }
    ensures ring { OnOk result (IsRing queues.new.items) }
    ensures linked { OnOk result (2 ≤ vec_len queues.old → All (λ d. IsSome d.next) queues.new.items) }
    ensures fresh { OnOk result (All (Fresh count) queues.new.items) }
    ensures pushed { OnOk result (SamePushed queues.old.items queues.new.items) }
{
    let n = queues.len();
    if n < 2 {
        return Ok(());
    }
    for k in 0..n {
        link_one(queues, k, place_after(n, k))?;
    }
    Ok(())
}

/// How many bytes are left free between the words of two deques, so that no two threads write to the same cache line. Processors fetch lines of 64
/// bytes in pairs.
const GAP: usize = 128;

/// Takes memory that nobody uses, so that what is taken next lies apart from what was taken before.
fn leave_gap(alloc: Global, gaps: &mut Vec<Vec<u8>>) -> Result<(), AllocError> {
    gaps.push(Vec::with_capacity(alloc, GAP)?)?;
    Ok(())
}

/// `n` queues with empty deques, each with room for its part of the tickets.
fn empty_queues(alloc: Global, n: usize, count: u32) -> Result<Vec<LocalQueue>, AllocError>
    requires { 0 < n }
    ensures { IfOk result (AreDealtBelow n count 0) }
{
    let mut queues = Vec::new(alloc);
    let mut gaps = Vec::new(alloc);
    for _made in 0..n {
        let queue = LocalQueue::new(alloc, count as usize / n + 1)?;
        queues.push(queue)?;
        leave_gap(alloc, &mut gaps)?;
    }
    Ok(queues)
}

/// Deals one ticket to queue k.
fn deal_one(queues: &mut Vec<LocalQueue>, k: usize, ticket: Ticket, count: u32)
    requires within { k < vec_len queues.old }
    requires round { k ≡ ticket % vec_len queues.old }
    requires below { ticket < count }
    requires dealt { AreDealtBelow (vec_len queues.old) count ticket queues.old }
    ensures { AreDealtBelow (vec_len queues.old) count (ticket + 1) queues.new }
{
    queues[k].deal(ticket);
}

/// Queues whose deques have the tickets below the count: ticket i is dealt to queue `i mod n`.
pub fn dealt_queues(alloc: Global, n: usize, count: u32) -> Result<Vec<LocalQueue>, AllocError>
    requires { 0 < n }
    ensures { IfOk result (AreDealtBelow n count count) }
{
    let mut queues = empty_queues(alloc, n, count)?;
    for number in 0..count {
        deal_one(&mut queues, number as usize % n, Ticket::new(number), count);
    }
    Ok(queues)
}
