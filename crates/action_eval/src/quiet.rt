//! Many hits at once at which surely no fault acts and no word is drawn. Such hits are quiet.
ghost use Rattle.std.specs.Prelude.{◌≡◌, ℕ, true, false, List, ◌+◌, ◌*◌, ◌^◌, ◌<◌, ◌≤◌, [], slice_index, ◌∷◌, ◌++◌, All, IfOk, OnOk, OnErr, length, min, replicate, vec_len, vec_capacity};
ghost use Rattle.action_eval.specs.Answers.{rounds};
ghost use Rattle.action_eval.specs.inside.Quiet.{CountsWithin, IsCounted, Spent, SpentBy, head_at, quiet_of, taken_by};

use crate::found::Head;
use std::alloc::AllocError;
use std::mem;

/// How many of the next hits of a point are quiet, by its head.
#[inline(always)]
pub fn quiet_of(head: Head, left: &[u32]) -> u32
    requires { CountsWithin (length left.now) head }
    ensures { result ≡ quiet_of left.now head }
{
    match head {
        Head::Nothing => u32::MAX,
        Head::Off(at) => left[at],
        Head::Terms => 0,
    }
}

/// Makes up to `most` quiet hits of a point, and returns how many it made.
#[inline(always)]
pub fn pass_hits(
    heads: &[Head],
    left: &mut Vec<u32>,
    hits: &mut Vec<u32>,
    point: u32,
    most: usize,
) -> Result<usize, AllocError>
    requires known { point < length heads.now }
    requires within { CountsWithin (length left.old.items) (head_at heads.now point) }
    ensures count { IfOk result (λ n. n ≡ min (quiet_of left.old.items (head_at heads.now point)) most) }
    ensures left { IfOk result (λ n. Spent heads.now (point ∷ []) n left.old.items left.new.items) }
    ensures hits { IfOk result (λ n. hits.new.items ≡ hits.old.items ++ replicate n point) }
    ensures err_left { OnErr result (left.new.items ≡ left.old.items) }
    ensures err_hits { OnErr result (hits.new.items ≡ hits.old.items) }
{
    let head = heads[point as usize];
    let count = (quiet_of(head, left) as usize).min(most);
    hits.resize(hits.len() + count, point)?;
    if let Head::Off(at) = head {
        left[at] -= count as u32;
    }
    Ok(count)
}

/// Takes `times` quiet hits off the count at a head, and returns true. If not all of these hits are quiet, it takes nothing, and returns false.
#[inline(always)]
fn take_hits(left: &mut Vec<u32>, head: Head, times: u32) -> bool
    requires { CountsWithin (length left.old.items) head }
    ensures taken { result ≡ true → IsCounted head × SpentBy head times left.old.items left.new.items }
    ensures kept { result ≡ false → left.new.items ≡ left.old.items }
{
    match head {
        Head::Nothing => true,
        Head::Off(at) if left[at] >= times => {
            left[at] -= times;
            true
        }
        _ => false,
    }
}

/// Gives back to the count at a head what this many hits took.
fn give_hits(left: &mut Vec<u32>, head: Head, times: u32)
    requires { CountsWithin (length left.old.items) head }
    ensures size { length left.new.items ≡ length left.old.items }
    ensures each { (j : ℕ) → slice_index left.old.items j + times * taken_by j head < 2 ^ 32
        → slice_index left.new.items j ≡ slice_index left.old.items j + times * taken_by j head }
{
    if let Head::Off(at) = head {
        left[at] = left[at].saturating_add(times);
    }
}

/// Gives back to the counts what this many rounds of hits of these points took.
#[cold]
#[inline(never)]
fn give_rounds(left: &mut Vec<u32>, heads: &[Head], points: &[u32], times: u32)
    requires known { All (λ p. p < length heads.now) points.now }
    requires within { All (λ p. CountsWithin (length left.old.items) (head_at heads.now p)) points.now }
    ensures { (whole : List ℕ) → Spent heads.now points.now times whole left.old.items → ((j : ℕ) → slice_index whole j < 2 ^ 32) → left.new.items ≡ whole }
{
    for point in points {
        give_hits(left, heads[*point as usize], times);
    }
}

/// Takes `times` quiet rounds of hits of these points off the counts, and returns true. If not all of these hits are quiet, it takes nothing, and
/// returns false.
#[inline(always)]
fn take_rounds(left: &mut Vec<u32>, heads: &[Head], points: &[u32], times: u32) -> bool
    requires known { All (λ p. p < length heads.now) points.now }
    requires within { All (λ p. CountsWithin (length left.old.items) (head_at heads.now p)) points.now }
    ensures taken { result ≡ true → Spent heads.now points.now times left.old.items left.new.items }
    ensures kept { result ≡ false → left.new.items ≡ left.old.items }
{
    for (place, point) in points.iter().enumerate() {
        if !take_hits(left, heads[*point as usize], times) {
            give_rounds(left, heads, &points[..place], times);
            return false;
        }
    }
    true
}

/// How many rounds of hits of these points are quiet, looking at each point's own count by itself.
#[inline(always)]
fn rounds_left(left: &[u32], heads: &[Head], points: &[u32]) -> u32
    requires known { All (λ p. p < length heads.now) points.now }
    requires within { All (λ p. CountsWithin (length left.now) (head_at heads.now p)) points.now }
    ensures { All (λ p. result ≤ quiet_of left.now (head_at heads.now p)) points.now }
{
    let mut least = u32::MAX;
    for point in points {
        least = least.min(quiet_of(heads[*point as usize], left));
    }
    least
}

/// Takes up to `most` quiet rounds of hits of these points off the counts, and returns how many it took.
// Mostly all rounds are quiet, so that is tried first.
#[inline(always)]
fn take_most_rounds(left: &mut Vec<u32>, heads: &[Head], points: &[u32], most: u32) -> u32
    requires known { All (λ p. p < length heads.now) points.now }
    requires within { All (λ p. CountsWithin (length left.old.items) (head_at heads.now p)) points.now }
    ensures count { result ≤ most }
    ensures left { Spent heads.now points.now result left.old.items left.new.items }
{
    if take_rounds(left, heads, points, most) {
        return most;
    }
    let fewer = rounds_left(left, heads, points).min(most);
    if fewer > 0 && take_rounds(left, heads, points, fewer) {
        return fewer;
    }
    0
}

/// Adds a round of hits of these points. There has to be room for it.
#[inline(always)]
fn push_round(hits: &mut Vec<u32>, points: &[u32])
    requires { vec_len hits.old + length points.now ≤ vec_capacity hits.old }
    ensures items { hits.new.items ≡ hits.old.items ++ points.now }
    ensures len { vec_len hits.new ≡ vec_len hits.old + length points.now }
    ensures room { vec_capacity hits.new ≡ vec_capacity hits.old }
{
    for point in points {
        hits.push_reserved(*point);
    }
}

/// Adds `times` rounds of hits of these points, or nothing if memory is refused.
// They are added to a vector of the function's own: what is written into that doesn't change its length, as the compiler knows.
#[inline(always)]
fn push_rounds(hits: &mut Vec<u32>, points: &[u32], times: u32) -> Result<(), AllocError>
    requires { times * length points.now < 2 ^ 32 }
    ensures ok { OnOk result (hits.new.items ≡ hits.old.items ++ rounds times points.now) }
    ensures err { OnErr result (hits.new.items ≡ hits.old.items) }
{
    hits.reserve(times as usize * points.len())?;
    let alloc = *hits.allocator();
    let mut longer = mem::replace(hits, Vec::new(alloc));
    for _ in 0..times {
        push_round(&mut longer, points);
    }
    *hits = longer;
    Ok(())
}

/// Makes up to `most` quiet rounds of hits of these points, and returns how many it made.
#[inline(always)]
pub fn pass_points(
    heads: &[Head],
    left: &mut Vec<u32>,
    hits: &mut Vec<u32>,
    points: &[u32],
    most: u32,
) -> Result<u32, AllocError>
    requires known { All (λ p. p < length heads.now) points.now }
    requires within { All (λ p. CountsWithin (length left.old.items) (head_at heads.now p)) points.now }
    requires limit { most * length points.now < 2 ^ 32 }
    ensures count { IfOk result (λ n. n ≤ most) }
    ensures left { IfOk result (λ n. Spent heads.now points.now n left.old.items left.new.items) }
    ensures hits { IfOk result (λ n. hits.new.items ≡ hits.old.items ++ rounds n points.now) }
    ensures err_left { OnErr result (left.new.items ≡ left.old.items) }
    ensures err_hits { OnErr result (hits.new.items ≡ hits.old.items) }
{
    let count = take_most_rounds(left, heads, points, most);
    if count == 0 {
        return Ok(0);
    }
    if let Err(refused) = push_rounds(hits, points, count) {
        give_rounds(left, heads, points, count);
        return Err(refused);
    }
    Ok(count)
}
