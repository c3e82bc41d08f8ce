//! Calls made in threads of their own, while the caller's thread waits.
ghost use Rattle.std.specs.Prelude.{◌≡◌};
ghost use denote.Param.Send.{IsSync, IsSend};
ghost use Rattle.worker_pool.specs.inside.Apart.{Accepts, AcceptsAll, Changes, ChangesAll};

use std::thread::{Threads, join_mut, yield_now};

/// Calls f with each element, each time in a thread of its own, if one can be made, while the caller's thread waits.
///
/// `std::thread::for_each_mut` would have the caller's thread make a call too. But Linux may start a thread on the processor of its starter, and move
/// one of the two only milliseconds later. If both work, each runs at half its speed until then. A thread also gives way to its starter before its
/// call, so that it doesn't hold up the start of the others.
#[cycle(calls)]
pub fn for_each_apart<R: Threads + Sync, T: Send, F: Fn(&mut T) + Sync>(
    rt: &R,
    f: &F,
    items: &mut [T],
)
    requires { AcceptsAll F.Fn f.now items.old }
    ensures { ChangesAll F.Fn f.now items.old items.new }
{
    match items.split_first_mut() {
        Some((first, rest)) => call_both(rt, f, first, rest),
        None => {}
    }
}

// It is a function of its own, so that what the closures require is what this function is given.
#[cycle(calls)]
fn call_both<R: Threads + Sync, T: Send, F: Fn(&mut T) + Sync>(
    rt: &R,
    f: &F,
    first: &mut T,
    rest: &mut [T],
)
    requires first { Accepts F.Fn f.now first.old }
    requires rest { AcceptsAll F.Fn f.now rest.old }
    ensures first { Changes F.Fn f.now first.old first.new }
    ensures rest { ChangesAll F.Fn f.now rest.old rest.new }
{
    let mut one = ||
        requires { Accepts F.Fn f.now first.now }
        ensures { Changes F.Fn f.entry.now first.entry.now first.exit.now }
    {
        yield_now();
        call(f, first)
    };
    let mut others = ||
        requires { IsSync R.row × IsSync F.row × IsSend T.row × AcceptsAll F.Fn f.now rest.now }
        ensures { ChangesAll F.Fn f.entry.now rest.entry.now rest.exit.now }
    { for_each_apart(rt, f, rest) };
    join_mut(rt, &mut one, &mut others);
}

/// One call.
fn call<T, F: Fn(&mut T)>(f: &F, item: &mut T)
    requires { Accepts F.Fn f.now item.old }
    ensures { Changes F.Fn f.now item.old item.new }
{
    f(item)
}
