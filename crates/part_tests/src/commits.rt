//! How plans of the commit protocol grow, with two participants that vote yes on one transaction. A commit record that is refused is tried once more,
//! so neither failure is met by one fault or two.

use crate::growing::{Wanted, grown_on, have_grown, to_depth};
use commit_target::{Commit, LOST, SPLIT, Transactions, Variant, Vote, Votes};
use std::alloc::{AllocError, Global};
use std::process::Abort;
use std::test::Fail;

/// One transaction of two participants that both wish yes.
pub fn one_transaction(alloc: Global) -> Result<Transactions, AllocError> {
    let mut wishes = Vec::new(alloc);
    wishes.push(Vote::Yes)?;
    wishes.push(Vote::Yes)?;
    let mut transactions = Vec::new(alloc);
    transactions.push(Votes::new(wishes))?;
    Ok(Transactions::new(2, transactions))
}

/// After two refusals each participant is to be told commit. One that isn't, or that writes no record, inquires and is told abort; the other has
/// committed, unless the run halts before or the refusals go on.
#[test]
fn three_faults_split_and_lose_what_is_tried_twice(rt: HostRuntime) -> Result<(), Fail> {
    let alloc = rt.alloc();
    let workload = one_transaction(alloc)?;
    let target = Commit::new(alloc, Variant::TwoTries);
    for workers in [1, 3] {
        let Ok(grown) = grown_on(&rt, alloc, &target, &workload, to_depth(3, workers)) else {
            return Err(Fail::from("plans that don't grow"));
        };
        let wanted = Wanted {
            levels: &[1, 26, 66, 46],
            onward: 3,
            beyond: 20,
            causes: &[
                (109, SPLIT),
                (110, LOST),
                (111, SPLIT),
                (112, LOST),
                (114, SPLIT),
                (115, SPLIT),
                (116, SPLIT),
                (117, SPLIT),
                (118, SPLIT),
                (139, LOST),
                (140, LOST),
            ],
        };
        have_grown(&rt, &grown, &wanted);
    }
    Ok(())
}
