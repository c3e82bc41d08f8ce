//! What a report of a campaign with a depth promises, checked over all behaviours of a component.

use crate::behaviours::{
    Behaviour, Fault, Hit, Reply, acting, all_behaviours, hits_of, verdict_by,
};
use crate::told::{Finding, Told};
use crate::trees::{Component, POINTS};
use std::alloc::{AllocError, Global};
use target_trait::Verdict;

/// What a report promises.
#[derive(Clone, Copy, Debug, PartialEq, Eq)]
pub enum Promise {
    /// Each behaviour in which at most as many faults act as the depth says is that of exactly one number of the levels, with its verdict.
    NothingSkipped,
    /// There are as many numbers as the report says, and no two have the same behaviour.
    NothingTwice,
    /// Each behaviour in which fewer faults act and then, from one hit on, all of its point return is that of exactly one number.
    FromThenOn,
    /// If no plan lies beyond, each behaviour is that of exactly one number of the levels.
    Whole,
    /// Each code with which a number fails has exactly one finding.
    EachIsFound,
    /// A finding is the least number with its code; what it is reduced to fails with the code, and doesn't without any one of its faults.
    IsReduced,
    /// A finding of the levels keeps every fault, and no behaviour in which fewer act fails with its code.
    IsFewest,
    /// Each number of the levels that fails has a listed cause, by faults among its own.
    IsCaused,
    /// A cause fails with its code, and doesn't without any one of its faults, a sticky one too.
    IsCause,
    /// Each number that fails, and doesn't without any one of its faults, is listed as a cause, once, in the order of the numbers.
    AreListed,
    /// In the behaviour of a number behind the levels, fewer faults act than the depth says, then a hit returns, and later only all hits of its point do.
    AreSticky,
    /// The number that is printed of a point is the most hits of it in the behaviour of a number.
    IsReached,
    /// At each number of a level as many faults act as the level's number says, and the level after the last one would have as many as `beyond` says.
    HasSizes,
}

pub const PROMISES: [Promise; 13] = [
    Promise::NothingSkipped,
    Promise::NothingTwice,
    Promise::FromThenOn,
    Promise::Whole,
    Promise::EachIsFound,
    Promise::IsReduced,
    Promise::IsFewest,
    Promise::IsCaused,
    Promise::IsCause,
    Promise::AreListed,
    Promise::AreSticky,
    Promise::IsReached,
    Promise::HasSizes,
];

/// A component with all its behaviours, and what its report says.
#[derive(Drop)]
struct Checked<'a> {
    component: &'a Component<'a>,
    all: &'a [Behaviour],
    told: &'a Told,
}

/// The faults that act at these hits.
fn faults_of(alloc: Global, hits: &[Hit]) -> Result<Vec<Fault>, AllocError> {
    let mut faults = Vec::new(alloc);
    for hit in hits {
        if hit.reply != Reply::Go {
            faults.push(Fault::at(hit))?;
        }
    }
    Ok(faults)
}

/// These faults without one of them.
fn without(alloc: Global, faults: &[Fault], left: usize) -> Result<Vec<Fault>, AllocError> {
    let mut others = Vec::from_slice(alloc, faults)?;
    others.remove(left);
    Ok(others)
}

/// Makes the last of these faults sticky. A return at the hit of its point just before it is a part of it then, as `1*return->return` is `return`.
fn make_last_sticky(faults: &mut Vec<Fault>) -> Result<(), AllocError> {
    let Some(mut sticky) = faults.pop() else {
        return Ok(());
    };
    sticky.last = None;
    while let Some(place) = faults.iter().position(|it| {
        it.point == sticky.point && it.first + 1 == sticky.first && it.reply == Reply::Return
    }) {
        faults.remove(place);
        sticky.first -= 1;
    }
    faults.push(sticky)?;
    Ok(())
}

/// Whether each of the first faults is one of the second ones.
fn are_among(some: &[Fault], all: &[Fault]) -> bool {
    some.iter().all(|fault| all.contains(fault))
}

/// Whether, from one hit on after fewer acting faults than this, each hit of its point returns and each other one goes on.
fn returns_from_one_on(hits: &[Hit], depth: u32) -> bool {
    for (place, from) in hits.iter().enumerate() {
        let is_early = acting(&hits[..place]) < depth;
        let returns = hits[place..].iter().all(|hit| (hit.reply == Reply::Return)
            == (hit.point == from.point));
        let halts = hits[place..].iter().any(|hit| hit.reply == Reply::Halt);
        if is_early && returns && !halts {
            return true;
        }
    }
    false
}

impl Checked<'_> {
    /// How many numbers the levels have.
    fn of_levels(&self) -> usize {
        let mut count = 0;
        for size in &self.told.levels {
            count += *size as usize;
        }
        count
    }

    /// How many numbers there are.
    fn of_all(&self) -> usize {
        self.of_levels() + self.told.onward as usize
    }

    /// Whether exactly one number below this one has a behaviour, and its verdict.
    fn is_told_once(&self, below: usize, behaviour: &Behaviour) -> bool {
        let mut times = 0;
        let mut is_alike = true;
        for told in self.told.behaviours.iter().take(below) {
            if told.hits.as_slice() == behaviour.hits.as_slice() {
                times += 1;
                is_alike = is_alike && told.verdict == behaviour.verdict;
            }
        }
        times == 1 && is_alike
    }

    /// Whether the number with these facts fails with a code.
    fn fails_with(&self, number: u32, code: u32) -> bool {
        match self.told.behaviours.as_slice().get(number as usize) {
            Some(told) => told.verdict == Verdict::Fail(code),
            None => false,
        }
    }

    fn skips_nothing(&self) -> bool {
        let below = self.of_levels();
        self.all
            .iter()
            .filter(|it| acting(it.hits.as_slice()) <= self.told.depth)
            .all(|it| self.is_told_once(below, it))
    }

    fn tells_nothing_twice(&self) -> bool {
        let told = self.told.behaviours.as_slice();
        for (number, one) in told.iter().enumerate() {
            let others = &told[number + 1..];
            if others
                .iter()
                .any(|it| it.hits.as_slice() == one.hits.as_slice())
            {
                return false;
            }
        }
        told.len() == self.of_all() && self.told.levels.len() == self.told.depth as usize + 1
    }

    fn tells_from_then_on(&self) -> bool {
        let below = self.of_all();
        self.all
            .iter()
            .filter(|it| returns_from_one_on(it.hits.as_slice(), self.told.depth))
            .all(|it| self.is_told_once(below, it))
    }

    fn is_whole(&self) -> bool {
        let below = self.of_levels();
        self.told.beyond > 0 || self.all.iter().all(|it| self.is_told_once(below, it))
    }

    /// Whether each code of these verdicts has exactly one of the findings.
    fn finds_each(&self, findings: &[Finding]) -> bool {
        for told in &self.told.behaviours {
            let Verdict::Fail(code) = told.verdict else {
                continue;
            };
            if findings.iter().filter(|it| it.code == code).count() != 1 {
                return false;
            }
        }
        true
    }

    fn is_reduced(&self, alloc: Global, finding: &Finding) -> Result<bool, AllocError> {
        let fails = Verdict::Fail(finding.code);
        let reduced = finding.reduced.as_slice();
        let is_least = (0..finding.number).all(|it| !self.fails_with(it, finding.code));
        if !self.fails_with(finding.number, finding.code) || !is_least {
            return Ok(false);
        }
        if verdict_by(self.component, reduced) != fails {
            return Ok(false);
        }
        for left in 0..reduced.len() {
            let others = without(alloc, reduced, left)?;
            if verdict_by(self.component, others.as_slice()) == fails {
                return Ok(false);
            }
        }
        Ok(true)
    }

    fn is_fewest(&self, alloc: Global, finding: &Finding) -> Result<bool, AllocError> {
        if finding.number as usize >= self.of_levels() {
            return Ok(true);
        }
        let Some(told) = self.told.behaviours.as_slice().get(finding.number as usize) else {
            return Ok(false);
        };
        let own = faults_of(alloc, told.hits.as_slice())?;
        let keeps_all = are_among(own.as_slice(), finding.reduced.as_slice())
            && are_among(finding.reduced.as_slice(), own.as_slice())
            && own.len() == finding.reduced.len();
        let is_least = self
            .all
            .iter()
            .filter(|it| acting(it.hits.as_slice()) < own.len() as u32)
            .all(|it| it.verdict != Verdict::Fail(finding.code));
        Ok(keeps_all && is_least)
    }

    /// Whether a cause is listed with this code whose faults are among these.
    fn has_cause(&self, alloc: Global, code: u32, faults: &[Fault]) -> Result<bool, AllocError> {
        for (number, of) in &self.told.causes {
            let Some(cause) = self.told.behaviours.as_slice().get(*number as usize) else {
                continue;
            };
            let own = faults_of(alloc, cause.hits.as_slice())?;
            if *of == code && are_among(own.as_slice(), faults) {
                return Ok(true);
            }
        }
        Ok(false)
    }

    fn is_caused(&self, alloc: Global) -> Result<bool, AllocError> {
        for told in self.told.behaviours.iter().take(self.of_levels()) {
            let Verdict::Fail(code) = told.verdict else {
                continue;
            };
            let own = faults_of(alloc, told.hits.as_slice())?;
            if !self.has_cause(alloc, code, own.as_slice())? {
                return Ok(false);
            }
        }
        Ok(true)
    }

    /// The faults of a number: those that act in its behaviour, and behind the levels as many as the depth says, of which the last one is sticky.
    fn own_faults(&self, alloc: Global, number: u32) -> Result<Vec<Fault>, AllocError> {
        let hits = self.told.behaviours[number as usize].hits.as_slice();
        let mut own = faults_of(alloc, hits)?;
        if number as usize >= self.of_levels() {
            own.truncate(self.told.depth as usize);
            make_last_sticky(&mut own)?;
        }
        Ok(own)
    }

    /// Whether a number doesn't fail with the code without any one of its faults.
    fn needs_each(&self, alloc: Global, number: u32, code: u32) -> Result<bool, AllocError> {
        let own = self.own_faults(alloc, number)?;
        for left in 0..own.len() {
            let others = without(alloc, own.as_slice(), left)?;
            if verdict_by(self.component, others.as_slice()) == Verdict::Fail(code) {
                return Ok(false);
            }
        }
        Ok(true)
    }

    fn is_cause(&self, alloc: Global, number: u32, code: u32) -> Result<bool, AllocError> {
        let fails = (number as usize) < self.of_all() && self.fails_with(number, code);
        Ok(fails && self.needs_each(alloc, number, code)?)
    }

    fn lists_each(&self, alloc: Global) -> Result<bool, AllocError> {
        for (number, told) in self.told.behaviours.iter().enumerate() {
            let Verdict::Fail(code) = told.verdict else {
                continue;
            };
            let number = number as u32;
            if self.needs_each(alloc, number, code)?
                && !self.told.causes.as_slice().contains(&(number, code))
            {
                return Ok(false);
            }
        }
        let causes = self.told.causes.as_slice();
        Ok(causes.windows(2).all(|two| two[0].0 < two[1].0))
    }

    fn is_sticky(&self) -> bool {
        self.told.behaviours.iter().skip(self.of_levels()).all(|told| returns_from_one_on(
            told.hits.as_slice(),
            self.told.depth,
        ))
    }

    fn lists_causes(&self, alloc: Global) -> Result<bool, AllocError> {
        for (number, code) in &self.told.causes {
            if !self.is_cause(alloc, *number, *code)? {
                return Ok(false);
            }
        }
        Ok(true)
    }

    fn is_reached(&self) -> bool {
        for point in 0..POINTS {
            let mut most = 0;
            for told in &self.told.behaviours {
                most = most.max(hits_of(told.hits.as_slice(), point));
            }
            if self.told.reached.as_slice().get(point as usize) != Some(&most) {
                return false;
            }
        }
        self.told.reached.len() == POINTS as usize
    }

    fn has_sizes(&self) -> bool {
        let mut numbers = self.told.behaviours.iter();
        for (level, size) in self.told.levels.iter().enumerate() {
            for _ in 0..*size {
                let Some(told) = numbers.next() else {
                    return false;
                };
                if acting(told.hits.as_slice()) as usize != level {
                    return false;
                }
            }
        }
        let next = self
            .all
            .iter()
            .filter(|it| acting(it.hits.as_slice()) == self.told.depth + 1);
        next.count() as u64 == self.told.beyond
    }

    /// Whether a promise of the findings is kept.
    fn keeps_of_findings(
        &self,
        alloc: Global,
        findings: &[Finding],
        promise: Promise,
    ) -> Result<bool, AllocError> {
        if promise == Promise::EachIsFound {
            return Ok(self.finds_each(findings));
        }
        for finding in findings {
            let holds = if promise == Promise::IsReduced {
                self.is_reduced(alloc, finding)?
            } else {
                self.is_fewest(alloc, finding)?
            };
            if !holds {
                return Ok(false);
            }
        }
        Ok(true)
    }

    fn keeps(&self, alloc: Global, promise: Promise) -> Result<bool, AllocError> {
        match promise {
            Promise::NothingSkipped => Ok(self.skips_nothing()),
            Promise::NothingTwice => Ok(self.tells_nothing_twice()),
            Promise::FromThenOn => Ok(self.tells_from_then_on()),
            Promise::Whole => Ok(self.is_whole()),
            Promise::EachIsFound | Promise::IsReduced | Promise::IsFewest => {
                match &self.told.findings {
                    Some(findings) => self.keeps_of_findings(alloc, findings.as_slice(), promise),
                    None => Ok(true),
                }
            }
            Promise::IsCaused => self.is_caused(alloc),
            Promise::IsCause => self.lists_causes(alloc),
            Promise::AreListed => self.lists_each(alloc),
            Promise::AreSticky => Ok(self.is_sticky()),
            Promise::IsReached => Ok(self.is_reached()),
            Promise::HasSizes => Ok(self.has_sizes()),
        }
    }
}

/// The promises that a component's report breaks, found by looking at all its behaviours.
pub fn broken_promises(
    alloc: Global,
    component: &Component<'_>,
    told: &Told,
) -> Result<Vec<Promise>, AllocError> {
    let all = all_behaviours(alloc, component)?;
    let checked = Checked {
        component,
        all: all.as_slice(),
        told,
    };
    let mut broken = Vec::new(alloc);
    for promise in PROMISES {
        if !checked.keeps(alloc, promise)? {
            broken.push(promise)?;
        }
    }
    Ok(broken)
}
