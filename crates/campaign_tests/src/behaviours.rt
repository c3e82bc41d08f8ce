//! All behaviours of a component, by walking its tree.

use crate::trees::{Component, Node};
use std::alloc::{AllocError, Global};
use target_trait::{Judgement, Verdict};

/// The answer to a hit.
#[derive(Clone, Copy, Debug, PartialEq, Eq)]
pub enum Reply {
    Go,
    Return,
    Halt,
}

/// A hit of a point, its number among the hits of that point, from 1, and its answer. A fault acts at it if it isn't answered `Go`.
#[derive(Clone, Copy, Debug, PartialEq, Eq)]
pub struct Hit {
    pub point: u32,
    pub ordinal: u32,
    pub reply: Reply,
}

/// What a component did, hit by hit, and the verdict.
#[derive(Debug, Drop)]
pub struct Behaviour {
    pub hits: Vec<Hit>,
    pub verdict: Verdict,
}

/// How the hits of a point are answered, from one of its hits up to another, or from then on.
#[derive(Clone, Copy, Debug, PartialEq, Eq)]
pub struct Fault {
    pub point: u32,
    pub first: u32,
    pub last: Option<u32>,
    pub reply: Reply,
}

impl Fault {
    /// The fault that acted at a hit.
    pub fn at(hit: &Hit) -> Self {
        Fault {
            point: hit.point,
            first: hit.ordinal,
            last: Some(hit.ordinal),
            reply: hit.reply,
        }
    }

    /// Whether it is there for this hit of a point.
    fn meets(&self, point: u32, ordinal: u32) -> bool {
        let is_early = match self.last {
            Some(last) => ordinal <= last,
            None => true,
        };
        self.point == point && self.first <= ordinal && is_early
    }
}

/// How many hits of a point are among these.
pub fn hits_of(hits: &[Hit], point: u32) -> u32 {
    let mut count = 0;
    for hit in hits {
        if hit.point == point {
            count += 1;
        }
    }
    count
}

/// At how many of these hits a fault acts.
pub fn acting(hits: &[Hit]) -> u32 {
    let mut count = 0;
    for hit in hits {
        if hit.reply != Reply::Go {
            count += 1;
        }
    }
    count
}

/// What a judgement comes to at the end.
fn verdict_of(judgement: Judgement) -> Verdict {
    match judgement {
        Judgement::Kept => Verdict::Pass,
        Judgement::Broken(code) => Verdict::Fail(code),
    }
}

/// The verdict of a behaviour that is over at a node: what is judged there; unresolved if the node still asks.
fn verdict_at(node: Node) -> Verdict {
    match node {
        Node::End(judgement) => verdict_of(judgement),
        Node::Ask { .. } => Verdict::Unresolved,
    }
}

/// Adds a behaviour of these hits.
fn add(all: &mut Vec<Behaviour>, hits: &[Hit], verdict: Verdict) -> Result<(), AllocError> {
    let hits = Vec::from_slice(*all.allocator(), hits)?;
    all.push(Behaviour { hits, verdict })?;
    Ok(())
}

/// Adds all behaviours that begin with these hits and are at this node after them. `hits` is as before afterwards.
fn add_from(
    all: &mut Vec<Behaviour>,
    component: &Component<'_>,
    hits: &mut Vec<Hit>,
    at: usize,
) -> Result<(), AllocError> {
    let node = component.nodes[at];
    let Node::Ask {
        point,
        goes,
        returns,
        panics,
    } = node
    else {
        return add(all, hits.as_slice(), verdict_at(node));
    };
    if hits.len() == component.limit as usize {
        return add(all, hits.as_slice(), verdict_at(node));
    }
    let ordinal = hits_of(hits.as_slice(), point) + 1;
    for (reply, next) in [(Reply::Go, goes), (Reply::Return, returns)] {
        hits.push(Hit {
            point,
            ordinal,
            reply,
        })?;
        add_from(all, component, hits, next)?;
        hits.pop();
    }
    if component.tries_panics(point) {
        hits.push(Hit {
            point,
            ordinal,
            reply: Reply::Halt,
        })?;
        add(all, hits.as_slice(), verdict_of(panics))?;
        hits.pop();
    }
    Ok(())
}

/// All behaviours of a component in which the faults that act are of the kinds that are tried.
pub fn all_behaviours(
    alloc: Global,
    component: &Component<'_>,
) -> Result<Vec<Behaviour>, AllocError> {
    let mut all = Vec::new(alloc);
    let mut hits = Vec::new(alloc);
    add_from(&mut all, component, &mut hits, component.root)?;
    Ok(all)
}

/// How these faults answer a hit of a point. If none of them is there for the hit, it goes on.
fn reply_by(faults: &[Fault], point: u32, ordinal: u32) -> Reply {
    for fault in faults {
        if fault.meets(point, ordinal) {
            return fault.reply;
        }
    }
    Reply::Go
}

/// The verdict of a component whose hits these faults answer.
pub fn verdict_by(component: &Component<'_>, faults: &[Fault]) -> Verdict {
    let mut counts = [0, 0];
    let mut at = component.root;
    for _ in 0..component.limit {
        let Node::Ask {
            point,
            goes,
            returns,
            panics,
        } = component.nodes[at]
        else {
            return verdict_at(component.nodes[at]);
        };
        counts[point as usize] += 1;
        match reply_by(faults, point, counts[point as usize]) {
            Reply::Go => at = goes,
            Reply::Return => at = returns,
            Reply::Halt => return verdict_of(panics),
        }
    }
    verdict_at(component.nodes[at])
}
