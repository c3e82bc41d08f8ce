//! Components that are trees of decisions: each hit asks one of two points, and its answer leads on.

use std::alloc::{AllocError, Global};
use std::fmt::Write;
use target_trait::{Answer, Judgement, Session, Target};

/// What comes next in a component.
#[derive(Clone, Copy, Debug)]
pub enum Node {
    /// It is at its end.
    End(Judgement),
    /// It asks a point. Two nodes, by their places, say what comes next if the hit goes on and if it returns. If it panics, the component is at its
    /// end.
    Ask {
        point: u32,
        goes: usize,
        returns: usize,
        panics: Judgement,
    },
}

/// How many points there are.
pub const POINTS: u32 = 2;

/// A component: a tree among the nodes of a forest, and the most hits of a run.
#[derive(Clone, Copy)]
pub struct Component<'a> {
    pub nodes: &'a [Node],
    pub root: usize,
    pub limit: u32,
    /// Whether returns alone are tried at the second point, as at the point of a power cut.
    pub has_cut: bool,
}

impl Component<'_> {
    /// The name of a point.
    pub fn point_name(&self, point: u32) -> &'static str {
        match (point, self.has_cut) {
            (0, _) => "tree::a",
            (_, false) => "tree::b",
            (_, true) => "power::keep",
        }
    }

    /// Whether panics are tried at a point.
    pub fn tries_panics(&self, point: u32) -> bool {
        point == 0 || !self.has_cut
    }

    /// Appends what it does from a node on, as `a[b[kept, broken 1, kept], kept, kept]`: the point that it asks, and what comes if that goes on,
    /// returns or panics.
    pub fn write(&self, out: &mut String, at: usize) -> Result<(), AllocError> {
        match self.nodes[at] {
            Node::End(judgement) => write_judgement(out, judgement),
            Node::Ask {
                point,
                goes,
                returns,
                panics,
            } => {
                out.push_str(if point == 0 { "a[" } else { "b[" })?;
                self.write(out, goes)?;
                out.push_str(", ")?;
                self.write(out, returns)?;
                out.push_str(", ")?;
                write_judgement(out, panics)?;
                out.push_str("]")
            }
        }
    }
}

fn write_judgement(out: &mut String, judgement: Judgement) -> Result<(), AllocError> {
    match judgement {
        Judgement::Kept => out.push_str("kept"),
        Judgement::Broken(code) => write!(out, "broken {code}"),
    }
}

/// The target that is such a component. At the second point of one with a cut returns alone are tried, since its name is that of a power cut.
// Ghost items are left as holes: what is enumerated here is run, and what a proof would say of it isn't asked.
#[derive(Clone, Copy)]
pub struct Tree<'a, const CUT: bool> {
    pub nodes: &'a [Node],
    pub root: usize,
}

impl<'a, const CUT: bool> Target for Tree<'a, CUT> {
    type Workload = ();

    ghost names = { ? };

    ghost label_of = { ? };

    ghost code_text = { ? };

    ghost asks = { ? };

    fn label(&self) -> &'static str {
        "tree"
    }

    fn catalogue() -> &'static [&'static str] {
        if CUT {
            &["tree::a", "power::keep"]
        } else {
            &["tree::a", "tree::b"]
        }
    }

    fn code_name(code: u32) -> &'static str {
        match code {
            1 => "one",
            2 => "two",
            _ => "other",
        }
    }

    fn twin(&self) -> Result<Self, AllocError> {
        Ok(*self)
    }

    fn run(&mut self, _workload: &(), session: &mut Session<'_>) -> Result<Judgement, AllocError> {
        let mut at = self.root;
        loop {
            match self.nodes[at] {
                Node::End(judgement) => return Ok(judgement),
                Node::Ask {
                    point,
                    goes,
                    returns,
                    panics,
                } => match session.hit(point)? {
                    Answer::Go => at = goes,
                    Answer::Return(_) => at = returns,
                    Answer::Halt => return Ok(panics),
                },
            }
        }
    }

    ghost within = { ? };

    ghost halts = { ? };

    ghost lawful = { ? };
}

/// The ends of a forest: kept, broken with code 1, and broken with code 2.
const ENDS: [Node; 3] = [
    Node::End(Judgement::Kept),
    Node::End(Judgement::Broken(1)),
    Node::End(Judgement::Broken(2)),
];

/// The ways in which a component may end when its first panic acts.
const PANICS: [Judgement; 2] = [Judgement::Kept, Judgement::Broken(1)];

/// A forest, and the places of the trees that are tried.
#[derive(Drop)]
pub struct Forest {
    pub nodes: Vec<Node>,
    pub roots: Vec<usize>,
}

/// Adds a node for each of the two points, each of the first places, each of the second ones and each judgement of a panic. The places of what
/// was added come after the others.
fn add_asks(
    nodes: &mut Vec<Node>,
    places: &mut Vec<usize>,
    goes: &[usize],
    returns: &[usize],
    panics: &[Judgement],
) -> Result<(), AllocError> {
    for point in 0..POINTS {
        for go in goes {
            for fail in returns {
                for panic in panics {
                    places.push(nodes.len())?;
                    nodes.push(Node::Ask {
                        point,
                        goes: *go,
                        returns: *fail,
                        panics: *panic,
                    })?;
                }
            }
        }
    }
    Ok(())
}

/// All trees of up to this many hits. Each node is an end, kept or broken with code 1, or asks one of two points. There are 18 trees of one hit, and
/// 1298 of two.
pub fn all_trees(alloc: Global, hits: u32) -> Result<Forest, AllocError> {
    let mut nodes = Vec::from_slice(alloc, &ENDS)?;
    let mut roots = Vec::from_slice(alloc, &[0, 1])?;
    for _ in 0..hits {
        let mut more = Vec::from_slice(alloc, &[0, 1])?;
        let below = roots.as_slice();
        add_asks(&mut nodes, &mut more, below, below, &PANICS)?;
        roots = more;
    }
    Ok(Forest { nodes, roots })
}

/// The trees of one hit that differ in what they would ask next, or in how they end. If the limit is one hit, each component is one of these 66.
pub fn trees_of_limit_1(alloc: Global) -> Result<Forest, AllocError> {
    let mut nodes = Vec::from_slice(alloc, &ENDS)?;
    let mut next = Vec::from_slice(alloc, &[0, 1])?;
    let mut roots = Vec::from_slice(alloc, &[0, 1])?;
    add_asks(&mut nodes, &mut next, &[0], &[0], &PANICS[..1])?;
    let next = next.as_slice();
    add_asks(&mut nodes, &mut roots, next, next, &PANICS)?;
    Ok(Forest { nodes, roots })
}

/// The trees of up to this many hits that differ only as far as at most one fault acts: after a return they ask on, a further return breaks the
/// promise with code 2, and a panic keeps it. There are 18 trees of one hit, 434 of two, and 24306 of three.
pub fn trees_of_one_fault(alloc: Global, hits: u32) -> Result<Forest, AllocError> {
    let mut nodes = Vec::from_slice(alloc, &ENDS)?;
    let mut after = Vec::from_slice(alloc, &[0, 1])?;
    let mut roots = Vec::from_slice(alloc, &[0, 1])?;
    for _ in 0..hits {
        let mut more = Vec::from_slice(alloc, &[0, 1])?;
        add_asks(
            &mut nodes,
            &mut more,
            roots.as_slice(),
            after.as_slice(),
            &PANICS,
        )?;
        roots = more;
        let mut later = Vec::from_slice(alloc, &[0, 1])?;
        add_asks(&mut nodes, &mut later, after.as_slice(), &[2], &PANICS[..1])?;
        after = later;
    }
    Ok(Forest { nodes, roots })
}

/// Numbers that are drawn, the same ones each time.
#[derive(Drop)]
pub struct Draws {
    state: u64,
}

impl Draws {
    /// The draws of a seed.
    pub fn new(seed: u64) -> Self {
        Draws { state: seed }
    }

    /// A number below this one. The step is that of Knuth's MMIX generator, whose high bits are the better ones.
    pub fn below(&mut self, bound: u32) -> u32 {
        self.state = self
            .state
            .wrapping_mul(6364136223846793005)
            .wrapping_add(1442695040888963407);
        ((self.state >> 33) % u64::from(bound)) as u32
    }

    /// How a component ends: it keeps its promise in half of all cases, and breaks it with code 1 or 2 in a quarter each.
    fn judgement(&mut self) -> Judgement {
        match self.below(4) {
            0 => Judgement::Broken(1),
            1 => Judgement::Broken(2),
            _ => Judgement::Kept,
        }
    }

    /// Adds a tree of up to this many hits, and returns its place. A node is an end in one of eight cases.
    pub fn add_tree(&mut self, nodes: &mut Vec<Node>, hits: u32) -> Result<usize, AllocError> {
        let node = if hits == 0 || self.below(8) == 0 {
            Node::End(self.judgement())
        } else {
            Node::Ask {
                point: self.below(POINTS),
                goes: self.add_tree(nodes, hits - 1)?,
                returns: self.add_tree(nodes, hits - 1)?,
                panics: self.judgement(),
            }
        };
        nodes.push(node)?;
        Ok(nodes.len() - 1)
    }
}
