//! The kinds of faults that are tried at each point.
ghost use Rattle.std.specs.Prelude.{◌≡◌, ◌<◌, ◌≤◌, ◌^◌, [], codes, flat_map, length, map, position};
ghost use Rattle.std.specs.List.{AllByRecursion};
ghost use Rattle.std.specs.Str.{bytes_eq};
ghost use Rattle.action_eval.specs.Answers.{texts};
ghost use Rattle.grown_plans.specs.GrownPlans.{is_cut, kinds_at, listed_at, tried_over, usual_at};

use action_eval::Kind;
use std::marker::Model;

/// The name of the point at which a power cut asks which pending writes it keeps.
const CUT: &str = "power::keep";

/// Which kinds of faults are tried at each point, and in which order: those that are listed for it. If none are listed, they are a return without a
/// text and a panic; at the point of a power cut they are a return alone, which keeps a pending write.
#[derive(Debug, Drop)]
pub struct Kinds<'a> {
    cut: Option<usize>,
    listed: &'a [Vec<Kind>],
}

impl<'a> Model for Kinds<'a> {
    ghost use Rattle.std.specs.Prelude.{◌≤◌, map, length};
    ghost use Rattle.std.specs.List.{AllByRecursion};
    ghost use Rattle.grown_plans.specs.GrownPlans.{Tried};

    ghost Value = { Tried };

    ghost view = { λ k. record { cut = k.cut; listed = map (λ kinds. kinds.items) k.listed.now } };

    ghost invariant = { λ k. AllByRecursion (λ kinds. length kinds.items ≤ 8) k.listed.now };
}

/// Whether a point of this name is that of a power cut.
fn is_cut_name(name: &str) -> bool
    ensures { result ≡ bytes_eq name.now (codes "power::keep") }
{
    name == CUT
}

/// The place of the point of a power cut, if there is one.
fn cut_point(catalogue: &[&str]) -> Option<usize>
    ensures { result ≡ position (λ name. bytes_eq name.now (codes "power::keep")) catalogue.now }
{
    catalogue.iter().position(|name| is_cut_name(name))
}

impl<'a> Kinds<'a> {
    /// The usual kinds over a catalogue.
    pub fn of(catalogue: &[&str]) -> Self
        ensures { result ≡ tried_over (texts catalogue.now) [] }
    {
        Kinds::with(catalogue, &[])
    }

    /// The listed kinds, at most 8 for each point, in the order of the catalogue. A point whose list is empty or missing has the usual kinds.
    pub fn with(catalogue: &[&str], listed: &'a [Vec<Kind>]) -> Self
        requires { AllByRecursion (λ kinds. length kinds.items ≤ 8) listed.now }
        ensures { result ≡ tried_over (texts catalogue.now) (map (λ kinds. kinds.items) listed.now) }
    {
        Kinds {
            cut: cut_point(catalogue),
            listed,
        }
    }

    /// Whether a point is that of a power cut.
    pub(crate) fn is_cut(&self, point: u32) -> bool
        ensures { result ≡ is_cut self.now.cut point }
    {
        self.cut == Some(point as usize)
    }

    /// The kinds that are listed for a point; none if its list is missing.
    pub(crate) fn listed_at(&self, point: u32) -> &[Kind]
        ensures kinds { result.now ≡ listed_at self.now.listed point }
        ensures few { length result.now ≤ 8 }
    {
        match self.listed.get(point as usize) {
            Some(kinds) => kinds.as_slice(),
            None => &[],
        }
    }

    /// How many faults are tried at hits of these points, if nothing is listed.
    fn count_usual(&self, points: &[u32]) -> usize
        ensures { result ≡ length (flat_map (usual_at self.now.cut) points.now) }
    {
        let Some(cut) = self.cut else {
            return 2 * points.len();
        };
        let cuts = points
            .iter()
            .filter(|point| **point as usize == cut)
            .count();
        2 * points.len() - cuts
    }

    /// How many faults are tried at a hit of a point.
    fn count_at(&self, point: u32) -> usize
        ensures count { result ≡ length (kinds_at self.now point) }
        ensures few { result ≤ 8 }
    {
        let listed = self.listed_at(point).len();
        if listed > 0 {
            listed
        } else if self.is_cut(point) {
            1
        } else {
            2
        }
    }

    /// How many faults are tried at hits of these points.
    pub(crate) fn count(&self, points: &[u32]) -> usize
        requires { length points.now < 2 ^ 32 }
        ensures { result ≡ length (flat_map (kinds_at self.now) points.now) }
    {
        if self.listed.is_empty() {
            return self.count_usual(points);
        }
        let mut count = 0;
        for point in points {
            count += self.count_at(*point);
        }
        count
    }
}
