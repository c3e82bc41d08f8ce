//! Points of which it is noted whether a run asks them.
ghost use Rattle.std.specs.Prelude.{◌≡◌, not, filter};
ghost use Rattle.result_book.specs.Runs.{is_asked};

/// Whether a point is among these.
pub(crate) fn is_asked(asked: &[u32], point: u32) -> bool
    ensures { result ≡ is_asked point asked.now }
{
    asked.iter().any(|other| *other == point)
}

/// Removes those of these points that a run asked.
pub(crate) fn leave_unasked(points: &mut Vec<u32>, asked: &[u32])
    ensures { points.new.items ≡ filter (λ p. not (is_asked p asked.now)) points.old.items }
{
    points.retain(|point| !is_asked(asked, *point));
}
