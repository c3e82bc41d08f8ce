//! The names of catalogues.
ghost use Rattle.std.specs.Prelude.{◌≡◌, ◌≢◌, true, false};
ghost use Rattle.action_eval.specs.Answers.{texts};

/// Whether two catalogues have the same names, in the same order.
pub fn have_same_names(own: &[&str], other: &[&str]) -> bool
    ensures same { result ≡ true → texts own.now ≡ texts other.now }
    ensures differ { result ≡ false → texts own.now ≢ texts other.now }
{
    if own.len() != other.len() {
        return false;
    }
    for point in 0..own.len() {
        if own[point] != other[point] {
            return false;
        }
    }
    true
}
