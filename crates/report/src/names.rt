//! The names in a report.
ghost use Rattle.std.specs.Prelude.{◌≡◌, ℕ, ◌<◌, List, [], length, slice_index_or};

use target_trait::Target;

/// The names of a report's points and codes.
///
/// Each target has them. A type that holds them as data, such as two lists of texts, implements this trait itself.
pub trait Names {
    // The names of the points, in the order of their numbers.
    ghost points: { Self → List (List ℕ) };

    // The name of a code.
    ghost code_text: { Self → ℕ → List ℕ };

    /// The name of the point with this number, which has to exist.
    fn point(&self, number: usize) -> &str
        requires { number < length (points self.now) }
        ensures { result.now ≡ slice_index_or (points self.now) number [] };

    /// The name of a code, for every number.
    fn code(&self, code: u32) -> &str
        ensures { result.now ≡ code_text self.now code };
}

impl<T: Target> Names for T {
    ghost points = { λ _. T.names };

    ghost code_text = { λ _. T.code_text };

    fn point(&self, number: usize) -> &str {
        T::catalogue()[number]
    }

    fn code(&self, code: u32) -> &str {
        T::code_name(code)
    }
}
