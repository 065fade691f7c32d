//! Which files each file reaches.

ghost use Rattle.std.specs.Prelude.{◌≡◌, ℕ, ◌<◌, List, length, slice_get, Contains};

/// Files, numbered from 0, and for each the list of the files that it reaches. Each file reaches itself, and what those reach
/// that it reaches.
pub trait Reach {
    // How many files there are, and the list of those that a file reaches.
    ghost files: { Self → ℕ };

    ghost list: { Self → ℕ → List ℕ };

    /// How many files there are.
    fn count(&self) -> usize
        ensures { result ≡ files self.now };

    /// The file at position `k` of those that `root` reaches, and `None` from the list's end on.
    fn reached(&self, root: usize, k: usize) -> Option<usize>
        requires { root < files self.now }
        ensures { result ≡ slice_get (list self.now root) k };

    ghost within: { (s : Self) (r g : ℕ) → r < files s → Contains (list s r) g → g < files s };

    ghost short: { (s : Self) (r : ℕ) → r < files s → length (list s r) < 18446744073709551615 };

    ghost reflexive: { (s : Self) (r : ℕ) → r < files s → Contains (list s r) r };

    ghost transitive: { (s : Self) (r g h : ℕ) → r < files s → Contains (list s r) g
        → Contains (list s g) h → Contains (list s r) h };
}
