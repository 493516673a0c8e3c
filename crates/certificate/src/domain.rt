//! Bounds as a domain: when one is within another, and the join of two.

ghost use Rattle.std.specs.Prelude.{◌≡◌, true, Bool};

/// Bounds of one kind. The order is reflexive and transitive, and a join is above both. Takes no memory. (own)
pub trait Domain: Sized {
    /// Whether what the first describes the second describes too.
    ghost is_within: { Self → Self → Bool };

    /// The third is the join of the two.
    ghost IsJoin: { Self → Self → Self → Type 0 };

    /// They have rows of one length, as any two values of the code have.
    ghost Fit: { Self → Self → Type 0 };

    /// Whether what this bound describes the other describes too.
    fn within(&self, other: &Self) -> bool
        ensures { result ≡ is_within self.now other.now };

    /// A bound that describes what either describes.
    fn join(&self, other: &Self) -> Self
        ensures value { IsJoin self.now other.now result }
        ensures fit { Fit self.now other.now };

    ghost reflexive: { (a : Self) → is_within a a ≡ true };

    ghost transitive: { (a b c : Self) → is_within a b ≡ true → is_within b c ≡ true → is_within a c ≡ true };

    ghost above: { (a b join : Self) → Fit a b → IsJoin a b join
        → (is_within a join ≡ true) × (is_within b join ≡ true) };
}
