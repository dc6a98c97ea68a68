//! Questions on the constraints of a profile.

ghost use Rattle.std.specs.Prelude.{◌≡◌, ◌↔◌, ℕ, List, IfOk, IsTrue, Contains};
ghost use Rattle.helix_base.specs.Count.{raised};
ghost use Rattle.helix_explain.specs.Sets.{AreNumbers};

use helix_base::Memory;

/// A profile whose constraints are numbered from 1, to ask which of them let no row through. Contracts see the number
/// of constraints, which sets of numbers empty the profile, and how many questions were asked, up to 2^64 - 1.
pub trait Emptiness {
    ghost count: { Self → ℕ };

    ghost Empties: { Self → List ℕ → Type 0 };

    ghost asked: { Self → ℕ };

    /// Whether no row satisfies the constraints with these numbers.
    fn is_empty(&mut self, keep: &[u32]) -> Result<bool, Memory>
        requires { AreNumbers (count self.old) keep.now }
        ensures answer { IfOk result (λ empty. IsTrue empty ↔ Empties self.old keep.now) }
        ensures count { count self.new ≡ count self.old }
        ensures same { (numbers : List ℕ) → Empties self.new numbers ↔ Empties self.old numbers }
        ensures asked { asked self.new ≡ raised (asked self.old) };

    ghost closed: { (self : Self) (a b : List ℕ) → AreNumbers (count self) a → AreNumbers (count self) b
        → ((n : ℕ) → Contains a n → Contains b n) → Empties self a → Empties self b };
}
