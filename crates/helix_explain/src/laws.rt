//! Laws over the definitions alone: each is the contract of a function that does nothing.

ghost use Rattle.std.specs.Prelude.{◌≡◌, ℕ, List, ◌∷◌, ◌++◌};
ghost use Rattle.helix_explain.specs.Sets.{IsCore};

use crate::emptiness::Emptiness;

/// A set that leaves out one number of a core empties nothing.
pub fn irreducible<E: Emptiness>()
    ensures { (ask : E) (count n : ℕ) (a b : List ℕ) → IsCore (E.Empties ask) count (a ++ n ∷ b)
        → ¬ E.Empties ask (a ++ b) }
{}

/// There is at most one core.
pub fn one_core<E: Emptiness>()
    ensures { (ask : E) (count : ℕ) (a b : List ℕ) → IsCore (E.Empties ask) count a → IsCore (E.Empties ask) count b
        → a ≡ b }
{}
