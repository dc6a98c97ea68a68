//! The arc that a code takes.

ghost use Rattle.std.specs.Prelude.{ℕ, ◌≡◌, ◌<◌, ◌≤◌, Some, Contains};
ghost use Rattle.helix_automata.specs.Automaton.{target};
ghost use Rattle.helix_automata.specs.Shape.{AreArcs, IsCharacter};
ghost use Rattle.helix_automata.specs.Inner.Lookup.{IsFirstReaching};

use crate::arc::Arc;

/// Rows of at most this many arcs are scanned from the first one, which is faster there than a binary search.
const SHORT_ROW: usize = 8;

/// Index of the first arc that doesn't end below a code.
fn first_reaching(arcs: &[Arc], code: u32) -> usize
    requires { (states : ℕ) × AreArcs states arcs.now }
    ensures { IsFirstReaching arcs.now code result }
{
    if arcs.len() > SHORT_ROW {
        return arcs.partition_point(|arc| arc.last < code);
    }
    for (i, arc) in arcs.iter().enumerate() {
        if code <= arc.last {
            return i;
        }
    }
    arcs.len()
}

/// The arc that holds a character.
pub fn arc_of(arcs: &[Arc], code: u32) -> Arc
    requires arcs { (states : ℕ) × AreArcs states arcs.now }
    requires character { IsCharacter code }
    ensures named { (states : ℕ) → AreArcs states arcs.now → result.to < states }
    ensures found { Contains arcs.now result }
    ensures reaches { code ≤ result.last }
    ensures leads { (other : ℕ) → IsCharacter other → code ≤ other → other ≤ result.last
        → target arcs.now other ≡ Some result.to }
{
    arcs[first_reaching(arcs, code)]
}
