//! The arcs of a state, and the rests to which they lead.

ghost use Rattle.std.specs.Prelude.{◌<◌, ◌≤◌, ◌↔◌, length, IsTrue};
ghost use Rattle.helix_words.specs.Inner.Reaching.{AreReaching, AreArcsOnFrom};
ghost use Rattle.helix_words.specs.Inner.Rests.{HasRest};

use crate::words::Words;
use helix_automata::Arc;

/// The arcs from the first one on that doesn't end below a code.
#[inline(always)]
fn arcs_reaching(arcs: &[Arc], code: u32) -> &[Arc]
    ensures are { AreReaching arcs.now code result.now }
{
    for (i, arc) in arcs.iter().enumerate() {
        if code <= arc.last {
            return &arcs[i..];
        }
    }
    &arcs[arcs.len()..]
}

/// The arcs of a state that don't end below a code.
#[inline(always)]
pub fn arcs_from(words: &Words, state: u32, code: u32) -> &[Arc]
    requires { state < length words.now.automaton.moves }
    ensures { AreArcsOnFrom words.now state code result.now }
{
    arcs_reaching(words.rows.row(state), code)
}

/// Whether a state has a rest of some length.
#[inline(always)]
pub fn has_rest(words: &Words, state: u32, count: u32) -> bool
    requires state { state < length words.now.automaton.moves }
    requires count { count ≤ words.now.longest }
    ensures { IsTrue result ↔ HasRest words.now.automaton state count }
{
    words.table.has_rest(state, count)
}
