//! The arcs of a state while they are made.

ghost use Rattle.std.specs.Prelude.{ℕ, ◌≡◌, ◌≤◌, Some, None, [], OnOk, OnErr};
ghost use Rattle.helix_automata.specs.Shape.{AreArcs};
ghost use Rattle.helix_automata.specs.Inner.Row.{IsNextCharacter, AreNamed, LeadsMore};
ghost use Rattle.helix_automata.specs.Inner.WithArc.{with_arc};

use crate::arc::{Arc, Arcs};
use crate::shape::character_above;
use helix_base::{Alphabet, Memory};
use std::alloc::Global;
use std::marker::Model;

/// The arcs of a state while they are made, from the least character to the greatest. Contracts see them and the least
/// character that they don't hold.
#[derive(Debug, Drop)]
pub struct Row {
    arcs: Vec<Arc>,
    next: Option<u32>,
}

impl Model for Row {
    ghost use Rattle.helix_automata.specs.Inner.Row.{Begun, IsBegun};

    ghost Value = { Begun };

    ghost view = { λ row. record { arcs = row.arcs.items; next = row.next } };

    ghost invariant = { λ row. IsBegun (record { arcs = row.arcs.items; next = row.next }) };
}

impl Row {
    /// No arc yet.
    pub fn new(alloc: Global) -> Row
        ensures arcs { result.arcs ≡ [] }
        ensures next { IsNextCharacter 0 result.next }
    {
        Row {
            arcs: Vec::new(alloc),
            next: Alphabet::Unicode.next_at_or_after(0),
        }
    }

    /// The least character that no arc holds yet, or `None` where the arcs hold them all.
    pub fn next(&self) -> Option<u32>
        ensures { result ≡ self.now.next }
    {
        self.next
    }

    /// Adds an arc from the next character on, or extends the last one where both lead to one state.
    pub fn lead(&mut self, arc: Arc) -> Result<(), Memory>
        requires next { self.old.next ≡ Some arc.first }
        requires in_order { arc.first ≤ arc.last }
        ensures ok { OnOk result (LeadsMore self.old arc self.new) }
        ensures err { OnErr result (self.new ≡ self.old) }
    {
        push_arc(&mut self.arcs, arc)?;
        self.next = character_above(arc.last);
        Ok(())
    }

    /// The arcs, once they hold all characters.
    pub fn into_arcs(self) -> Arcs
        requires { self.next ≡ None }
        ensures value { result ≡ self.arcs }
        ensures shape { (states : ℕ) → AreNamed states self.arcs → AreArcs states result }
    {
        Arcs::from_vec(self.arcs)
    }
}

/// Appends one arc, or extends the last one where both lead to one state.
fn push_arc(arcs: &mut Vec<Arc>, item: Arc) -> Result<(), Memory>
    ensures ok { OnOk result (arcs.new.items ≡ with_arc arcs.old.items item) }
    ensures err { OnErr result (arcs.new.items ≡ arcs.old.items) }
{
    let count = arcs.as_slice().len();
    if count > 0 && arcs[count - 1].to == item.to {
        arcs[count - 1].last = item.last;
        return Ok(());
    }
    arcs.push(item)?;
    Ok(())
}
