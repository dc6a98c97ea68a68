//! The automaton of the texts that signed atoms leave.

ghost use Rattle.std.specs.Prelude.{ℕ, List, ◌≡◌, ◌↔◌, ◌≤◌, IfOk, OnOk};
ghost use Rattle.std.specs.Bool.{OnTrue};
ghost use Rattle.std.specs.List.{All, Contains};
ghost use Rattle.helix_automata.specs.Automaton.{Accepts, most_arcs};
ghost use Rattle.helix_automata.specs.Shape.{IsCharacter};
ghost use Rattle.helix_compile.specs.Answers.{Answers};
ghost use Rattle.helix_domains.specs.Inner.Texts.{PassesWord, IsWordOfKind, AllAccept, AreNarrowed, HasShortTexts};
ghost use Rattle.helix_profile.specs.Satisfaction.{Signed};
ghost use Rattle.helix_values.specs.Counts.{characters};
ghost use Rattle.helix_values.specs.Slot.{FitsSlot};
ghost use Rattle.helix_values.specs.declared.cell.Cell.TheVariants as cells_;

use crate::alphabets::alphabet_dfa;
use crate::atom::SignedAtom;
use crate::others::others_dfa;
use helix_automata::Dfa;
use helix_base::{Alphabet, Memory};
use helix_codes::code_dfa;
use helix_compile::dfa_of;
use helix_expr::Regex;
use helix_profile::Test;
use helix_values::{Cell, Kind};
use std::alloc::Global;

/// The automaton of the same words, or with a false sign of all others.
fn with_sign(alloc: Global, dfa: Dfa, sign: bool) -> Result<Dfa, Memory>
    ensures { IfOk result (λ signed. (word : List ℕ) → All IsCharacter word → Accepts signed word
        ↔ Signed sign (Accepts dfa word)) }
{
    if sign { Ok(dfa) } else { dfa.complement(alloc) }
}

/// The automaton of the texts that match a pattern or contain a match, or with a false sign of all others.
fn pattern_dfa(alloc: Global, regex: &Regex, containing: bool, sign: bool) -> Result<Dfa, Memory>
    ensures { IfOk result (λ dfa. (word : List ℕ) → All IsCharacter word → Accepts dfa word
        ↔ Signed sign (Answers regex.now containing word)) }
{
    let dfa = dfa_of(alloc, regex, containing)?;
    with_sign(alloc, dfa, sign)
}

/// The automaton of the texts of a list, or with a false sign of all others.
fn set_dfa(alloc: Global, cells: &[Cell], sign: bool) -> Result<Dfa, Memory>
    requires { All FitsSlot cells.now }
    ensures { IfOk result (λ dfa. (word : List ℕ) → All IsCharacter word → Accepts dfa word
        ↔ Signed sign (Contains cells.now (cells_.Text word))) }
{
    let others = others_dfa(alloc, cells)?;
    if sign {
        others.complement(alloc)
    } else {
        Ok(others)
    }
}

/// Adds the automaton of the texts that pass a signed atom, if it looks at more than their length.
fn push_atom(alloc: Global, signed: &SignedAtom, dfas: &mut Vec<Dfa>) -> Result<(), Memory>
    requires { HasShortTexts signed.now.atom.test }
    ensures { OnOk result (AreNarrowed (PassesWord signed.now) dfas.old.items dfas.new.items) }
{
    let sign = signed.sign;
    let dfa = match &signed.atom.test {
        Test::Matching(regex) => pattern_dfa(alloc, regex, false, sign)?,
        Test::Containing(regex) => pattern_dfa(alloc, regex, true, sign)?,
        Test::EqualTo(operand) => set_dfa(alloc, std::slice::from_ref(operand), sign)?,
        Test::InSet(members) => set_dfa(alloc, members.as_slice(), sign)?,
        _ => return Ok(()),
    };
    dfas.push(dfa)?;
    Ok(())
}

/// Adds the automaton of the texts of a kind, if it has one that not every text is.
fn push_kind(alloc: Global, kind: Kind, dfas: &mut Vec<Dfa>) -> Result<(), Memory>
    ensures { OnOk result (AreNarrowed (IsWordOfKind kind) dfas.old.items dfas.new.items) }
{
    let dfa = match kind {
        Kind::Text(Alphabet::Unicode) => return Ok(()),
        Kind::Text(alphabet) => alphabet_dfa(alloc, alphabet)?,
        Kind::Code(code) => code_dfa(alloc, code)?,
        _ => return Ok(()),
    };
    dfas.push(dfa)?;
    Ok(())
}

/// Automata that together accept the texts of a kind that pass signed atoms, if their lengths do.
pub fn dfas_of(alloc: Global, kind: Kind, atoms: &[SignedAtom]) -> Result<Vec<Dfa>, Memory>
    requires { All (λ signed. HasShortTexts signed.atom.test) atoms.now }
    ensures { IfOk result (λ dfas. (word : List ℕ) → All IsCharacter word → AllAccept dfas.items word
        ↔ (IsWordOfKind kind word × All (λ signed. PassesWord signed word) atoms.now)) }
{
    let mut dfas = Vec::new(alloc);
    push_kind(alloc, kind, &mut dfas)?;
    for signed in atoms {
        push_atom(alloc, signed, &mut dfas)?;
    }
    Ok(dfas)
}

/// Whether no state accepts, and so no word is accepted.
fn accepts_none(dfa: &Dfa) -> bool
    ensures { OnTrue result ((word : List ℕ) → ¬ Accepts dfa.now word) }
{
    for state in 0..dfa.states() {
        let _arcs = dfa.arcs(state);
        if dfa.accepting(state) {
            return false;
        }
    }
    true
}

/// The automaton of the words that all automata accept.
pub fn product_of(alloc: Global, dfas: Vec<Dfa>) -> Result<Dfa, Memory>
    ensures { IfOk result (λ both. (word : List ℕ) → All IsCharacter word → Accepts both word
        ↔ AllAccept dfas.items word) }
{
    // From the smallest to the largest: each product is explored once more with the next automaton.
    let mut left = dfas;
    left.sort_by_key(|dfa| u32::MAX - dfa.states())?;
    let Some(first) = left.pop() else {
        return alphabet_dfa(alloc, Alphabet::Unicode);
    };
    let mut all = first;
    while let Some(next) = left.pop() {
        if accepts_none(&all) {
            return Ok(all);
        }
        all = all.product(alloc, &next)?;
    }
    Ok(all)
}

/// Looks at the arcs of each state: they are in order, so they are at most as many as there are characters.
pub fn see_arcs(dfa: &Dfa)
    ensures { most_arcs dfa.now ≤ characters }
{
    for state in 0..dfa.states() {
        let _arcs = dfa.arcs(state);
    }
}
