//! Which atoms a domain takes.

ghost use Rattle.std.specs.Prelude.{◌≡◌, ◌≢◌, ◌↔◌, [], IsTrue};
ghost use Rattle.std.specs.List.{AllByRecursion};
ghost use Rattle.helix_domains.specs.Domain.{IsAtomFor, IsTestOfValue};
ghost use Rattle.helix_profile.specs.Validity.{IsTestFor, IsBound, IsLevel};
ghost use Rattle.helix_values.specs.Class.{class_of_kind, strings as of_strings};
ghost use Rattle.helix_values.specs.Universe.{InUniverse};

use crate::atom::SignedAtom;
use helix_profile::Test;
use helix_values::{Cell, Kind, in_universe};

/// Whether the values of a kind are texts.
fn is_text_kind(kind: Kind) -> bool
    ensures { IsTrue result ↔ (class_of_kind kind ≡ of_strings) }
{
    match kind {
        Kind::Text(_) | Kind::Code(_) => true,
        Kind::Boolean | Kind::Integer | Kind::Decimal | Kind::Date | Kind::DateTime => false,
    }
}

/// Whether a bound is one for a kind.
fn is_bound_for(kind: Kind, bound: &Cell) -> bool
    ensures { IsTrue result ↔ IsBound (class_of_kind kind) bound.now }
{
    match kind {
        Kind::Integer | Kind::Decimal => in_universe(Kind::Decimal, bound.view()),
        Kind::Date | Kind::DateTime => in_universe(Kind::DateTime, bound.view()),
        Kind::Boolean | Kind::Text(_) | Kind::Code(_) => false,
    }
}

/// Whether a level is one for a kind.
fn is_level_for(kind: Kind, level: u32) -> bool
    ensures { IsTrue result ↔ IsLevel (class_of_kind kind) level }
{
    match kind {
        Kind::Integer | Kind::Decimal => level < 16,
        Kind::Date | Kind::DateTime => level < 7,
        Kind::Boolean | Kind::Text(_) | Kind::Code(_) => false,
    }
}

/// Whether a set has members, and all of them are values of a kind.
fn are_members_for(kind: Kind, members: &[Cell]) -> bool
    ensures { IsTrue result ↔ ((members.now ≢ []) × AllByRecursion (InUniverse kind) members.now) }
{
    if members.is_empty() {
        return false;
    }
    for member in members {
        if !in_universe(kind, member.view()) {
            return false;
        }
    }
    true
}

/// Whether a signed atom is one for a field of a kind, other than that of null.
pub fn is_atom_for(kind: Kind, signed: &SignedAtom) -> bool
    ensures { IsTrue result ↔ IsAtomFor kind signed.now }
{
    match &signed.atom.test {
        Test::IsNull(_) => false,
        Test::EqualTo(operand) => in_universe(kind, operand.view()),
        Test::InSet(members) => are_members_for(kind, members.as_slice()),
        Test::Matching(_) | Test::Containing(_) => is_text_kind(kind),
        Test::OfLength(count) | Test::LongerThan(count) | Test::ShorterThan(count) => {
            is_text_kind(kind) && *count <= 1000
        }
        Test::Above(bound) | Test::AtLeast(bound) | Test::Below(bound) | Test::AtMost(bound) => {
            is_bound_for(kind, bound)
        }
        Test::OnGrid(level) => is_level_for(kind, *level),
    }
}
