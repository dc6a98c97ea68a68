//! Signed tests that can't both hold of one value.

ghost use Rattle.std.specs.Prelude.{◌≡◌};
ghost use Rattle.std.specs.List.{list_any};
ghost use Rattle.helix_options.specs.Inner.Clashes.{apart as bounds_apart, both_or_none, bound_at, bound_of, bounds_against, clash, clashes_with, fixes_against, is_quick, none_between};

use helix_profile::{Atom, Test, test_holds};
use helix_tree::Literal;
use helix_values::Cell;

/// Whether one of the literals can't hold of a value of which the test, with its sign, holds.
pub fn some_clash(atom: &Atom, sign: bool, literals: &[Literal]) -> bool
    ensures { result ≡ list_any (clashes_with atom.now sign) literals.now }
{
    for literal in literals {
        if clashes_with(atom, sign, literal) {
            return true;
        }
    }
    false
}

fn clashes_with(atom: &Atom, sign: bool, literal: &Literal) -> bool
    ensures { result ≡ clashes_with atom.now sign literal.now }
{
    match literal {
        Literal::Plain(other, own, _) => {
            other.field == atom.field && clash(&atom.test, sign, &other.test, *own)
        }
        _ => false,
    }
}

/// Whether two signed tests can't both hold of one value, as far as that is seen without a search.
fn clash(first: &Test, own: bool, other: &Test, sign: bool) -> bool
    ensures { result ≡ clash first.now own other.now sign }
{
    fixes_against(first, own, other, sign)
        || fixes_against(other, sign, first, own)
        || bounds_against(first, own, other, sign)
        || bounds_against(other, sign, first, own)
}

/// Whether the first test says that the value is its operand, of which the second one isn't as its sign says.
#[tactic(auto, unfolding(crate::specs::Inner::Clashes::fixes_against))]
fn fixes_against(first: &Test, own: bool, other: &Test, sign: bool) -> bool
    ensures { result ≡ fixes_against first.now own other.now sign }
{
    match first {
        Test::EqualTo(operand) => {
            own && is_quick(other) && !both_or_none(sign, test_holds(other, operand.view()))
        }
        _ => false,
    }
}

/// Whether a test is decided at once: no pattern is matched, and no set searched.
fn is_quick(test: &Test) -> bool
    ensures { result ≡ is_quick test.now }
{
    match test {
        Test::InSet(_) | Test::Matching(_) | Test::Containing(_) => false,
        _ => true,
    }
}

/// A bound of numbers or of moments, from above or from below.
#[derive(Clone, Copy, Debug)]
pub struct Bound {
    pub upper: bool,
    /// The bound itself is left out.
    pub excluded: bool,
    pub moments: bool,
    pub at: i128,
}

/// Whether the first test is a bound from below and the second one from above, and nothing is between them.
#[tactic(auto, unfolding(crate::specs::Inner::Clashes::bounds_against))]
fn bounds_against(first: &Test, own: bool, other: &Test, sign: bool) -> bool
    ensures { result ≡ bounds_against first.now own other.now sign }
{
    (own || sign) && apart(bound_of(first, own), bound_of(other, sign))
}

fn apart(low: Option<Bound>, high: Option<Bound>) -> bool
    ensures { result ≡ bounds_apart low high }
{
    match (low, high) {
        (Some(low), Some(high)) => {
            !low.upper
                && high.upper
                && both_or_none(low.moments, high.moments)
                && none_between(low.excluded || high.excluded, low.at, high.at)
        }
        _ => false,
    }
}

/// Whether both are true, or none is.
pub fn both_or_none(a: bool, b: bool) -> bool
    ensures { result ≡ both_or_none a b }
{
    if a { b } else { !b }
}

/// Whether nothing is above the one and below the other, or where both are kept, from the one to the other.
fn none_between(excluded: bool, low: i128, high: i128) -> bool
    ensures { result ≡ none_between excluded low high }
{
    if excluded { high <= low } else { high < low }
}

/// The bound that a signed test is.
#[tactic(auto, unfolding(crate::specs::Inner::Clashes::bound_of))]
fn bound_of(test: &Test, sign: bool) -> Option<Bound>
    ensures { result ≡ bound_of test.now sign }
{
    match test {
        Test::Above(at) => bound_at(!sign, sign, at),
        Test::AtLeast(at) => bound_at(!sign, !sign, at),
        Test::Below(at) => bound_at(sign, sign, at),
        Test::AtMost(at) => bound_at(sign, !sign, at),
        _ => None,
    }
}

fn bound_at(upper: bool, excluded: bool, cell: &Cell) -> Option<Bound>
    ensures { result ≡ bound_at upper excluded cell.now }
{
    let (moments, at) = match cell {
        Cell::Number(units) => (false, *units),
        Cell::Moment(millis) => (true, i128::from(*millis)),
        _ => return None,
    };
    Some(Bound {
        upper,
        excluded,
        moments,
        at,
    })
}
