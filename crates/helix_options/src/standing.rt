//! What the literals of a branch say of one more.

ghost use Rattle.std.specs.Prelude.{◌≡◌, ◌∷◌, ◌||◌, ◌&&◌};
ghost use Rattle.std.specs.List.{list_any};
ghost use Rattle.helix_options.specs.Inner.Clashes.{clashes_with};
ghost use Rattle.helix_options.specs.Inner.Literals.{signed, asks_value as value_asked, asks_null as null_asked, may_be_null as nullable_at, has_value as valued, has_none as voided, contradict as contradicted, is_refuted as refuted, standing_of};

use crate::clash::{both_or_none, some_clash};
use crate::literals::{asks_null, asks_value};
use helix_profile::Atom;
use helix_tree::Literal;

/// A literal against others that hold.
#[derive(Clone, Copy, Debug, PartialEq, Eq)]
pub enum Standing {
    /// It holds with them, so far as rows of cells go.
    Implied,
    /// It can't hold with them.
    Refuted,
    Open,
}

/// What the literals say of a literal, with a sign.
pub fn standing_with(
    nullable: &[bool],
    literal: &Literal,
    sign: bool,
    literals: &[Literal],
) -> Standing
    ensures { result ≡ standing_of nullable.now literal.now sign literals.now }
{
    if is_refuted(nullable, literal, !sign, literals) {
        return Standing::Implied;
    }
    if is_refuted(nullable, literal, sign, literals) {
        return Standing::Refuted;
    }
    Standing::Open
}

fn is_refuted(nullable: &[bool], literal: &Literal, sign: bool, literals: &[Literal]) -> bool
    ensures { result ≡ refuted nullable.now (signed literal.now sign) literals.now }
{
    match literal {
        Literal::Null(field) => contradict(nullable, *field, literal, sign, literals),
        Literal::NotNull(field) => contradict(nullable, *field, literal, sign, literals),
        Literal::Plain(atom, own, _) => {
            is_test_refuted(
                nullable,
                atom,
                both_or_none(*own, sign),
                literal,
                sign,
                literals,
            )
        }
        Literal::Joined(relation, _, _) => {
            contradict(nullable, relation.left, literal, sign, literals)
                || contradict(nullable, relation.right, literal, sign, literals)
        }
    }
}

/// The same of a literal that is a test, with its sign.
fn is_test_refuted(
    nullable: &[bool],
    atom: &Atom,
    test_sign: bool,
    literal: &Literal,
    sign: bool,
    literals: &[Literal],
) -> bool
    ensures { result ≡ (contradicted nullable.now atom.now.field (signed literal.now sign ∷ literals.now)
        || (valued nullable.now atom.now.field (signed literal.now sign ∷ literals.now)
        && list_any (clashes_with atom.now test_sign) literals.now)) }
{
    contradict(nullable, atom.field, literal, sign, literals)
        || (has_value(nullable, atom.field, literal, sign, literals)
            && some_clash(atom, test_sign, literals))
}

/// Whether the literals and one more can't hold, by what they ask of a field.
fn contradict(
    nullable: &[bool],
    field: u32,
    literal: &Literal,
    sign: bool,
    literals: &[Literal],
) -> bool
    ensures { result ≡ contradicted nullable.now field (signed literal.now sign ∷ literals.now) }
{
    has_value(nullable, field, literal, sign, literals) && has_none(field, literal, sign, literals)
}

fn has_value(
    nullable: &[bool],
    field: u32,
    literal: &Literal,
    sign: bool,
    literals: &[Literal],
) -> bool
    ensures { result ≡ valued nullable.now field (signed literal.now sign ∷ literals.now) }
{
    !may_be_null(nullable, field)
        || asks_value(field, literal, sign)
        || some_asks_value(field, literals)
}

fn some_asks_value(field: u32, literals: &[Literal]) -> bool
    ensures { result ≡ list_any (value_asked field) literals.now }
{
    for literal in literals {
        if asks_value(field, literal, true) {
            return true;
        }
    }
    false
}

fn has_none(field: u32, literal: &Literal, sign: bool, literals: &[Literal]) -> bool
    ensures { result ≡ voided field (signed literal.now sign ∷ literals.now) }
{
    asks_null(field, literal, sign) || some_asks_null(field, literals)
}

fn some_asks_null(field: u32, literals: &[Literal]) -> bool
    ensures { result ≡ list_any (null_asked field) literals.now }
{
    for literal in literals {
        if asks_null(field, literal, true) {
            return true;
        }
    }
    false
}

fn may_be_null(nullable: &[bool], field: u32) -> bool
    ensures { result ≡ nullable_at nullable.now field }
{
    match nullable.get(field as usize) {
        None => true,
        Some(may) => *may,
    }
}
