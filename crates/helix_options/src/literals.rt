//! Literals with a sign.

ghost use Rattle.std.specs.Prelude.{◌≡◌};
ghost use Rattle.helix_tree.specs.TreeOf.{opposite};
ghost use Rattle.helix_options.specs.Inner.Literals.{signed, asks_value as asks_value_of, asks_null as asks_null_of};

use helix_tree::Literal;

/// The literal, or with a false sign its opposite. It takes no memory.
pub fn with_sign(literal: Literal, sign: bool) -> Literal
    ensures { result ≡ signed literal sign }
{
    if sign { literal } else { turned(literal) }
}

fn turned(literal: Literal) -> Literal
    ensures { result ≡ opposite literal }
{
    match literal {
        Literal::Null(field) => Literal::NotNull(field),
        Literal::NotNull(field) => Literal::Null(field),
        Literal::Plain(atom, sign, strict) => Literal::Plain(atom, !sign, !strict),
        Literal::Joined(relation, sign, strict) => Literal::Joined(relation, !sign, !strict),
    }
}

/// Whether the literal, with the sign, asks that a field has a value.
pub fn asks_value(field: u32, literal: &Literal, sign: bool) -> bool
    ensures { result ≡ asks_value_of field (signed literal.now sign) }
{
    match literal {
        Literal::Null(other) => !sign && *other == field,
        Literal::NotNull(other) => sign && *other == field,
        Literal::Plain(atom, _, strict) => *strict == sign && atom.field == field,
        Literal::Joined(relation, _, strict) => {
            *strict == sign && (relation.left == field || relation.right == field)
        }
    }
}

/// Whether it asks that a field is null.
pub fn asks_null(field: u32, literal: &Literal, sign: bool) -> bool
    ensures { result ≡ asks_null_of field (signed literal.now sign) }
{
    match literal {
        Literal::Null(other) => sign && *other == field,
        Literal::NotNull(other) => !sign && *other == field,
        _ => false,
    }
}
