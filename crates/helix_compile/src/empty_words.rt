//! Expressions that read no character, however often they are repeated.

ghost use Rattle.std.specs.Prelude.{ℕ, List, ◌≡◌, [], Some, IsTrue};
ghost use Rattle.helix_expr.specs.Matching.{Matches, MatchInOrder, MatchSome};

use helix_expr::Expr;

/// Whether it is plain that an expression matches no other word than the empty one.
#[cycle(empty_words)]
pub fn matches_only_empty(expr: &Expr) -> bool
    ensures { IsTrue result → (word : List ℕ) → Matches expr.now word → word ≡ [] }
{
    match expr {
        Expr::Empty => true,
        Expr::Chars(_) => false,
        Expr::Seq(parts) => match_only_empty(parts.as_slice()),
        Expr::Alt(parts) => match_only_empty(parts.as_slice()),
        Expr::Repeat(part, _, most) => is_never(*most) || matches_only_empty(part.get()),
    }
}

/// Whether it is plain of each expression.
#[cycle(empty_words)]
fn match_only_empty(parts: &[Expr]) -> bool
    ensures in_order { IsTrue result → (word : List ℕ) → MatchInOrder parts.now word → word ≡ [] }
    ensures some { IsTrue result → (word : List ℕ) → MatchSome parts.now word → word ≡ [] }
{
    for part in parts {
        if !matches_only_empty(part) {
            return false;
        }
    }
    true
}

/// Whether nothing is repeated.
fn is_never(most: Option<u32>) -> bool
    ensures { IsTrue result → most ≡ Some 0 }
{
    match most {
        Some(0) => true,
        _ => false,
    }
}
