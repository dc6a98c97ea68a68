//! The tree of a constraint.

ghost use Rattle.std.specs.Prelude.{◌≡◌, ◌↔◌, [], ◌∷◌, List, Bool, true, IfOk};
ghost use Rattle.helix_profile.specs.Satisfaction.{Satisfies};
ghost use Rattle.helix_tree.specs.Tree.{TreeHolds};
ghost use Rattle.helix_tree.specs.TreeOf.{literal_of, signed_tree, trees_of_all};
ghost use Rattle.helix_tree.specs.declared.tree.Tree.TheViews.{All, Any};
ghost use Rattle.helix_values.specs.declared.cell.Cell.{Cell};

use crate::literal::Literal;
use crate::tree::{Tree, Trees};
use helix_base::Memory;
use helix_profile::{Atom, Constraint, Test};
use std::alloc::Global;

/// The tree of a constraint. It holds exactly for the rows that satisfy the constraint.
pub fn tree_of(alloc: Global, constraint: &Constraint) -> Result<Tree, Memory>
    ensures tree { IfOk result (λ tree. tree ≡ signed_tree constraint.now true) }
    ensures holds { IfOk result (λ tree. (row : List Cell) → TreeHolds tree row ↔ Satisfies constraint.now row true) }
{
    tree_with(alloc, constraint, true)
}

/// The tree of a constraint, or with a false sign of its negation.
#[cycle(signed)]
fn tree_with(alloc: Global, constraint: &Constraint, sign: bool) -> Result<Tree, Memory>
    ensures { IfOk result (λ tree. tree ≡ signed_tree constraint.now sign) }
{
    match constraint {
        Constraint::Atom(atom) => Ok(Tree::Lit(literal_with(alloc, atom, sign)?)),
        Constraint::Related(relation) => Ok(Tree::Lit(Literal::Joined(*relation, sign, false))),
        Constraint::Not(negated) => tree_with(alloc, negated.get(), !sign),
        Constraint::AllOf(parts) => {
            let trees = trees_with(alloc, parts.as_slice(), sign)?;
            if sign {
                Ok(Tree::All(trees))
            } else {
                Ok(Tree::Any(trees))
            }
        }
        Constraint::AnyOf(parts) => {
            let trees = trees_with(alloc, parts.as_slice(), sign)?;
            if sign {
                Ok(Tree::Any(trees))
            } else {
                Ok(Tree::All(trees))
            }
        }
        Constraint::If(condition, then, otherwise) => {
            let met = tree_with(alloc, condition.get(), true)?;
            let consequent = tree_with(alloc, then.get(), sign)?;
            let both = all_of(alloc, met, consequent)?;
            match otherwise {
                None => {
                    if sign {
                        any_of(alloc, both, tree_with(alloc, condition.get(), false)?)
                    } else {
                        Ok(both)
                    }
                }
                Some(other) => {
                    let unmet = tree_with(alloc, condition.get(), false)?;
                    let alternative = tree_with(alloc, other.get(), sign)?;
                    let others = all_of(alloc, unmet, alternative)?;
                    any_of(alloc, both, others)
                }
            }
        }
    }
}

#[cycle(signed)]
fn trees_with(alloc: Global, constraints: &[Constraint], sign: bool) -> Result<Trees, Memory>
    ensures { IfOk result (λ trees. trees ≡ trees_of_all constraints.now sign) }
{
    let mut trees = Trees::new(alloc);
    for constraint in constraints {
        trees.push(tree_with(alloc, constraint, sign)?)?;
    }
    Ok(trees)
}

/// The literal of a test of a field.
fn literal_with(alloc: Global, atom: &Atom, sign: bool) -> Result<Literal, Memory>
    ensures { IfOk result (λ literal. literal ≡ literal_of atom.now.field atom.now.test sign) }
{
    match &atom.test {
        Test::IsNull(wanted) => Ok(if *wanted == sign {
            Literal::Null(atom.field)
        } else {
            Literal::NotNull(atom.field)
        }),
        _ => Ok(Literal::Plain(atom.copy(alloc)?, sign, false)),
    }
}

fn all_of(alloc: Global, first: Tree, second: Tree) -> Result<Tree, Memory>
    ensures { IfOk result (λ tree. tree ≡ All (first ∷ second ∷ [])) }
{
    Ok(Tree::All(pair(alloc, first, second)?))
}

fn any_of(alloc: Global, first: Tree, second: Tree) -> Result<Tree, Memory>
    ensures { IfOk result (λ tree. tree ≡ Any (first ∷ second ∷ [])) }
{
    Ok(Tree::Any(pair(alloc, first, second)?))
}

fn pair(alloc: Global, first: Tree, second: Tree) -> Result<Trees, Memory>
    ensures { IfOk result (λ trees. trees ≡ first ∷ second ∷ []) }
{
    let mut trees = Trees::new(alloc);
    trees.push(first)?;
    trees.push(second)?;
    Ok(trees)
}
