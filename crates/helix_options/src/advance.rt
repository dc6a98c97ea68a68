//! One step of a branch: a demand becomes a literal, or other demands, or the branch splits.

ghost use Rattle.std.specs.Prelude.{◌≡◌, ◌++◌, ◌∷◌, [], if◌then◌else◌, not, true, IfOk, OnOk, List, Bool};
ghost use Rattle.helix_options.specs.Inner.Literals.{standing_of};
ghost use Rattle.helix_options.specs.Inner.Search.{tree_standing as standing_of_tree, GoesOn, with_branch, with_demand, with_open, one_of, one_step, both, search_all, one_path, found_by_all, demanding, that_holds, demands_for};
ghost use Rattle.helix_tree.specs.declared.literal.Literal.TheVariants.{Null, NotNull, Joined};
ghost use Rattle.helix_tree.specs.declared.tree.Tree.{Lit};
ghost use Rattle.helix_tree.specs.declared.tree.Tree.TheViews.{All, Any};

use crate::branch::{Branch, Demand, Demands};
use crate::literals::with_sign;
use crate::standing::{Standing, standing_with};
use helix_base::Memory;
use helix_profile::Relation;
use helix_tree::{Literal, Tree, Trees};
use std::alloc::Global;

/// Takes a demand of a branch. Where the branch splits, the others come after those that there are, the first of them
/// last. Answers whether the branch goes on.
pub fn advance(
    alloc: Global,
    nullable: &[bool],
    branch: &mut Branch,
    demand: Demand,
    others: &mut Vec<Branch>,
) -> Result<bool, Memory>
    ensures { IfOk result (λ alive. GoesOn (with_demand nullable.now demand branch.old others.old.items)
        (with_branch nullable.now alive branch.new others.new.items)) }
{
    let Demand { tree, sign } = demand;
    match tree {
        Tree::Lit(literal) => take_literal(alloc, nullable, branch, literal, sign, others),
        Tree::All(parts) => {
            if sign {
                push_each(&mut branch.demands, parts, true)?;
                Ok(true)
            } else {
                choose(alloc, nullable, branch, parts, false, others)
            }
        }
        Tree::Any(parts) => {
            if sign {
                choose(alloc, nullable, branch, parts, true, others)
            } else {
                push_each(&mut branch.demands, parts, false)?;
                Ok(true)
            }
        }
    }
}

/// Demands each part, the first one first.
fn push_each(demands: &mut Demands, mut parts: Trees, sign: bool) -> Result<(), Memory>
    ensures { OnOk result (demands.new ≡ demands.old ++ demands_for parts sign) }
{
    while let Some(tree) = parts.pop() {
        demands.push(Demand { tree, sign })?;
    }
    Ok(())
}

/// Takes a literal, with its sign.
fn take_literal(
    alloc: Global,
    nullable: &[bool],
    branch: &mut Branch,
    literal: Literal,
    sign: bool,
    others: &mut Vec<Branch>,
) -> Result<bool, Memory>
    ensures { IfOk result (λ alive. GoesOn
        (with_demand nullable.now (record { tree = Lit literal; sign = sign }) branch.old others.old.items)
        (with_branch nullable.now alive branch.new others.new.items)) }
{
    match standing_with(nullable, &literal, sign, branch.literals.as_slice()) {
        Standing::Implied => Ok(true),
        Standing::Refuted => Ok(false),
        Standing::Open => push_literal(alloc, branch, with_sign(literal, sign), others),
    }
}

/// Adds a literal of which the literals so far say nothing. A weak relation splits the branch.
fn push_literal(
    alloc: Global,
    branch: &mut Branch,
    literal: Literal,
    others: &mut Vec<Branch>,
) -> Result<bool, Memory>
    ensures { IfOk result (λ alive. (nullable : List Bool) → GoesOn
        (both (with_open nullable literal branch.old.literals (search_all nullable branch.old.demands one_path))
        (found_by_all nullable others.old.items))
        (with_branch nullable alive branch.new others.new.items)) }
{
    match literal {
        Literal::Joined(relation, sign, strict) => {
            push_relation(alloc, branch, relation, sign, strict, others)
        }
        _ => {
            branch.literals.push(literal)?;
            Ok(true)
        }
    }
}

/// The same of a relation, with its sign.
fn push_relation(
    alloc: Global,
    branch: &mut Branch,
    relation: Relation,
    sign: bool,
    strict: bool,
    others: &mut Vec<Branch>,
) -> Result<bool, Memory>
    ensures { IfOk result (λ alive. (nullable : List Bool) → GoesOn
        (both (with_open nullable (Joined relation sign strict) branch.old.literals
        (search_all nullable branch.old.demands one_path)) (found_by_all nullable others.old.items))
        (with_branch nullable alive branch.new others.new.items)) }
{
    if strict {
        branch.literals.push(Literal::Joined(relation, sign, true))?;
        return Ok(true);
    }
    split_relation(alloc, branch, relation, sign, others)?;
    Ok(true)
}

/// The left end is null; or else the right end is; or else the relation holds of two values.
fn split_relation(
    alloc: Global,
    branch: &mut Branch,
    relation: Relation,
    sign: bool,
    others: &mut Vec<Branch>,
) -> Result<(), Memory>
    ensures branch { OnOk result (branch.new ≡ demanding branch.old (that_holds (Null relation.left) ∷ [])) }
    ensures others { OnOk result (others.new.items ≡ others.old.items
        ++ (demanding branch.old (that_holds (Joined relation sign true) ∷ [])
        ∷ demanding branch.old (that_holds (NotNull relation.left) ∷ that_holds (Null relation.right) ∷ []) ∷ [])) }
{
    let mut related = branch.copy(alloc)?;
    push_demand(&mut related, Literal::Joined(relation, sign, true))?;
    others.push(related)?;
    let mut null_right = branch.copy(alloc)?;
    push_demand(&mut null_right, Literal::NotNull(relation.left))?;
    push_demand(&mut null_right, Literal::Null(relation.right))?;
    others.push(null_right)?;
    push_demand(branch, Literal::Null(relation.left))
}

fn push_demand(branch: &mut Branch, literal: Literal) -> Result<(), Memory>
    ensures { OnOk result (branch.new ≡ demanding branch.old (that_holds literal ∷ [])) }
{
    branch.demands.push(Demand {
        tree: Tree::Lit(literal),
        sign: true,
    })?;
    Ok(())
}

/// Chooses a part that holds, or with a false sign fails: the first one; or one of the others, and the first not.
fn choose(
    alloc: Global,
    nullable: &[bool],
    branch: &mut Branch,
    mut parts: Trees,
    sign: bool,
    others: &mut Vec<Branch>,
) -> Result<bool, Memory>
    ensures { IfOk result (λ alive. GoesOn
        (both (one_step (one_of nullable.now parts sign branch.old.literals
        (search_all nullable.now branch.old.demands one_path))) (found_by_all nullable.now others.old.items))
        (with_branch nullable.now alive branch.new others.new.items)) }
{
    if parts.is_empty() {
        return Ok(false);
    }
    let tree = parts.remove(0);
    match tree_standing(nullable, &tree, sign, branch.literals.as_slice()) {
        Standing::Implied => {}
        Standing::Refuted => branch.demands.push(some_of(parts, sign))?,
        Standing::Open => {
            if !parts.is_empty() {
                let other = without_first(alloc, branch, &tree, parts, sign)?;
                others.push(other)?;
            }
            branch.demands.push(Demand { tree, sign })?;
        }
    }
    Ok(true)
}

/// The branch in which the first part isn't chosen, and doesn't hold.
fn without_first(
    alloc: Global,
    branch: &Branch,
    first: &Tree,
    parts: Trees,
    sign: bool,
) -> Result<Branch, Memory>
    ensures { IfOk result (λ other. other ≡ demanding branch.now (record { tree = first.now; sign = not sign }
        ∷ record { tree = if sign then Any parts else All parts; sign = sign } ∷ [])) }
{
    let mut other = branch.copy(alloc)?;
    other.demands.push(Demand {
        tree: first.copy(alloc)?,
        sign: !sign,
    })?;
    other.demands.push(some_of(parts, sign))?;
    Ok(other)
}

/// The demand that some part holds, or with a false sign fails.
fn some_of(parts: Trees, sign: bool) -> Demand
    ensures { result ≡ record { tree = if sign then Any parts else All parts; sign = sign } }
{
    if sign {
        Demand {
            tree: Tree::Any(parts),
            sign,
        }
    } else {
        Demand {
            tree: Tree::All(parts),
            sign,
        }
    }
}

fn tree_standing(nullable: &[bool], tree: &Tree, sign: bool, literals: &[Literal]) -> Standing
    ensures { result ≡ standing_of_tree nullable.now tree.now sign literals.now }
{
    match tree {
        Tree::Lit(literal) => standing_with(nullable, literal, sign, literals),
        _ => Standing::Open,
    }
}
