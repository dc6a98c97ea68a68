//! Constraints made of others.

ghost use Rattle.std.specs.Prelude.{◌≡◌, ◌↔◌, Some, None, [], option_map, IfOk, IsTrue};
ghost use Rattle.helix_profile.specs.declared.constraint.Constraint.TheViews.{AllOf, AnyOf, If, Not};

use helix_base::Memory;
use helix_json::Json;
use helix_profile::{Constraint, Parts};
use sqlite_items::Boxed;
use std::alloc::Global;

/// The negation of a constraint that may be missing.
pub fn negation_of(alloc: Global, negated: Option<Constraint>) -> Result<Option<Constraint>, Memory>
    ensures { IfOk result (λ made. made ≡ option_map Not negated) }
{
    match negated {
        Some(negated) => Ok(Some(Constraint::Not(Boxed::new(alloc, negated)?))),
        None => Ok(None),
    }
}

/// All of the parts, which may be missing.
pub fn all_of(parts: Option<Parts>) -> Option<Constraint>
    ensures { result ≡ option_map AllOf parts }
{
    match parts {
        Some(parts) => Some(Constraint::AllOf(parts)),
        None => None,
    }
}

/// Any of the parts, which may be missing.
pub fn any_of(parts: Option<Parts>) -> Option<Constraint>
    ensures { result ≡ option_map AnyOf parts }
{
    match parts {
        Some(parts) => Some(Constraint::AnyOf(parts)),
        None => None,
    }
}

/// Whether a list has no items.
pub fn is_empty_list(items: &[Json]) -> bool
    ensures { IsTrue result ↔ (items.now ≡ []) }
{
    items.is_empty()
}

/// A constraint under a condition.
pub fn if_of(
    alloc: Global,
    condition: Constraint,
    consequent: Constraint,
) -> Result<Constraint, Memory>
    ensures { IfOk result (λ made. made ≡ If condition consequent None) }
{
    let condition = Boxed::new(alloc, condition)?;
    let consequent = Boxed::new(alloc, consequent)?;
    Ok(Constraint::If(condition, consequent, None))
}

/// A constraint under a condition, and another one where it isn't met.
pub fn if_else_of(
    alloc: Global,
    condition: Constraint,
    consequent: Constraint,
    otherwise: Constraint,
) -> Result<Constraint, Memory>
    ensures { IfOk result (λ made. made ≡ If condition consequent (Some otherwise)) }
{
    let condition = Boxed::new(alloc, condition)?;
    let consequent = Boxed::new(alloc, consequent)?;
    let otherwise = Boxed::new(alloc, otherwise)?;
    Ok(Constraint::If(condition, consequent, Some(otherwise)))
}
