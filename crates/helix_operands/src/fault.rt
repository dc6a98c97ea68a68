//! The first place where an operand breaks a rule.

ghost use Rattle.std.specs.Prelude.{◌≡◌, [], ◌∷◌, IfOk};
ghost use Rattle.helix_operands.specs.Rules.{BreaksOperand};
ghost use Rattle.helix_places.specs.Places.{Finds};

use crate::faulty::is_faulty;
use crate::members::{first_faulty, members_under};
use crate::rule::OperandRule;
use helix_base::Memory;
use helix_json::Json;
use helix_keywords::Keyword;
use helix_places::{Place, Step};
use helix_values::Kind;
use std::alloc::Global;

/// The first place where the operand of a keyword, for a field of a kind, breaks a rule.
pub fn operand_fault(
    alloc: Global,
    rule: OperandRule,
    kind: Kind,
    keyword: Keyword,
    operand: &Json,
) -> Result<Option<Place>, Memory>
    ensures { IfOk result (Finds operand.now (BreaksOperand rule kind keyword operand.now)) }
{
    if is_faulty(alloc, rule, kind, keyword, operand)? {
        return Ok(Some(Place::top(alloc)));
    }
    match first_faulty(alloc, rule, kind, members_under(keyword, operand))? {
        Some(index) => Ok(Some(item_place(alloc, index)?)),
        None => Ok(None),
    }
}

/// The place of an item of a list.
fn item_place(alloc: Global, index: usize) -> Result<Place, Memory>
    ensures { IfOk result (λ place. place ≡ Step.Item index ∷ []) }
{
    let mut place = Place::top(alloc);
    place.step_out(Step::Item(index))?;
    Ok(place)
}
