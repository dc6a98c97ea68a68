//! The members of a list.

ghost use Rattle.std.specs.Prelude.{◌≡◌, IfOk};
ghost use Rattle.helix_operands.specs.Inner.Members.{IsFirstIndex, members_under as members_of_list};
ghost use Rattle.helix_operands.specs.Rules.{IsFaultyMember};
ghost use Rattle.helix_operands.specs.Values.{AreValues, GivesMembers, Reads};
ghost use Rattle.helix_places.specs.Members.{items_of};

use crate::faulty::is_faulty_member;
use crate::rule::OperandRule;
use crate::values::value_in;
use helix_base::Memory;
use helix_json::Json;
use helix_keywords::Keyword;
use helix_places::as_list;
use helix_values::{Cells, Kind};
use std::alloc::Global;

/// Maximum number of members of a list.
pub const MAX_MEMBERS: usize = 10_000;

/// The items of a list, and none of any other value.
pub fn items_in(json: &Json) -> &[Json]
    ensures { result.now ≡ items_of json.now }
{
    match as_list(json) {
        Some(items) => items,
        None => &[],
    }
}

/// The members of the list of `inSet`, and none under any other keyword.
pub fn members_under(keyword: Keyword, operand: &Json) -> &[Json]
    ensures { result.now ≡ members_of_list keyword operand.now }
{
    if keyword == Keyword::InSet {
        items_in(operand)
    } else {
        &[]
    }
}

/// The values of a kind that the members of a list give.
pub fn members_in(alloc: Global, kind: Kind, json: &Json) -> Result<Option<Cells>, Memory>
    ensures { IfOk result (Reads (GivesMembers kind json.now)) }
{
    let items = items_in(json);
    if items.is_empty() || items.len() > MAX_MEMBERS {
        return Ok(None);
    }
    values_of(alloc, kind, items)
}

/// The values of a kind that items give, if each gives one.
fn values_of(alloc: Global, kind: Kind, items: &[Json]) -> Result<Option<Cells>, Memory>
    ensures { IfOk result (Reads (AreValues kind items.now)) }
{
    let mut values = Cells::new(alloc);
    for item in items {
        match value_in(alloc, kind, item)? {
            Some(value) => values.push(value)?,
            None => return Ok(None),
        }
    }
    Ok(Some(values))
}

/// The index of the first member that breaks a rule.
pub fn first_faulty(
    alloc: Global,
    rule: OperandRule,
    kind: Kind,
    members: &[Json],
) -> Result<Option<usize>, Memory>
    ensures { IfOk result (IsFirstIndex (IsFaultyMember rule kind) members.now) }
{
    for (i, member) in members.iter().enumerate() {
        if is_faulty_member(alloc, rule, kind, member)? {
            return Ok(Some(i));
        }
    }
    Ok(None)
}
