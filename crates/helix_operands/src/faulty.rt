//! Whether an operand or a member of its list breaks a rule.

ghost use Rattle.std.specs.Prelude.{◌≡◌, ◌↔◌, true, IfOk, IsTrue};
ghost use Rattle.helix_operands.specs.Rules.{HasNoLength, HasNoLevel, HasNoPattern, HasNoValue, IsFaulty, IsFaultyMember, IsNoLevel, IsNoValue, Lacks, has_bad_size, is_bad_list, value_kind};
ghost use Rattle.helix_operands.specs.Values.{GivesLength, GivesPattern, has_type};
ghost use Rattle.helix_values.specs.Class.{class_of_kind, numbers, strings};

use crate::grids::level_in;
use crate::json_type::{has_grid_type, has_operand_type, has_type, is_number, is_string};
use crate::lengths::length_in;
use crate::members::MAX_MEMBERS;
use crate::patterns::pattern_in;
use crate::rule::OperandRule;
use crate::values::value_in;
use helix_base::Memory;
use helix_json::Json;
use helix_keywords::Keyword;
use helix_places::as_list;
use helix_values::Kind;
use std::alloc::Global;

/// Whether an operand itself breaks a rule.
pub fn is_faulty(
    alloc: Global,
    rule: OperandRule,
    kind: Kind,
    keyword: Keyword,
    operand: &Json,
) -> Result<bool, Memory>
    ensures { IfOk result (λ answer. IsTrue answer ↔ IsFaulty rule kind keyword operand.now) }
{
    match rule {
        OperandRule::Type => Ok(!has_operand_type(kind, keyword, operand)),
        OperandRule::Value => has_no_value(alloc, kind, keyword, operand),
        OperandRule::Size => Ok(has_bad_size(keyword, operand)),
        OperandRule::Grid => Ok(has_no_level(kind, keyword, operand)),
        OperandRule::Length => Ok(has_no_length(keyword, operand)),
        OperandRule::Pattern => has_no_pattern(alloc, keyword, operand),
    }
}

/// Whether a member of the list of `inSet` breaks a rule.
pub fn is_faulty_member(
    alloc: Global,
    rule: OperandRule,
    kind: Kind,
    member: &Json,
) -> Result<bool, Memory>
    ensures { IfOk result (λ answer. IsTrue answer ↔ IsFaultyMember rule kind member.now) }
{
    match rule {
        OperandRule::Type => Ok(!has_type(kind, member)),
        OperandRule::Value => is_no_value(alloc, kind, member),
        OperandRule::Size => Ok(false),
        OperandRule::Grid => Ok(false),
        OperandRule::Length => Ok(false),
        OperandRule::Pattern => Ok(false),
    }
}

fn has_no_value(alloc: Global, kind: Kind, keyword: Keyword, operand: &Json) -> Result<bool, Memory>
    ensures { IfOk result (λ answer. IsTrue answer ↔ HasNoValue kind keyword operand.now) }
{
    match value_kind(kind, keyword) {
        Some(wanted) => is_no_value(alloc, wanted, operand),
        None => Ok(false),
    }
}

/// The kind of whose values the operand of a keyword has to be.
fn value_kind(kind: Kind, keyword: Keyword) -> Option<Kind>
    ensures { result ≡ value_kind kind keyword }
{
    match keyword {
        Keyword::EqualTo => Some(kind),
        Keyword::GreaterThan | Keyword::GreaterThanOrEqualTo => Some(Kind::Decimal),
        Keyword::LessThan | Keyword::LessThanOrEqualTo => Some(Kind::Decimal),
        Keyword::After | Keyword::AfterOrAt => Some(Kind::DateTime),
        Keyword::Before | Keyword::BeforeOrAt => Some(Kind::DateTime),
        Keyword::InSet | Keyword::IsNull | Keyword::GranularTo => None,
        Keyword::MatchingRegex | Keyword::ContainingRegex => None,
        Keyword::OfLength | Keyword::LongerThan | Keyword::ShorterThan => None,
    }
}

fn is_no_value(alloc: Global, kind: Kind, json: &Json) -> Result<bool, Memory>
    ensures { IfOk result (λ answer. IsTrue answer ↔ IsNoValue kind json.now) }
{
    let found = value_in(alloc, kind, json)?;
    Ok(has_type(kind, json) && found.is_none())
}

fn has_bad_size(keyword: Keyword, operand: &Json) -> bool
    ensures { result ≡ has_bad_size keyword operand.now }
{
    match keyword {
        Keyword::InSet => is_bad_list(operand),
        _ => false,
    }
}

fn is_bad_list(json: &Json) -> bool
    ensures { result ≡ is_bad_list json.now }
{
    match as_list(json) {
        Some(items) => items.len() == 0 || items.len() > MAX_MEMBERS,
        None => false,
    }
}

fn has_no_level(kind: Kind, keyword: Keyword, operand: &Json) -> bool
    ensures { IsTrue result ↔ HasNoLevel kind keyword operand.now }
{
    keyword == Keyword::GranularTo && is_no_level(kind, operand)
}

fn is_no_level(kind: Kind, json: &Json) -> bool
    ensures { IsTrue result ↔ IsNoLevel (class_of_kind kind) json.now }
{
    has_grid_type(kind, json) && level_in(kind, json).is_none()
}

fn has_no_length(keyword: Keyword, operand: &Json) -> bool
    ensures { IsTrue result ↔ HasNoLength keyword operand.now }
{
    match keyword {
        Keyword::OfLength => is_no_length(operand),
        Keyword::LongerThan => is_no_length(operand),
        Keyword::ShorterThan => is_no_length(operand),
        _ => false,
    }
}

fn is_no_length(json: &Json) -> bool
    ensures { IsTrue result ↔ Lacks (has_type numbers json.now) (GivesLength json.now) }
{
    is_number(json) && length_in(json).is_none()
}

fn has_no_pattern(alloc: Global, keyword: Keyword, operand: &Json) -> Result<bool, Memory>
    ensures { IfOk result (λ answer. IsTrue answer ↔ HasNoPattern keyword operand.now) }
{
    match keyword {
        Keyword::MatchingRegex => is_no_pattern(alloc, operand),
        Keyword::ContainingRegex => is_no_pattern(alloc, operand),
        _ => Ok(false),
    }
}

fn is_no_pattern(alloc: Global, json: &Json) -> Result<bool, Memory>
    ensures { IfOk result (λ answer. IsTrue answer ↔ Lacks (has_type strings json.now) (GivesPattern json.now)) }
{
    let found = pattern_in(alloc, json)?;
    Ok(is_string(json) && found.is_none())
}
