//! The test that an operand gives.

ghost use Rattle.std.specs.Prelude.{◌≡◌, IfOk};
ghost use Rattle.helix_json.specs.declared.value.Json.{Bool as Truth};
ghost use Rattle.helix_operands.specs.Inner.Compared.{compared as test_of};
ghost use Rattle.helix_operands.specs.Tests.{GivesTest, Makes, names_set_file};
ghost use Rattle.helix_operands.specs.Values.{GivesLength, GivesLevel, GivesMembers, GivesPattern, GivesValue, Reads};
ghost use Rattle.helix_profile.specs.declared.test.Test.TheVariants as tests;
ghost use Rattle.helix_values.specs.Class.{class_of_kind};

use crate::grids::level_in;
use crate::json_type::is_string;
use crate::lengths::length_in;
use crate::members::members_in;
use crate::patterns::pattern_in;
use crate::values::value_in;
use helix_base::Memory;
use helix_json::Json;
use helix_keywords::Keyword;
use helix_profile::{Compare, Test};
use helix_values::{Cell, Kind};
use std::alloc::Global;

/// The test that the operand of a keyword gives, for a field of a kind.
pub fn read_test(
    alloc: Global,
    kind: Kind,
    keyword: Keyword,
    operand: &Json,
) -> Result<Option<Test>, Memory>
    ensures { IfOk result (Reads (GivesTest kind keyword operand.now)) }
{
    match keyword {
        Keyword::EqualTo => value_test(alloc, kind, Compare::Equal, operand),
        Keyword::InSet => set_test(alloc, kind, operand),
        Keyword::IsNull => Ok(null_test(operand)),
        Keyword::MatchingRegex => matching_test(alloc, operand),
        Keyword::ContainingRegex => containing_test(alloc, operand),
        Keyword::OfLength => Ok(of_length_test(operand)),
        Keyword::LongerThan => Ok(longer_test(operand)),
        Keyword::ShorterThan => Ok(shorter_test(operand)),
        Keyword::GreaterThan => value_test(alloc, Kind::Decimal, Compare::Above, operand),
        Keyword::GreaterThanOrEqualTo => value_test(
            alloc,
            Kind::Decimal,
            Compare::AtLeast,
            operand,
        ),
        Keyword::LessThan => value_test(alloc, Kind::Decimal, Compare::Below, operand),
        Keyword::LessThanOrEqualTo => value_test(alloc, Kind::Decimal, Compare::AtMost, operand),
        Keyword::After => value_test(alloc, Kind::DateTime, Compare::Above, operand),
        Keyword::AfterOrAt => value_test(alloc, Kind::DateTime, Compare::AtLeast, operand),
        Keyword::Before => value_test(alloc, Kind::DateTime, Compare::Below, operand),
        Keyword::BeforeOrAt => value_test(alloc, Kind::DateTime, Compare::AtMost, operand),
        Keyword::GranularTo => Ok(grid_test(kind, operand)),
    }
}

/// Whether an operand names a set file.
pub fn names_set_file(keyword: Keyword, operand: &Json) -> bool
    ensures { result ≡ names_set_file keyword operand.now }
{
    keyword == Keyword::InSet && is_string(operand)
}

/// The test that compares with a value of a kind.
fn value_test(
    alloc: Global,
    kind: Kind,
    how: Compare,
    operand: &Json,
) -> Result<Option<Test>, Memory>
    ensures { IfOk result (Reads (Makes (GivesValue kind operand.now) (test_of how))) }
{
    match value_in(alloc, kind, operand)? {
        Some(value) => Ok(Some(compared(how, value))),
        None => Ok(None),
    }
}

fn compared(how: Compare, value: Cell) -> Test
    ensures { result ≡ test_of how value }
{
    match how {
        Compare::Equal => Test::EqualTo(value),
        Compare::Above => Test::Above(value),
        Compare::AtLeast => Test::AtLeast(value),
        Compare::Below => Test::Below(value),
        Compare::AtMost => Test::AtMost(value),
    }
}

fn set_test(alloc: Global, kind: Kind, operand: &Json) -> Result<Option<Test>, Memory>
    ensures { IfOk result (Reads (Makes (GivesMembers kind operand.now) tests.InSet)) }
{
    match members_in(alloc, kind, operand)? {
        Some(members) => Ok(Some(Test::InSet(members))),
        None => Ok(None),
    }
}

fn null_test(operand: &Json) -> Option<Test>
    ensures { Reads (Makes (λ wanted. operand.now ≡ Truth wanted) tests.IsNull) result }
{
    match operand {
        Json::Bool(wanted) => Some(Test::IsNull(*wanted)),
        Json::Null => None,
        Json::Number(_) => None,
        Json::Str(_) => None,
        Json::List(_) => None,
        Json::Object(_) => None,
    }
}

fn matching_test(alloc: Global, operand: &Json) -> Result<Option<Test>, Memory>
    ensures { IfOk result (Reads (Makes (GivesPattern operand.now) tests.Matching)) }
{
    match pattern_in(alloc, operand)? {
        Some(regex) => Ok(Some(Test::Matching(regex))),
        None => Ok(None),
    }
}

fn containing_test(alloc: Global, operand: &Json) -> Result<Option<Test>, Memory>
    ensures { IfOk result (Reads (Makes (GivesPattern operand.now) tests.Containing)) }
{
    match pattern_in(alloc, operand)? {
        Some(regex) => Ok(Some(Test::Containing(regex))),
        None => Ok(None),
    }
}

fn of_length_test(operand: &Json) -> Option<Test>
    ensures { Reads (Makes (GivesLength operand.now) tests.OfLength) result }
{
    match length_in(operand) {
        Some(length) => Some(Test::OfLength(length)),
        None => None,
    }
}

fn longer_test(operand: &Json) -> Option<Test>
    ensures { Reads (Makes (GivesLength operand.now) tests.LongerThan) result }
{
    match length_in(operand) {
        Some(length) => Some(Test::LongerThan(length)),
        None => None,
    }
}

fn shorter_test(operand: &Json) -> Option<Test>
    ensures { Reads (Makes (GivesLength operand.now) tests.ShorterThan) result }
{
    match length_in(operand) {
        Some(length) => Some(Test::ShorterThan(length)),
        None => None,
    }
}

fn grid_test(kind: Kind, operand: &Json) -> Option<Test>
    ensures { Reads (Makes (GivesLevel (class_of_kind kind) operand.now) tests.OnGrid) result }
{
    match level_in(kind, operand) {
        Some(level) => Some(Test::OnGrid(level)),
        None => None,
    }
}
