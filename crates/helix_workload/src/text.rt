//! The text of a workload's profile.

ghost use Rattle.std.specs.Prelude.{◌≡◌, ◌++◌, ◌<◌, ◌≤◌, IfOk, OnOk, decimal};
ghost use Rattle.helix_workload.specs.Workload.{date_fields, first_part, flag_field, last_part, members, number_fields, text_field, two_digits, workload_text as text_by_number};
ghost use Rattle.helix_workload.specs.Inner.{draws_in};

use crate::draws::{Draws, draws_of};
use helix_base::{Bytes, List, Memory};
use itoa::Buffer;
use std::alloc::{AllocError, Global};

/// How many members the set has.
const MEMBERS: u64 = 2_000;

/// The text of the profile of a workload. It depends on the number alone.
pub fn workload_text(alloc: Global, number: u64) -> Result<Bytes, Memory>
    ensures { IfOk result (λ text. text ≡ text_by_number number) }
{
    let draws = draws_of(number);
    let mut text = Vec::new(alloc);
    push_text_field(&mut text)?;
    push_date_fields(&mut text)?;
    push_number_fields(&mut text)?;
    push_flag_field(&mut text)?;
    push_first(&mut text, draws)?;
    push_members(&mut text, draws.least)?;
    push_last(&mut text, draws.least)?;
    Ok(List::from_vec(text))
}

/// The field of a text.
fn push_text_field(text: &mut Vec<u8>) -> Result<(), AllocError>
    ensures { OnOk result (text.new.items ≡ text.old.items ++ text_field) }
{
    text.extend_from_slice(
        b"{\"fields\":[{\"name\":\"id\",\"type\":\"string\",\"nullable\":false},",
    )
}

/// Those of two dates.
fn push_date_fields(text: &mut Vec<u8>) -> Result<(), AllocError>
    ensures { OnOk result (text.new.items ≡ text.old.items ++ date_fields) }
{
    text.extend_from_slice(
        b"{\"name\":\"day\",\"type\":\"date\",\"nullable\":false},{\"name\":\"end\",\"type\":\"date\",\"nullable\":false},",
    )
}

/// Those of two numbers.
fn push_number_fields(text: &mut Vec<u8>) -> Result<(), AllocError>
    ensures { OnOk result (text.new.items ≡ text.old.items ++ number_fields) }
{
    text.extend_from_slice(
        b"{\"name\":\"code\",\"type\":\"integer\",\"nullable\":false},{\"name\":\"amount\",\"type\":\"decimal\",\"nullable\":false},",
    )
}

/// That of a flag, the last one.
fn push_flag_field(text: &mut Vec<u8>) -> Result<(), AllocError>
    ensures { OnOk result (text.new.items ≡ text.old.items ++ flag_field) }
{
    text.extend_from_slice(b"{\"name\":\"flag\",\"type\":\"boolean\"}],")
}

/// The text from there up to the members of the set.
fn push_first(text: &mut Vec<u8>, draws: Draws) -> Result<(), AllocError>
    ensures { OnOk result (text.new.items ≡ text.old.items ++ first_part (draws_in draws)) }
{
    text.extend_from_slice(b"\"constraints\":[{\"field\":\"id\",\"matchingRegex\":\"[A-H]{")?;
    push_number(text, draws.letters)?;
    text.extend_from_slice(b"}[0-9]{2}\"},{\"field\":\"day\",\"afterOrAt\":\"2024-01-")?;
    push_day(text, draws.day)?;
    text.extend_from_slice(
        b"\"},{\"field\":\"day\",\"before\":\"2025-01-01\"},{\"field\":\"end\",\"afterField\":\"day\",\"offset\":",
    )?;
    push_number(text, draws.days)?;
    text.extend_from_slice(
        b",\"offsetUnit\":\"days\"},{\"field\":\"end\",\"before\":\"2026-01-01\"},{\"field\":\"code\",\"inSet\":[",
    )
}

/// The members of the set, in descending order.
fn push_members(text: &mut Vec<u8>, least: u64) -> Result<(), AllocError>
    requires { least < 1000 }
    ensures { OnOk result (text.new.items ≡ text.old.items ++ members least MEMBERS) }
{
    let mut left = MEMBERS;
    while left > 1 {
        left -= 1;
        push_number(text, least + 7 * left)?;
        text.push(b',')?;
    }
    push_number(text, least)
}

/// The text from there on.
fn push_last(text: &mut Vec<u8>, least: u64) -> Result<(), AllocError>
    requires { least < 1000 }
    ensures { OnOk result (text.new.items ≡ text.old.items ++ last_part least) }
{
    text.extend_from_slice(
        b"]},{\"field\":\"amount\",\"granularTo\":0.01},{\"field\":\"amount\",\"greaterThan\":",
    )?;
    push_number(text, least)?;
    text.extend_from_slice(b"},{\"field\":\"amount\",\"lessThan\":")?;
    push_number(text, least + 100)?;
    text.extend_from_slice(
        b"},{\"if\":{\"field\":\"flag\",\"equalTo\":true},\"then\":{\"field\":\"amount\",\"greaterThanOrEqualTo\":",
    )?;
    push_number(text, least + 50)?;
    text.extend_from_slice(b"}}]}")
}

/// A number in decimal.
fn push_number(text: &mut Vec<u8>, number: u64) -> Result<(), AllocError>
    ensures { OnOk result (text.new.items ≡ text.old.items ++ decimal number) }
{
    let mut digits = Buffer::new();
    text.extend_from_slice(digits.format(number).as_bytes())
}

/// A day of a month in two digits.
fn push_day(text: &mut Vec<u8>, day: u64) -> Result<(), AllocError>
    ensures { OnOk result (text.new.items ≡ text.old.items ++ two_digits day) }
{
    if day < 10 {
        text.push(b'0')?;
    }
    push_number(text, day)
}
