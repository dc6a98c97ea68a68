//! Runs on words and profiles.

use super::ending::{Left, expect, leaves, run_on};
use super::{flag, words};
use crate::Status;
use std::alloc::Global;
use std::process::Abort;
use std::test::Fail;

/// The text of a profile with one piece of it replaced. Long texts cost a proof much, so cases are short pieces.
fn replaced(alloc: Global, piece: &str, put: &str) -> Result<String, Fail> {
    let (before, after) = flag().split_once(piece).ok_or("the piece")?;
    let mut text = String::from_str(alloc, before)?;
    text.push_str(put)?;
    text.push_str(after)?;
    Ok(text)
}

/// A run on a profile leaves what it has to.
fn profile_leaves(
    rt: &impl Abort,
    alloc: Global,
    profile: &str,
    left: Left<'_>,
    of: &str,
) -> Result<(), Fail> {
    leaves(
        rt,
        alloc,
        (&words(), &[("p.json", profile)]),
        (0, 0),
        left,
        of,
    )
}

/// Pieces of a profile, what is put in their place, and whether the flag may be null then.
fn accepted() -> [(&'static str, &'static str, bool); 8] {
    [
        ("}]", "}]", true),
        ("}]", ",\"nullable\":true}]", true),
        ("}]", ",\"nullable\":false}]", false),
        ("\"flag\"", " \"flag\"\n", true),
        ("{\"fields\":[{", " {\t\"fields\" \n:\r[ { ", true),
        (
            ":\"boolean\"}]",
            "\n:\n\"boolean\"\t,\r\"nullable\" : false } ] ",
            false,
        ),
        (
            ",\"constraints\":[]}",
            " , \"constraints\" : [ ] }\n\n",
            true,
        ),
        ("flag", "flag", true),
    ]
}

#[test]
fn writes_the_rows_of_a_boolean_field(rt: HostRuntime) -> Result<(), Fail> {
    for (piece, put, nullable) in accepted() {
        let profile = replaced(rt.alloc(), piece, put)?;
        let (output, text) = if nullable {
            ("\"flag\"\nfalse\ntrue\n\n", "done: 3 rows\n")
        } else {
            ("\"flag\"\nfalse\ntrue\n", "done: 2 rows\n")
        };
        let left = (Status::Done, text, Some(output));
        profile_leaves(&rt, rt.alloc(), profile.as_str(), left, put)?;
    }
    Ok(())
}

#[test]
fn writes_the_name_of_the_field(rt: HostRuntime) -> Result<(), Fail> {
    let profile = replaced(rt.alloc(), "flag", " a, ~")?;
    let named = "\" a, ~\"\nfalse\ntrue\n\n";
    let left = (Status::Done, "done: 3 rows\n", Some(named));
    profile_leaves(&rt, rt.alloc(), profile.as_str(), left, "a name")
}

#[test]
fn reads_the_options_in_either_order(rt: HostRuntime) -> Result<(), Fail> {
    let [profile_option, profile, output_option, output] = words();
    let reversed = [output_option, output, profile_option, profile];
    let rows = "\"flag\"\nfalse\ntrue\n\n";
    let left = (Status::Done, "done: 3 rows\n", Some(rows));
    leaves(
        &rt,
        rt.alloc(),
        (&reversed, &[("p.json", flag())]),
        (0, 0),
        left,
        "reversed",
    )
}

/// Words that give no order.
fn wrong_words() -> [&'static [&'static str]; 9] {
    [
        &[],
        &["x"],
        &["--profile-file", "p.json", "--output-path"],
        &[
            "--profile-file",
            "p.json",
            "--output-path",
            "o.csv",
            "--replace",
        ],
        &["--profile-file", "", "--output-path", "o.csv"],
        &["--profile-file", "p.json", "--output-path", ""],
        &["--profile-file", "p.json", "--output-path", "p.json"],
        &["--profile-file", "p.json", "--profile-file", "p.json"],
        &["--profile-file", "p.json", "--output-file", "o.csv"],
    ]
}

#[test]
fn refuses_words(rt: HostRuntime) -> Result<(), Fail> {
    for list in wrong_words() {
        let ending = run_on(rt.alloc(), list, &[("p.json", flag())], (0, 0))?;
        expect(&rt, &ending, (Status::Usage, "usage\n", None), "words");
        assert_eq!(rt; ending.disk.calls(), 0);
    }
    Ok(())
}

/// A run on the profile is refused.
fn refuses(rt: &impl Abort, alloc: Global, profile: &str, of: &str) -> Result<(), Fail> {
    let left = (Status::ProfileRefused, "refused: rule NotYet at #\n", None);
    profile_leaves(rt, alloc, profile, left, of)
}

/// Pieces of a profile, and what is wrong in their place.
fn wrong_pieces() -> [(&'static str, &'static str); 10] {
    [
        ("{\"name\":\"flag\",\"type\":\"boolean\"}", ""),
        ("flag", ""),
        ("flag", "a\\n"),
        ("flag", "é"),
        ("boolean", "integer"),
        (
            "\"name\":\"flag\",\"type\":\"boolean\"",
            "\"type\":\"boolean\",\"name\":\"a\"",
        ),
        ("}]", ",\"nullable\":null}]"),
        ("[]", "[{}]"),
        ("[]}", "[]} x"),
        ("{\"fields\":", "{\"field\":"),
    ]
}

#[test]
fn refuses_profiles(rt: HostRuntime) -> Result<(), Fail> {
    for (piece, put) in wrong_pieces() {
        let profile = replaced(rt.alloc(), piece, put)?;
        refuses(&rt, rt.alloc(), profile.as_str(), put)?;
    }
    refuses(&rt, rt.alloc(), "{}", "an empty object")
}

/// The first characters of the profile.
fn first_characters(alloc: Global, length: usize) -> Result<String, Fail> {
    let mut cut = String::new(alloc);
    for (index, character) in flag().chars().enumerate() {
        if index < length {
            cut.push(character)?;
        }
    }
    Ok(cut)
}

#[test]
fn refuses_a_profile_that_is_cut(rt: HostRuntime) -> Result<(), Fail> {
    for length in 0..flag().len() {
        let cut = first_characters(rt.alloc(), length)?;
        refuses(&rt, rt.alloc(), cut.as_str(), cut.as_str())?;
    }
    Ok(())
}

/// How a run on the profile with blanks behind it ends.
fn end_with_blanks(alloc: Global, blanks: usize) -> Result<Status, Fail> {
    let mut profile = String::from_str(alloc, flag())?;
    for _ in 0..blanks {
        profile.push(' ')?;
    }
    let ending = run_on(alloc, &words(), &[("p.json", profile.as_str())], (0, 0))?;
    Ok(ending.status)
}

#[test]
fn reads_a_profile_of_the_maximum_size(rt: HostRuntime) -> Result<(), Fail> {
    let blanks = 1_048_576 - 62;
    assert_eq!(rt; end_with_blanks(rt.alloc(), blanks)?, Status::Done);
    assert_eq!(rt;
        end_with_blanks(rt.alloc(), blanks + 1)?,
        Status::ProfileRefused
    );
    Ok(())
}
