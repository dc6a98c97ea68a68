//! Faults of words.

use super::read;
use crate::{OptionName, WordsFault, read_words};
use std::alloc::Global;
use std::process::Abort;
use std::test::Fail;

/// The words of each line have this fault.
fn have(rt: &impl Abort, alloc: Global, lines: &[&str], fault: WordsFault) -> Result<(), Fail> {
    for line in lines {
        let found = read(alloc, line)?.err();
        assert_eq!(rt; found, Some(fault), "{line}");
    }
    Ok(())
}

/// The words of each line blame this option.
pub fn blame(
    rt: &impl Abort,
    alloc: Global,
    option: OptionName,
    lines: &[&str],
) -> Result<(), Fail> {
    have(rt, alloc, lines, WordsFault::Option(option))
}

#[test]
fn tells_a_word_without_an_option(rt: HostRuntime) -> Result<(), Fail> {
    let alloc = rt.alloc();
    let first = [
        "--help",
        "--version",
        "x",
        "",
        "=",
        "=x",
        "--Replace",
        "--replace ",
        "-profile-file=p",
        "x|--max-rows=0",
    ];
    have(&rt, alloc, &first, WordsFault::Word(1))?;
    let second = [
        "--profile-file=p|--bogus=1|--output-path=o",
        "--replace|",
        "--replace|=o",
        "--profile-file=p|--profile-file =q",
    ];
    have(&rt, alloc, &second, WordsFault::Word(2))?;
    let last = [
        "--profile-file|p|--output-path|o|x",
        "--max-rows|1|--workload|1|--",
    ];
    have(&rt, alloc, &last, WordsFault::Word(5))
}

#[test]
fn tells_a_repeated_option(rt: HostRuntime) -> Result<(), Fail> {
    let alloc = rt.alloc();
    let flags = [
        "--replace|--replace|--profile-file=p|--output-path=o",
        "--profile-file=p|--replace|--output-path=o|--replace",
    ];
    blame(&rt, alloc, OptionName::Replace, &flags)?;
    let names = [
        "--profile-file=p|--profile-file=p|--output-path=o",
        "--profile-file=p|--output-path=o|--profile-file|q",
    ];
    blame(&rt, alloc, OptionName::ProfileFile, &names)?;
    let numbers = [
        "--profile-file=p|--max-rows=1|--output-path=o|--max-rows=1",
        "--max-rows|1|--max-rows|2|x",
    ];
    blame(&rt, alloc, OptionName::MaxRows, &numbers)
}

#[test]
fn tells_a_missing_value(rt: HostRuntime) -> Result<(), Fail> {
    let alloc = rt.alloc();
    let cases = [
        (OptionName::ProfileFile, "--profile-file"),
        (OptionName::OutputPath, "--profile-file=p|--output-path"),
        (OptionName::OutputFormat, "--output-format"),
        (OptionName::MaxRows, "--workload=1|--max-rows"),
        (OptionName::ResumeFile, "--replace|--resume-file"),
        (OptionName::TokenFile, "--token-file"),
        (OptionName::Violate, "--violate"),
        (OptionName::ViolateRule, "--violate-rule"),
        (OptionName::Characters, "--characters"),
        (OptionName::Workload, "--workload"),
    ];
    for (option, line) in cases {
        blame(&rt, alloc, option, &[line])?;
    }
    Ok(())
}

#[test]
fn tells_a_wrong_name_or_word(rt: HostRuntime) -> Result<(), Fail> {
    let alloc = rt.alloc();
    let cases = [
        (OptionName::ProfileFile, "--profile-file="),
        (OptionName::ProfileFile, "--profile-file||--output-path=o"),
        (OptionName::OutputPath, "--profile-file=p|--output-path=|x"),
        (OptionName::ResumeFile, "--resume-file="),
        (OptionName::TokenFile, "--token-file="),
        (OptionName::ViolateRule, "--violate-rule="),
        (OptionName::OutputFormat, "--output-format=CSV"),
        (OptionName::OutputFormat, "--output-format=|x"),
        (OptionName::Characters, "--characters=Latin"),
        (OptionName::Characters, "--characters|--replace|x"),
        (OptionName::Replace, "--replace="),
        (OptionName::Replace, "--profile-file=p|--replace=true|x"),
        (OptionName::ViolateAll, "--violate-all=1|x"),
        (OptionName::Boundary, "--boundary="),
        (OptionName::Explain, "--explain=="),
    ];
    for (option, line) in cases {
        blame(&rt, alloc, option, &[line])?;
    }
    Ok(())
}

#[test]
fn tells_a_wrong_number(rt: HostRuntime) -> Result<(), Fail> {
    let alloc = rt.alloc();
    let rows = [
        "--max-rows=0",
        "--max-rows=00",
        "--max-rows=01",
        "--max-rows=+1",
        "--max-rows=-1",
        "--max-rows=",
        "--max-rows= 1",
        "--max-rows=1.",
        "--max-rows=1000000000001",
        "--max-rows=18446744073709551617",
        "--max-rows|--replace",
        "--profile-file=p|--max-rows=0|--output-path=o",
        "--profile-file=p|--output-path=o|--max-rows|01",
    ];
    blame(&rt, alloc, OptionName::MaxRows, &rows)?;
    blame(
        &rt,
        alloc,
        OptionName::Violate,
        &["--violate=0", "--violate|1000000000001|x"],
    )?;
    blame(
        &rt,
        alloc,
        OptionName::Workload,
        &["--workload=01", "--max-rows=1|--workload|1e3|x"],
    )
}

#[test]
fn tells_a_number_of_a_million_digits(rt: HostRuntime) -> Result<(), Fail> {
    let alloc = rt.alloc();
    let mut line = String::from_str(alloc, "--max-rows=")?;
    for _ in 0..100_000 {
        line.push_str("1234567890")?;
    }
    let found = read(alloc, line.as_str())?.err();
    assert_eq!(rt; found, Some(WordsFault::Option(OptionName::MaxRows)));
    Ok(())
}

#[test]
fn tells_what_is_missing(rt: HostRuntime) -> Result<(), Fail> {
    let alloc = rt.alloc();
    let none: [String; 0] = [];
    let found = read_words(alloc, &none).err();
    assert_eq!(rt; found, Some(WordsFault::Option(OptionName::ProfileFile)));
    blame(
        &rt,
        alloc,
        OptionName::ProfileFile,
        &["--replace", "--output-path=o", "--max-rows=5|--explain"],
    )?;
    blame(
        &rt,
        alloc,
        OptionName::OutputPath,
        &["--profile-file=p", "--profile-file|--output-path"],
    )?;
    blame(&rt, alloc, OptionName::MaxRows, &["--workload=1"])
}
