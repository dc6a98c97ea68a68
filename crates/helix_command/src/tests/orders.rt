//! Orders of words.

use super::read;
use crate::{Job, Order};
use helix_base::{Alphabet, Text};
use helix_output::Format;
use std::alloc::Global;
use std::process::Abort;
use std::test::Fail;

/// A text, or `-` where there is none.
fn shown(alloc: Global, text: &Option<Text>) -> Result<String, Fail> {
    match text {
        Some(text) => Ok(text.written(alloc)?),
        None => Ok(String::from_str(alloc, "-")?),
    }
}

/// The names of a job, and its row limit.
fn names(alloc: Global, job: &Job) -> Result<String, Fail> {
    let profile = job.profile.written(alloc)?;
    let output = job.output.written(alloc)?;
    let resume = shown(alloc, &job.resume)?;
    let token = shown(alloc, &job.token)?;
    let rule = shown(alloc, &job.violate_rule)?;
    Ok(format!(in alloc; "{profile} {output} {resume} {token} {rule} {}", job.limit)?)
}

/// The names and the row limit of the job that the words of a line give.
fn gives_names(rt: &impl Abort, alloc: Global, line: &str, want: &str) -> Result<(), Fail> {
    match read(alloc, line)? {
        Ok(Order::Generate(job)) => {
            let found = names(alloc, &job)?;
            assert!(rt; found.as_str() == want, "{line}: {found}");
        }
        _ => assert!(rt; false, "{line}"),
    }
    Ok(())
}

#[test]
fn reads_names_and_limits(rt: HostRuntime) -> Result<(), Fail> {
    let alloc = rt.alloc();
    let cases = [
        ("--profile-file=p|--output-path=o", "p o - - - 10000000"),
        ("--output-path|o|--profile-file|p", "p o - - - 10000000"),
        (
            "--profile-file|--output-path|--output-path|--replace",
            "--output-path --replace - - - 10000000",
        ),
        ("--profile-file=a=b|--output-path==", "a=b = - - - 10000000"),
        (
            "--profile-file=é€😀|--output-path|--output-path=",
            "é€😀 --output-path= - - - 10000000",
        ),
        (
            "--resume-file=r|--profile-file=p|--output-path=o|--token-file|r",
            "p o r r - 10000000",
        ),
        (
            "--profile-file=p|--violate-rule|above one|--output-path=o",
            "p o - - above one 10000000",
        ),
        (
            "--profile-file=p|--output-path=o|--max-rows=1",
            "p o - - - 1",
        ),
        (
            "--max-rows|1000000000000|--profile-file=p|--output-path=o",
            "p o - - - 1000000000000",
        ),
        ("--profile-file=o.1|--output-path=o", "o.1 o - - - 10000000"),
        (
            "--violate-all|--profile-file=o.1001|--output-path=o",
            "o.1001 o - - - 10000000",
        ),
        (
            "--violate-all|--profile-file=o.01|--output-path=o",
            "o.01 o - - - 10000000",
        ),
        (
            "--violate-all|--profile-file=o.0|--output-path=o",
            "o.0 o - - - 10000000",
        ),
        (
            "--violate-all|--profile-file=o|--output-path=o.1",
            "o o.1 - - - 10000000",
        ),
        (
            "--violate-all|--profile-file=o.|--output-path=o",
            "o. o - - - 10000000",
        ),
    ];
    for (line, want) in cases {
        gives_names(&rt, alloc, line, want)?;
    }
    Ok(())
}

/// The modes of a job: format, alphabet, the violated constraint, and its flags.
fn modes(job: &Job) -> (Format, Alphabet, Option<u64>, [bool; 4]) {
    let flags = [job.replace, job.violate_all, job.boundary, job.explain];
    (job.format, job.alphabet, job.violate, flags)
}

/// The modes of the job that the words of a line give, after its names.
fn gives_modes(
    rt: &impl Abort,
    alloc: Global,
    more: &str,
    want: (Format, Alphabet, Option<u64>, [bool; 4]),
) -> Result<(), Fail> {
    let line = format!(in alloc; "--profile-file=p|--output-path=o{more}")?;
    match read(alloc, line.as_str())? {
        Ok(Order::Generate(job)) => {
            let found = modes(&job);
            assert!(rt; found.0 == want.0 && found.1 == want.1, "{line}");
            assert!(rt; found.2 == want.2 && found.3 == want.3, "{line}");
        }
        _ => assert!(rt; false, "{line}"),
    }
    Ok(())
}

#[test]
fn reads_modes(rt: HostRuntime) -> Result<(), Fail> {
    let alloc = rt.alloc();
    let none = [false; 4];
    let cases = [
        ("", (Format::Csv, Alphabet::Basic, None, none)),
        (
            "|--output-format=json",
            (Format::Json, Alphabet::Basic, None, none),
        ),
        (
            "|--output-format|csv",
            (Format::Csv, Alphabet::Basic, None, none),
        ),
        (
            "|--characters=basic",
            (Format::Csv, Alphabet::Basic, None, none),
        ),
        (
            "|--characters=latin",
            (Format::Csv, Alphabet::Latin, None, none),
        ),
        (
            "|--characters|unicode",
            (Format::Csv, Alphabet::Unicode, None, none),
        ),
        (
            "|--violate=1",
            (Format::Csv, Alphabet::Basic, Some(1), none),
        ),
        (
            "|--violate|1000000000000",
            (Format::Csv, Alphabet::Basic, Some(1_000_000_000_000), none),
        ),
        (
            "|--replace",
            (
                Format::Csv,
                Alphabet::Basic,
                None,
                [true, false, false, false],
            ),
        ),
        (
            "|--replace|--violate-all",
            (
                Format::Csv,
                Alphabet::Basic,
                None,
                [true, true, false, false],
            ),
        ),
        (
            "|--boundary|--violate=2",
            (
                Format::Csv,
                Alphabet::Basic,
                Some(2),
                [false, false, true, false],
            ),
        ),
        (
            "|--explain|--violate|30",
            (
                Format::Csv,
                Alphabet::Basic,
                Some(30),
                [false, false, false, true],
            ),
        ),
    ];
    for (more, want) in cases {
        gives_modes(&rt, alloc, more, want)?;
    }
    Ok(())
}

#[test]
fn reads_workloads(rt: HostRuntime) -> Result<(), Fail> {
    let cases = [
        ("--workload=1|--max-rows=3", (1, 3)),
        (
            "--max-rows|1000000000000|--workload|1000000000000",
            (1_000_000_000_000, 1_000_000_000_000),
        ),
    ];
    for (line, want) in cases {
        match read(rt.alloc(), line)? {
            Ok(Order::Workload { number, limit }) => assert_eq!(rt;
                (number, limit),
                want,
                "{line}"
            ),
            _ => assert!(rt; false, "{line}"),
        }
    }
    Ok(())
}
