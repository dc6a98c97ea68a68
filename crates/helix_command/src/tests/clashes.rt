//! Options that do not go together.

use super::faults::blame;
use crate::OptionName;
use std::test::Fail;

#[test]
fn tells_what_does_not_go_with_a_workload(rt: HostRuntime) -> Result<(), Fail> {
    let alloc = rt.alloc();
    let cases = [
        (
            OptionName::OutputPath,
            "--output-path=p|--workload=1|--profile-file=p",
        ),
        (
            OptionName::ProfileFile,
            "--max-rows=1|--workload=1|--profile-file=p|--output-path=p",
        ),
        (
            OptionName::Explain,
            "--explain|--workload=1|--characters=basic",
        ),
        (
            OptionName::Characters,
            "--workload=1|--characters=basic|--explain|--max-rows=1",
        ),
        (OptionName::Replace, "--workload=1|--replace"),
        (
            OptionName::ViolateAll,
            "--violate-all|--boundary|--workload=1",
        ),
    ];
    for (option, line) in cases {
        blame(&rt, alloc, option, &[line])?;
    }
    Ok(())
}

#[test]
fn tells_names_that_clash(rt: HostRuntime) -> Result<(), Fail> {
    let alloc = rt.alloc();
    let output = [
        "--profile-file=p|--output-path=p",
        "--output-path|o|--profile-file|p|--resume-file|o",
        "--token-file=p|--output-path=p|--profile-file=p",
        "--profile-file=é|--output-path=é|--violate=1|--violate-rule=x",
        "--profile-file=o.1|--output-path=o|--violate-all",
        "--violate-all|--profile-file=o.1000|--output-path=o",
        "--explain|--violate-all|--profile-file=o.10|--output-path=o",
    ];
    blame(&rt, alloc, OptionName::OutputPath, &output)?;
    let token = [
        "--profile-file=p|--output-path=o|--token-file=p",
        "--token-file=o|--profile-file=p|--output-path=o",
        "--violate-rule=r|--violate=1|--token-file=p|--profile-file=p|--output-path=o",
    ];
    blame(&rt, alloc, OptionName::TokenFile, &token)
}

#[test]
fn tells_modes_that_clash(rt: HostRuntime) -> Result<(), Fail> {
    let alloc = rt.alloc();
    let cases = [
        (
            OptionName::ViolateRule,
            "--profile-file=p|--output-path=o|--violate-rule=r|--violate=1",
        ),
        (
            OptionName::ViolateRule,
            "--violate-all|--violate=1|--violate-rule=r|--profile-file=p|--output-path=o",
        ),
        (
            OptionName::Violate,
            "--profile-file=p|--output-path=o|--violate-all|--violate=1",
        ),
        (
            OptionName::ResumeFile,
            "--resume-file=r|--token-file=t|--violate-all|--profile-file=p|--output-path=o",
        ),
        (
            OptionName::TokenFile,
            "--token-file=t|--violate=1|--violate-all|--profile-file=p|--output-path=o",
        ),
        (
            OptionName::Boundary,
            "--boundary|--violate-all|--profile-file=p|--output-path=o",
        ),
        (
            OptionName::Boundary,
            "--explain|--violate-all|--boundary|--profile-file=p|--output-path=o",
        ),
        (
            OptionName::Explain,
            "--explain|--violate-all|--profile-file=p|--output-path=o",
        ),
        (
            OptionName::Explain,
            "--boundary|--profile-file=p|--explain|--output-path=o",
        ),
    ];
    for (option, line) in cases {
        blame(&rt, alloc, option, &[line])?;
    }
    Ok(())
}
