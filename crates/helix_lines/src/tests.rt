use crate::{Ending, Status, refused_line, show, token_line};
use helix_base::{Bytes, Memory, Text};
use helix_command::OptionName;
use helix_outside::{Calls, MemoryConsole};
use helix_rules::Rule;
use helix_schema::{Location, Refusal};
use helix_token::TokenFault;
use std::alloc::Global;
use std::process::Abort;
use std::test::Fail;

/// A console, whose line of this number fails.
fn console(alloc: Global, failing: u64) -> Result<MemoryConsole, Fail> {
    let mut calls = Calls::new(alloc);
    calls.push(failing)?;
    Ok(MemoryConsole::open(calls))
}

fn bytes(alloc: Global, text: &str) -> Result<Bytes, Memory> {
    Ok(Bytes::from_vec(Vec::from_slice(alloc, text.as_bytes())?))
}

/// A cut run, with a token that is shown.
fn cut(alloc: Global) -> Result<Ending, Memory> {
    Ok(Ending::Cut {
        rows: 2,
        token: Some(bytes(alloc, "{}")?),
    })
}

/// Shows an ending on a console whose line of this number fails.
fn shown(
    rt: &impl Abort,
    alloc: Global,
    ending: &Ending,
    failing: u64,
    text: &str,
    status: Status,
) -> Result<(), Fail> {
    let mut console = console(alloc, failing)?;
    assert_eq!(rt; show(&mut console, ending), status, "{text}");
    assert_eq!(rt; console.text(), text.as_bytes(), "{text}");
    Ok(())
}

#[test]
fn endings_have_their_lines(rt: HostRuntime) -> Result<(), Fail> {
    let alloc = rt.alloc();
    let refused = Ending::ProfileRefused(bytes(alloc, "refused: rule S3 at #")?);
    let token = Ending::TokenRefused(bytes(alloc, "token: form")?);
    let filed = Ending::Cut {
        rows: 18_446_744_073_709_551_615,
        token: None,
    };
    shown(
        &rt,
        alloc,
        &Ending::Word(1),
        0,
        "usage: word 1\n",
        Status::Usage,
    )?;
    shown(
        &rt,
        alloc,
        &Ending::Option(OptionName::ProfileFile),
        0,
        "usage: option --profile-file\n",
        Status::Usage,
    )?;
    shown(
        &rt,
        alloc,
        &Ending::ReadFault,
        0,
        "fault: read\n",
        Status::ReadFault,
    )?;
    shown(
        &rt,
        alloc,
        &Ending::WriteFault,
        0,
        "fault: write\n",
        Status::WriteFault,
    )?;
    shown(
        &rt,
        alloc,
        &Ending::WantOfMemory,
        0,
        "fault: memory\n",
        Status::WantOfMemory,
    )?;
    shown(
        &rt,
        alloc,
        &refused,
        0,
        "refused: rule S3 at #\n",
        Status::ProfileRefused,
    )?;
    shown(&rt, alloc, &token, 0, "token: form\n", Status::TokenRefused)?;
    shown(
        &rt,
        alloc,
        &Ending::Done(3),
        0,
        "done: 3 rows\n",
        Status::Done,
    )?;
    shown(
        &rt,
        alloc,
        &Ending::Empty,
        0,
        "empty: 0 rows\n",
        Status::Empty,
    )?;
    shown(
        &rt,
        alloc,
        &filed,
        0,
        "cut: 18446744073709551615 rows\n",
        Status::Cut,
    )?;
    shown(
        &rt,
        alloc,
        &cut(alloc)?,
        0,
        "cut: 2 rows\n{}\n",
        Status::Cut,
    )
}

#[test]
fn a_console_that_fails_is_a_fault_of_a_run_that_wrote(rt: HostRuntime) -> Result<(), Fail> {
    let alloc = rt.alloc();
    shown(&rt, alloc, &Ending::Done(3), 1, "", Status::WriteFault)?;
    shown(&rt, alloc, &Ending::Empty, 1, "", Status::WriteFault)?;
    shown(&rt, alloc, &cut(alloc)?, 1, "", Status::WriteFault)?;
    shown(
        &rt,
        alloc,
        &cut(alloc)?,
        2,
        "cut: 2 rows\n",
        Status::WriteFault,
    )?;
    shown(&rt, alloc, &Ending::Word(1), 1, "", Status::Usage)?;
    shown(&rt, alloc, &Ending::ReadFault, 1, "", Status::ReadFault)
}

#[test]
fn refusals_have_their_lines(rt: HostRuntime) -> Result<(), Fail> {
    let alloc = rt.alloc();
    let broken = Refusal {
        rule: Rule::S12,
        location: Location::Pointer(Text::of(alloc, "#/constraints/0/equalTo")?),
    };
    let cut = Refusal {
        rule: Rule::J3,
        location: Location::Byte(11),
    };
    let other = TokenFault::OtherProfile {
        found: [0; 32],
        wanted: [171; 32],
    };
    let lines = [
        (
            refused_line(alloc, &broken)?,
            "refused: rule S12 at #/constraints/0/equalTo",
        ),
        (refused_line(alloc, &cut)?, "refused: rule J3 at 11"),
        (token_line(alloc, &TokenFault::Form)?, "token: form"),
        (
            token_line(alloc, &TokenFault::Cell { index: 0 })?,
            "token: cell 0",
        ),
        (
            token_line(alloc, &other)?,
            "token: other profile 0000000000000000000000000000000000000000000000000000000000000000 wanted abababababababababababababababababababababababababababababababab",
        ),
    ];
    for (line, text) in lines.iter() {
        assert_eq!(rt; line.as_slice(), text.as_bytes(), "{text}");
    }
    Ok(())
}
