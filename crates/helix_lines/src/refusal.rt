//! The lines that tell why a profile or a token is refused.

ghost use Rattle.std.specs.Prelude.{◌≡◌, ◌++◌, IfOk};
ghost use Rattle.helix_lines.specs.Lines.{place_line, refused_line, token_line};
ghost use Rattle.helix_token.specs.declared.fault.TokenFault.TheVariants.{OtherProfile};

use helix_base::{Bytes, Memory};
use helix_schema::{Location, Refusal};
use helix_token::TokenFault;
use itoa::Buffer;
use std::alloc::Global;

/// The line of a profile that breaks a rule.
pub fn refused_line(alloc: Global, refused: &Refusal) -> Result<Bytes, Memory>
    ensures { IfOk result (λ line. line ≡ refused_line refused.now) }
{
    let place = place_line(alloc, &refused.location)?;
    joined(
        alloc,
        b"refused: rule ",
        refused.rule.name().as_bytes(),
        b" at ",
        place.as_slice(),
    )
}

/// The place of a refusal.
fn place_line(alloc: Global, location: &Location) -> Result<Bytes, Memory>
    ensures { IfOk result (λ line. line ≡ place_line location.now) }
{
    match location {
        Location::Byte(at) => {
            let mut digits = Buffer::new();
            alone(alloc, digits.format(*at).as_bytes())
        }
        Location::Pointer(pointer) => {
            let written = pointer.written(alloc)?;
            alone(alloc, written.as_str().as_bytes())
        }
    }
}

/// The line of a token that is refused. Want of memory is no refusal.
pub fn token_line(alloc: Global, fault: &TokenFault) -> Result<Bytes, Memory>
    ensures { IfOk result (λ line. line ≡ token_line fault.now) }
{
    match fault {
        TokenFault::Form => alone(alloc, b"token: form"),
        TokenFault::OtherProfile { found, wanted } => digests_line(alloc, found, wanted),
        TokenFault::Cell { index } => {
            let mut digits = Buffer::new();
            two(alloc, b"token: cell ", digits.format(*index).as_bytes())
        }
        TokenFault::Memory => alone(alloc, b"fault: memory"),
    }
}

/// The line of a token of another profile.
fn digests_line(alloc: Global, found: &[u8; 32], wanted: &[u8; 32]) -> Result<Bytes, Memory>
    ensures { IfOk result (λ line. line ≡ token_line (OtherProfile found.now wanted.now)) }
{
    let found = hex::encode(alloc, found)?;
    let wanted = hex::encode(alloc, wanted)?;
    joined(
        alloc,
        b"token: other profile ",
        found.as_str().as_bytes(),
        b" wanted ",
        wanted.as_str().as_bytes(),
    )
}

/// Bytes of their own.
fn alone(alloc: Global, bytes: &[u8]) -> Result<Bytes, Memory>
    ensures { IfOk result (λ line. line ≡ bytes.now) }
{
    Ok(Bytes::from_vec(Vec::from_slice(alloc, bytes)?))
}

/// Two pieces, one after the other.
fn two(alloc: Global, first: &[u8], second: &[u8]) -> Result<Bytes, Memory>
    ensures { IfOk result (λ line. line ≡ first.now ++ second.now) }
{
    let mut line = Vec::from_slice(alloc, first)?;
    line.extend_from_slice(second)?;
    Ok(Bytes::from_vec(line))
}

/// Four pieces, one after the other.
fn joined(
    alloc: Global,
    first: &[u8],
    second: &[u8],
    third: &[u8],
    fourth: &[u8],
) -> Result<Bytes, Memory>
    ensures { IfOk result (λ line. line ≡ first.now ++ (second.now ++ (third.now ++ fourth.now))) }
{
    let mut line = Vec::from_slice(alloc, first)?;
    line.extend_from_slice(second)?;
    line.extend_from_slice(third)?;
    line.extend_from_slice(fourth)?;
    Ok(Bytes::from_vec(line))
}
