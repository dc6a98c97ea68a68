//! The lengths that signed atoms leave to a text.

ghost use Rattle.std.specs.Prelude.{ℕ, ◌≡◌, ◌≢◌, ◌↔◌, ◌≤◌, ◌<◌, IfOk};
ghost use Rattle.std.specs.List.{All};
ghost use Rattle.helix_domains.specs.Inner.Texts.{IsLengthOf, PassesLength};
ghost use Rattle.helix_profile.specs.Satisfaction.{Signed};

use crate::atom::SignedAtom;
use helix_base::{Memory, Numbers32};
use helix_profile::Test;
use std::alloc::Global;

/// The lengths from `shortest` on and below `end` that aren't refused.
#[derive(Debug, Drop)]
pub struct Lengths {
    pub shortest: u32,
    pub end: u32,
    pub refused: Numbers32,
}

/// The same lengths but those below one.
fn from(lengths: Lengths, shortest: u32) -> Lengths
    ensures exact { (n : ℕ) → IsLengthOf result n ↔ (IsLengthOf lengths n × (shortest ≤ n)) }
    ensures end { result.end ≡ lengths.end }
{
    Lengths {
        shortest: lengths.shortest.max(shortest),
        end: lengths.end,
        refused: lengths.refused,
    }
}

/// The same lengths but those from one on.
fn below(lengths: Lengths, end: u32) -> Lengths
    ensures exact { (n : ℕ) → IsLengthOf result n ↔ (IsLengthOf lengths n × (n < end)) }
    ensures end { result.end ≤ lengths.end }
{
    Lengths {
        shortest: lengths.shortest,
        end: lengths.end.min(end),
        refused: lengths.refused,
    }
}

/// The same lengths but one.
fn without(lengths: Lengths, length: u32) -> Result<Lengths, Memory>
    ensures exact { IfOk result (λ new. (n : ℕ) → IsLengthOf new n ↔ (IsLengthOf lengths n × (n ≢ length))) }
    ensures end { IfOk result (λ new. new.end ≡ lengths.end) }
{
    let Lengths {
        shortest,
        end,
        mut refused,
    } = lengths;
    refused.push(length)?;
    Ok(Lengths {
        shortest,
        end,
        refused,
    })
}

/// The lengths that are this one, or with a false sign the others.
fn with_length(lengths: Lengths, count: u32, sign: bool) -> Result<Lengths, Memory>
    requires { lengths.end ≤ 1001 }
    ensures exact { IfOk result (λ new. (n : ℕ) → IsLengthOf new n ↔ (IsLengthOf lengths n × Signed sign (n ≡ count))) }
    ensures end { IfOk result (λ new. new.end ≤ 1001) }
{
    if sign {
        Ok(below(from(lengths, count), count.saturating_add(1)))
    } else {
        without(lengths, count)
    }
}

/// The lengths above one, or with a false sign the others.
fn with_longer(lengths: Lengths, count: u32, sign: bool) -> Lengths
    requires { lengths.end ≤ 1001 }
    ensures exact { (n : ℕ) → IsLengthOf result n ↔ (IsLengthOf lengths n × Signed sign (count < n)) }
    ensures end { result.end ≤ 1001 }
{
    if sign {
        from(lengths, count.saturating_add(1))
    } else {
        below(lengths, count.saturating_add(1))
    }
}

/// The lengths below one, or with a false sign the others.
fn with_shorter(lengths: Lengths, count: u32, sign: bool) -> Lengths
    requires { lengths.end ≤ 1001 }
    ensures exact { (n : ℕ) → IsLengthOf result n ↔ (IsLengthOf lengths n × Signed sign (n < count)) }
    ensures end { result.end ≤ 1001 }
{
    if sign {
        below(lengths, count)
    } else {
        from(lengths, count)
    }
}

/// The same lengths but those of texts that fail a signed atom.
fn with_atom(lengths: Lengths, signed: &SignedAtom) -> Result<Lengths, Memory>
    requires { lengths.end ≤ 1001 }
    ensures exact { IfOk result (λ new. (n : ℕ) → IsLengthOf new n
        ↔ (IsLengthOf lengths n × PassesLength signed.now n)) }
    ensures end { IfOk result (λ new. new.end ≤ 1001) }
{
    let sign = signed.sign;
    match signed.atom.test {
        Test::OfLength(count) => with_length(lengths, count, sign),
        Test::LongerThan(count) => Ok(with_longer(lengths, count, sign)),
        Test::ShorterThan(count) => Ok(with_shorter(lengths, count, sign)),
        _ => Ok(lengths),
    }
}

/// The lengths of texts that signed atoms leave.
pub fn lengths_of(alloc: Global, atoms: &[SignedAtom]) -> Result<Lengths, Memory>
    ensures exact { IfOk result (λ lengths. (n : ℕ) → IsLengthOf lengths n
        ↔ ((n ≤ 1000) × All (λ signed. PassesLength signed n) atoms.now)) }
    ensures end { IfOk result (λ lengths. lengths.end ≤ 1001) }
{
    let mut lengths = Lengths {
        shortest: 0,
        end: 1001,
        refused: Numbers32::new(alloc),
    };
    for signed in atoms {
        lengths = with_atom(lengths, signed)?;
    }
    Ok(lengths)
}
