//! What is built of single atoms: sets of characters.

ghost use Rattle.std.specs.Prelude.{◌≡◌, ◌==◌, ◌&&◌, not, true, IfOk};
ghost use Rattle.helix_base.specs.Alphabet.{is_in_range};
ghost use Rattle.helix_base.specs.Ranges.{in_ranges};
ghost use Rattle.helix_regex.specs.Characters.{is_character, set_has};
ghost use Rattle.helix_regex.specs.Meaning.{are_separate, AreRangesOf};
ghost use Rattle.helix_regex.specs.Inner.Building.{class_has, PushesSet, Gained};

use crate::builder::{Builder, push_piece};
use crate::joined::separated;
use crate::sets::{push_clipped, push_gaps, push_one, push_set};
use helix_base::Memory;
use helix_expr::{Expr, Ranges};
use std::alloc::Global;

fn push_chars(alloc: Global, builder: Builder, raw: Vec<(u32, u32)>) -> Result<Builder, Memory>
    ensures { IfOk result (PushesSet (λ c. in_ranges raw.items c) builder) }
{
    let ranges = separated(alloc, raw)?;
    push_piece(builder, Expr::Chars(ranges))
}

/// Puts a class in, once its items are read.
pub fn end_class(alloc: Global, builder: Builder) -> Result<Builder, Memory>
    ensures { IfOk result (PushesSet (class_has builder.excluded builder.raw.items) builder) }
{
    let Builder {
        outer,
        done,
        pieces,
        raw,
        excluded,
    } = builder;
    let listed = separated(alloc, raw)?;
    let ranges = if excluded {
        outside(alloc, listed)?
    } else {
        listed
    };
    let builder = Builder {
        outer,
        done,
        pieces,
        raw: Vec::new(alloc),
        excluded,
    };
    push_piece(builder, Expr::Chars(ranges))
}

/// The separate ranges of all other characters.
fn outside(alloc: Global, listed: Ranges) -> Result<Ranges, Memory>
    requires { are_separate listed ≡ true }
    ensures { IfOk result (AreRangesOf (λ c. is_character c && not (in_ranges listed c))) }
{
    let mut raw = Vec::new(alloc);
    push_gaps(&mut raw, listed.as_slice())?;
    separated(alloc, raw)
}

/// A character of the class that is read.
pub fn push_item(builder: Builder, code: u32) -> Result<Builder, Memory>
    ensures { IfOk result (Gained (λ c. c == code) builder) }
{
    let mut builder = builder;
    push_one(&mut builder.raw, code)?;
    Ok(builder)
}

pub fn push_class_range(builder: Builder, first: u32, last: u32) -> Result<Builder, Memory>
    ensures { IfOk result (Gained (λ c. is_character c && is_in_range c (first, last)) builder) }
{
    let mut builder = builder;
    push_clipped(&mut builder.raw, first, last)?;
    Ok(builder)
}

pub fn push_class_set(builder: Builder, letter: u32) -> Result<Builder, Memory>
    ensures { IfOk result (Gained (set_has letter) builder) }
{
    let mut builder = builder;
    push_set(&mut builder.raw, letter)?;
    Ok(builder)
}

pub fn push_literal(alloc: Global, builder: Builder, code: u32) -> Result<Builder, Memory>
    ensures { IfOk result (PushesSet (λ c. c == code) builder) }
{
    let mut raw = Vec::new(alloc);
    push_one(&mut raw, code)?;
    push_chars(alloc, builder, raw)
}

pub fn push_dot(alloc: Global, builder: Builder) -> Result<Builder, Memory>
    ensures { IfOk result (PushesSet (λ c. is_character c) builder) }
{
    let mut raw = Vec::new(alloc);
    push_gaps(&mut raw, &[])?;
    push_chars(alloc, builder, raw)
}

pub fn push_named(alloc: Global, builder: Builder, letter: u32) -> Result<Builder, Memory>
    ensures { IfOk result (PushesSet (set_has letter) builder) }
{
    let mut raw = Vec::new(alloc);
    push_set(&mut raw, letter)?;
    push_chars(alloc, builder, raw)
}
