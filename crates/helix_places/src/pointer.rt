//! The pointer of a place (RFC 6901).

ghost use Rattle.std.specs.Prelude.{◌≡◌, ◌++◌, IfOk, OnOk, IsTrue, decimal, flat_map};
ghost use Rattle.std.specs.Char.{IsScalar};
ghost use Rattle.std.specs.Str.{all_scalars};
ghost use Rattle.helix_places.specs.Pointers.{escaped, step_text, pointer_of};

use crate::keys::push_bytes;
use crate::place::{Place, Step};
use helix_base::{Memory, Text};
use itoa::Buffer;
use std::alloc::Global;

/// The pointer of a place: `#`, then `/` and a key or an index for each step, as in `#/rules/0/rule`.
#[tactic(auto, using(crate::proofs::Steps::outer_step))]
pub fn pointer_of(alloc: Global, place: &Place) -> Result<Text, Memory>
    ensures { IfOk result (λ text. text ≡ pointer_of place.now) }
{
    let mut text = Text::new(alloc);
    text.push('#' as u32)?;
    let steps = place.steps_inside_out();
    for i in 0..steps.len() {
        push_step(&mut text, &steps[steps.len() - 1 - i])?;
    }
    Ok(text)
}

/// Appends the text of a step.
fn push_step(text: &mut Text, step: &Step) -> Result<(), Memory>
    ensures { OnOk result (text.new ≡ text.old ++ step_text step.now) }
{
    text.push('/' as u32)?;
    match step {
        Step::Member(key) => push_key(text, key.codes()),
        Step::Item(index) => push_digits(text, *index as u64),
    }
}

/// Appends a key, with `~0` for `~`, `~1` for `/`, and `?` for a character below U+0020.
#[tactic(auto, using(helix_base::specs::Inner::ScalarLaws::scalar_at))]
fn push_key(text: &mut Text, key: &[u32]) -> Result<(), Memory>
    requires { IsTrue (all_scalars key.now) }
    ensures { OnOk result (text.new ≡ text.old ++ flat_map escaped key.now) }
{
    for code in key {
        push_escaped(text, *code)?;
    }
    Ok(())
}

fn push_escaped(text: &mut Text, code: u32) -> Result<(), Memory>
    requires { IsScalar code }
    ensures { OnOk result (text.new ≡ text.old ++ escaped code) }
{
    if code == '~' as u32 {
        text.push('~' as u32)?;
        text.push('0' as u32)
    } else if code == '/' as u32 {
        text.push('~' as u32)?;
        text.push('1' as u32)
    } else if code < ' ' as u32 {
        text.push('?' as u32)
    } else {
        text.push(code)
    }
}

/// Appends the digits of a number.
fn push_digits(text: &mut Text, number: u64) -> Result<(), Memory>
    ensures { OnOk result (text.new ≡ text.old ++ decimal number) }
{
    let mut digits = Buffer::new();
    push_bytes(text, digits.format(number).as_bytes())
}
