//! Trees as texts.

use crate::{Literal, Tree};
use helix_base::{Bytes, Memory};
use std::alloc::Global;

pub fn show(alloc: Global, tree: &Tree) -> Result<Bytes, Memory> {
    let mut text = Bytes::new(alloc);
    push_tree(&mut text, tree)?;
    Ok(text)
}

#[cycle(shown)]
fn push_tree(text: &mut Bytes, tree: &Tree) -> Result<(), Memory> {
    match tree {
        Tree::Lit(literal) => push_literal(text, literal),
        Tree::All(parts) => push_parts(text, b'&', parts.as_slice()),
        Tree::Any(parts) => push_parts(text, b'|', parts.as_slice()),
    }
}

#[cycle(shown)]
fn push_parts(text: &mut Bytes, form: u8, parts: &[Tree]) -> Result<(), Memory> {
    text.push(form)?;
    text.push(b'(')?;
    for part in parts {
        push_tree(text, part)?;
    }
    text.push(b')')
}

fn push_literal(text: &mut Bytes, literal: &Literal) -> Result<(), Memory> {
    match literal {
        Literal::Null(field) => {
            text.push(b'n')?;
            push_field(text, *field)
        }
        Literal::NotNull(field) => {
            text.push(b'v')?;
            push_field(text, *field)
        }
        Literal::Plain(atom, sign, strict) => {
            push_sign(text, *sign)?;
            push_field(text, atom.field)?;
            push_strict(text, *strict)
        }
        Literal::Joined(relation, sign, strict) => {
            push_sign(text, *sign)?;
            push_field(text, relation.left)?;
            push_field(text, relation.right)?;
            push_strict(text, *strict)
        }
    }
}

fn push_sign(text: &mut Bytes, sign: bool) -> Result<(), Memory> {
    text.push(if sign { b'+' } else { b'-' })
}

fn push_strict(text: &mut Bytes, strict: bool) -> Result<(), Memory> {
    if strict { text.push(b'!') } else { Ok(()) }
}

fn push_field(text: &mut Bytes, field: u32) -> Result<(), Memory> {
    text.push(b'0' + (field % 10) as u8)
}
