//! What is built of a pattern: pieces, sequences and groups.

ghost use Rattle.std.specs.Prelude.{◌≡◌, ◌++◌, [], ◌∷◌, length, IfOk};
ghost use Rattle.helix_regex.specs.Meaning.{in_sequence};
ghost use Rattle.helix_regex.specs.Inner.Building.{choice, Steps, Pushes, OpensGroup, Ends};
ghost use Rattle.helix_regex.specs.declared.token.Token.TheVariants.{Close, Repeat};

use helix_base::Memory;
use helix_expr::{Expr, Exprs};
use sqlite_items::{Boxed, Items};
use std::alloc::Global;

/// What is before an open group: the sequences that a bar ended, and the pieces after them.
#[derive(Debug, Drop)]
pub struct Level {
    pub done: Exprs,
    pub pieces: Exprs,
}

/// What is built: the levels around the innermost open group, the innermost last; what is in that group; and the
/// class that is being read, as ranges in any order, and whether they are excluded.
#[derive(Debug, Drop)]
pub struct Builder {
    pub outer: Items<Level>,
    pub done: Exprs,
    pub pieces: Exprs,
    pub raw: Vec<(u32, u32)>,
    pub excluded: bool,
}

/// Pieces one after the other.
fn in_sequence(pieces: Exprs) -> Expr
    ensures { result ≡ in_sequence pieces }
{
    if pieces.len() == 1 {
        only(pieces)
    } else if pieces.is_empty() {
        Expr::Empty
    } else {
        Expr::Seq(pieces)
    }
}

/// Alternatives, which are themselves where there is one.
fn choice(sequences: Exprs) -> Expr
    ensures { result ≡ choice sequences }
{
    if sequences.len() == 1 {
        only(sequences)
    } else if sequences.is_empty() {
        Expr::Empty
    } else {
        Expr::Alt(sequences)
    }
}

/// The only expression of a list.
fn only(exprs: Exprs) -> Expr
    requires { length exprs ≡ 1 }
    ensures { exprs ≡ result ∷ [] }
{
    let mut exprs = exprs;
    match exprs.pop() {
        Some(expr) => expr,
        None => Expr::Empty,
    }
}

/// The alternatives of a level that ends.
pub fn alternatives(done: Exprs, pieces: Exprs) -> Result<Expr, Memory>
    ensures { IfOk result (λ expr. expr ≡ choice (done ++ in_sequence pieces ∷ [])) }
{
    let mut done = done;
    done.push(in_sequence(pieces))?;
    Ok(choice(done))
}

impl Builder {
    /// Nothing.
    pub fn new(alloc: Global) -> Builder
        ensures outer { result.outer ≡ [] }
        ensures done { result.done ≡ [] }
        ensures pieces { result.pieces ≡ [] }
    {
        Builder {
            outer: Items::new(alloc),
            done: Items::new(alloc),
            pieces: Items::new(alloc),
            raw: Vec::new(alloc),
            excluded: false,
        }
    }
}

pub fn push_piece(builder: Builder, piece: Expr) -> Result<Builder, Memory>
    ensures { IfOk result (Pushes piece builder) }
{
    let mut builder = builder;
    builder.pieces.push(piece)?;
    Ok(builder)
}

/// BeginsClass a group inside of what is built so far.
pub fn open_group(alloc: Global, builder: Builder) -> Result<Builder, Memory>
    ensures { IfOk result (OpensGroup builder) }
{
    let Builder {
        mut outer,
        done,
        pieces,
        raw,
        excluded,
    } = builder;
    outer.push(Level { done, pieces })?;
    Ok(Builder {
        outer,
        done: Items::new(alloc),
        pieces: Items::new(alloc),
        raw,
        excluded,
    })
}

/// Puts a group in as one piece of what is around it.
pub fn close_group(builder: Builder) -> Result<Builder, Memory>
    ensures { IfOk result (Steps builder Close) }
{
    let Builder {
        mut outer,
        done,
        pieces,
        raw,
        excluded,
    } = builder;
    match outer.pop() {
        None => Ok(Builder {
            outer,
            done,
            pieces,
            raw,
            excluded,
        }),
        Some(level) => {
            let piece = alternatives(done, pieces)?;
            let Level {
                done: before,
                pieces: mut around,
            } = level;
            around.push(piece)?;
            Ok(Builder {
                outer,
                done: before,
                pieces: around,
                raw,
                excluded,
            })
        }
    }
}

/// Ends a sequence at a bar.
pub fn end_sequence(alloc: Global, builder: Builder) -> Result<Builder, Memory>
    ensures { IfOk result (Ends builder) }
{
    let Builder {
        outer,
        mut done,
        pieces,
        raw,
        excluded,
    } = builder;
    done.push(in_sequence(pieces))?;
    Ok(Builder {
        outer,
        done,
        pieces: Items::new(alloc),
        raw,
        excluded,
    })
}

/// RepeatsLast the last piece.
pub fn repeat_last(
    alloc: Global,
    builder: Builder,
    least: u32,
    most: Option<u32>,
) -> Result<Builder, Memory>
    ensures { IfOk result (Steps builder (Repeat least most 0)) }
{
    let mut builder = builder;
    if let Some(piece) = builder.pieces.pop() {
        let piece = Expr::Repeat(Boxed::new(alloc, piece)?, least, most);
        builder.pieces.push(piece)?;
    }
    Ok(builder)
}
