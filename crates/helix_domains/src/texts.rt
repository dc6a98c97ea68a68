//! The texts of a domain.

ghost use Rattle.std.specs.Prelude.{◌≡◌, IfOk};
ghost use Rattle.std.specs.List.{All};
ghost use Rattle.helix_domains.specs.Domain.{IsAtomFor};
ghost use Rattle.helix_domains.specs.Inner.Values.{AreValuesOf};
ghost use Rattle.helix_values.specs.Class.{class_of_kind, strings};

use crate::atom::SignedAtom;
use crate::lengths::lengths_of;
use crate::patterns::{dfas_of, product_of, see_arcs};
use crate::values::Values;
use helix_base::Memory;
use helix_values::{Cells, Kind};
use helix_words::Words;
use std::alloc::Global;

/// The texts of a kind that pass each signed atom.
pub fn texts(alloc: Global, kind: Kind, atoms: &[SignedAtom]) -> Result<Values, Memory>
    requires class { class_of_kind kind ≡ strings }
    requires atoms { All (IsAtomFor kind) atoms.now }
    ensures { IfOk result (AreValuesOf kind atoms.now) }
{
    let lengths = lengths_of(alloc, atoms)?;
    if lengths.shortest >= lengths.end {
        return Ok(Values::Listed(Cells::new(alloc)));
    }
    let dfa = product_of(alloc, dfas_of(alloc, kind, atoms)?)?;
    see_arcs(&dfa);
    let longest = lengths.end - 1;
    let refused = lengths.refused.as_slice();
    Ok(Values::Texts(Words::refusing(alloc, dfa, lengths.shortest, longest, refused)?))
}
