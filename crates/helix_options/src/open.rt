//! The branch that all paths of a part begin with.

ghost use Rattle.std.specs.Prelude.{◌≡◌, ◌<◌, ◌∷◌, [], length, map, IfOk};
ghost use Rattle.std.specs.List.{All, filter_map};
ghost use Rattle.std.specs.Prelude.{slice_get};
ghost use Rattle.helix_options.specs.Inner.Search.{first_demands};

use crate::branch::{Demand, Demands};
use helix_base::{List, Memory};
use helix_profile::{Constraint, Field};
use helix_tree::tree_of;
use std::alloc::Global;

/// Which fields may be null.
pub fn nullable_fields(alloc: Global, fields: &[Field]) -> Result<List<bool>, Memory>
    ensures { IfOk result (λ nullable. nullable ≡ map (λ field. field.nullable) fields.now) }
{
    let mut nullable = List::new(alloc);
    for field in fields {
        nullable.push(field.nullable)?;
    }
    Ok(nullable)
}

/// The demands of the constraints of these numbers.
pub fn demands_of(
    alloc: Global,
    constraints: &[Constraint],
    numbers: &[u32],
) -> Result<Demands, Memory>
    requires { All (λ number. number < length constraints.now) numbers.now }
    ensures { IfOk result (λ demands. demands ≡ first_demands (filter_map (slice_get constraints.now) numbers.now)) }
{
    let mut demands = Demands::new(alloc);
    for number in numbers {
        demands.push(Demand {
            tree: tree_of(alloc, &constraints[*number as usize])?,
            sign: true,
        })?;
    }
    Ok(demands)
}
