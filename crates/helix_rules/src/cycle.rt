//! The rule that the relations of a profile form no cycle.

ghost use Rattle.std.specs.Prelude.{◌≡◌, None, IfOk};
ghost use Rattle.helix_forest.specs.Closing.{IsFirstToClose};
ghost use Rattle.helix_json.specs.Values.{HasNoRepeatedKey};
ghost use Rattle.helix_places.specs.Places.{Finds};
ghost use Rattle.helix_profile.specs.Forest.{IsForest};
ghost use Rattle.helix_rules.specs.LineLaws.{line_alone};
ghost use Rattle.helix_rules.specs.Lines.{BreaksForest, Joins, lines_of};

use crate::line::{MAX_FIELDS, line_fault};
use crate::lines::lines_of;
use helix_base::Memory;
use helix_constraints::{ConstraintRule, first_in_constraints};
use helix_forest::{ForestFault, check_forest};
use helix_json::Json;
use helix_places::Place;
use helix_profile::{Field, Relation};
use std::alloc::Global;

/// The rule that no relation is along a line.
#[derive(Drop)]
struct LineCheck<'a> {
    line: Relation,
    fields: &'a [Field],
}

impl<'a> ConstraintRule for LineCheck<'a> {
    ghost breaks = { λ s. Joins s.fields.now s.line };

    fn fault(&self, alloc: Global, constraint: &Json) -> Result<Option<Place>, Memory> {
        line_fault(alloc, self.fields, self.line, constraint)
    }

    ghost own_first = { λ s. line_alone s.fields.now s.line };
}

/// The place of the first relation that closes a cycle (S21).
pub fn cycle_fault(alloc: Global, fields: &[Field], v: &Json) -> Result<Option<Place>, Memory>
    ensures place { IfOk result (λ found. HasNoRepeatedKey v.now → Finds v.now (BreaksForest fields.now v.now) found) }
    ensures forest { IfOk result (λ found. HasNoRepeatedKey v.now → found ≡ None
        → IsForest (lines_of fields.now v.now)) }
{
    let lines = lines_of(alloc, fields, v)?;
    match check_forest(alloc, MAX_FIELDS, lines.as_slice()) {
        Ok(()) => Ok(None),
        Err(ForestFault::Cycle { index }) => closing_place(
            alloc,
            fields,
            lines.as_slice(),
            index,
            v,
        ),
        Err(ForestFault::Memory) => Err(Memory),
    }
}

/// The place of a relation along the line with an index.
fn closing_place(
    alloc: Global,
    fields: &[Field],
    lines: &[Relation],
    index: u64,
    v: &Json,
) -> Result<Option<Place>, Memory>
    requires lines { lines.now ≡ lines_of fields.now v.now }
    requires closes { IsFirstToClose lines.now index }
    ensures place { IfOk result (λ found. HasNoRepeatedKey v.now → Finds v.now (BreaksForest fields.now v.now) found) }
    ensures forest { IfOk result (λ found. HasNoRepeatedKey v.now → found ≡ None
        → IsForest (lines_of fields.now v.now)) }
{
    match lines.get(index as usize) {
        Some(line) => {
            first_in_constraints(
                alloc,
                &LineCheck {
                    line: *line,
                    fields,
                },
                v,
            )
        }
        None => Ok(None),
    }
}
