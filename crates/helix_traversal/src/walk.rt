//! The walk over all constraints.

ghost use Rattle.std.specs.Prelude.{◌≡◌, ◌++◌, [], ◌∷◌, OnOk, codes};
ghost use Rattle.helix_places.specs.declared.place.Step.TheVariants as step;
ghost use Rattle.helix_json.specs.declared.value.Json.TheViews as view;
ghost use Rattle.helix_traversal.specs.Traversal.{all_constraints, collected, of_list, within};
ghost use Rattle.helix_traversal.specs.Inner.Parts.{branches, items_from, operands, whole};

use crate::collector::Collector;
use crate::inside::{Inside, inside_of};
use helix_base::Memory;
use helix_fields::value_in;
use helix_json::{Json, Member};
use helix_keywords::form_of;
use helix_places::{Step, as_list, as_object, word_text};
use std::alloc::Global;

/// Visits all constraints of a profile's value in the order of the text.
pub fn collect<C: Collector>(alloc: Global, collector: &mut C, v: &Json) -> Result<(), Memory>
    ensures found { OnOk result (C.found collector.new
        ≡ C.found collector.old ++ collected (C.own collector.old) (all_constraints v.now)) }
    ensures own { C.own collector.new ≡ C.own collector.old }
{
    match value_in(v, "constraints") {
        Some(constraints) => visit_constraints(alloc, collector, constraints),
        None => Ok(()),
    }
}

/// Visits the constraints of the list `constraints`.
fn visit_constraints<C: Collector>(
    alloc: Global,
    collector: &mut C,
    list: &Json,
) -> Result<(), Memory>
    ensures found { OnOk result (C.found collector.new ≡ C.found collector.old
        ++ collected (C.own collector.old) (of_list (step.Member (codes "constraints") ∷ []) list.now)) }
    ensures own { C.own collector.new ≡ C.own collector.old }
{
    let mut path = Vec::new(alloc);
    path.push(Step::Member(word_text(alloc, "constraints")?))?;
    visit_list(alloc, collector, &mut path, list)
}

/// Visits a constraint and those within it.
#[cycle(walk)]
fn visit_whole<C: Collector>(
    alloc: Global,
    collector: &mut C,
    path: &mut Vec<Step>,
    v: &Json,
) -> Result<(), Memory>
    ensures found { OnOk result (C.found collector.new
        ≡ C.found collector.old ++ collected (C.own collector.old) (whole path.old.items v.now)) }
    ensures own { C.own collector.new ≡ C.own collector.old }
    ensures path { OnOk result (path.new.items ≡ path.old.items) }
{
    collector.visit(path.as_slice(), v)?;
    match as_object(v) {
        Some(members) => visit_object(alloc, collector, path, members),
        None => Ok(()),
    }
}

/// Visits the constraints within an object.
#[cycle(walk)]
fn visit_object<C: Collector>(
    alloc: Global,
    collector: &mut C,
    path: &mut Vec<Step>,
    members: &[Member],
) -> Result<(), Memory>
    ensures found { OnOk result (C.found collector.new
        ≡ C.found collector.old ++ collected (C.own collector.old) (within path.old.items (view.Object members.now))) }
    ensures own { C.own collector.new ≡ C.own collector.old }
    ensures path { OnOk result (path.new.items ≡ path.old.items) }
{
    match inside_of(form_of(members)) {
        Inside::Nothing => Ok(()),
        Inside::Operands => visit_operands(alloc, collector, path, members),
        Inside::Branches => visit_branches(alloc, collector, path, members),
    }
}

/// Visits values that are constraints.
#[cycle(walk)]
fn visit_operands<C: Collector>(
    alloc: Global,
    collector: &mut C,
    path: &mut Vec<Step>,
    members: &[Member],
) -> Result<(), Memory>
    ensures found { OnOk result (C.found collector.new
        ≡ C.found collector.old ++ collected (C.own collector.old) (operands path.old.items members.now)) }
    ensures own { C.own collector.new ≡ C.own collector.old }
    ensures path { OnOk result (path.new.items ≡ path.old.items) }
{
    for member in members {
        path.push(Step::Member(member.key.copy(alloc)?))?;
        visit_whole(alloc, collector, path, &member.value)?;
        path.pop();
    }
    Ok(())
}

/// Visits values that are lists of constraints.
#[cycle(walk)]
fn visit_branches<C: Collector>(
    alloc: Global,
    collector: &mut C,
    path: &mut Vec<Step>,
    members: &[Member],
) -> Result<(), Memory>
    ensures found { OnOk result (C.found collector.new
        ≡ C.found collector.old ++ collected (C.own collector.old) (branches path.old.items members.now)) }
    ensures own { C.own collector.new ≡ C.own collector.old }
    ensures path { OnOk result (path.new.items ≡ path.old.items) }
{
    for member in members {
        path.push(Step::Member(member.key.copy(alloc)?))?;
        visit_list(alloc, collector, path, &member.value)?;
        path.pop();
    }
    Ok(())
}

/// Visits the constraints of a list.
#[cycle(walk)]
fn visit_list<C: Collector>(
    alloc: Global,
    collector: &mut C,
    path: &mut Vec<Step>,
    v: &Json,
) -> Result<(), Memory>
    ensures found { OnOk result (C.found collector.new
        ≡ C.found collector.old ++ collected (C.own collector.old) (of_list path.old.items v.now)) }
    ensures own { C.own collector.new ≡ C.own collector.old }
    ensures path { OnOk result (path.new.items ≡ path.old.items) }
{
    match as_list(v) {
        Some(items) => visit_items(alloc, collector, path, items),
        None => Ok(()),
    }
}

#[cycle(walk)]
fn visit_items<C: Collector>(
    alloc: Global,
    collector: &mut C,
    path: &mut Vec<Step>,
    items: &[Json],
) -> Result<(), Memory>
    ensures found { OnOk result (C.found collector.new
        ≡ C.found collector.old ++ collected (C.own collector.old) (items_from path.old.items 0 items.now)) }
    ensures own { C.own collector.new ≡ C.own collector.old }
    ensures path { OnOk result (path.new.items ≡ path.old.items) }
{
    for (index, item) in items.iter().enumerate() {
        path.push(Step::Item(index))?;
        visit_whole(alloc, collector, path, item)?;
        path.pop();
    }
    Ok(())
}
