mod build;
mod made;
mod null_rule;
mod patterns;
mod relations;
mod steps;
mod trade;
mod worked_rows;

use build::{Check, Step, Value, fields};
use helix_profile::laws::{
    a_prefix_goes_on, answers_of_any_set, each_form, one_answer_list, one_rest,
    the_answer_is_a_rest, the_rest_is_a_prefix, violating_replaces,
};
use helix_profile::{Compare, Constraint, Profile};
use helix_values::Kind;
use std::test::Fail;
use steps::constraints;

#[test]
fn profiles_are_built_and_copied(rt: HostRuntime) -> Result<(), Fail> {
    let fields = fields(rt.alloc(), &[("flag", Kind::Boolean, true)])?;
    let copy = fields.copy(rt.alloc())?;
    assert_eq!(rt; copy.as_slice().len(), 1);
    let bound = Check::Bound(Compare::AtLeast, Value::Whole(1));
    let constraints = constraints(rt.alloc(), &[Step::Test(0, bound), Step::Not])?;
    let copies = constraints.copy(rt.alloc())?;
    assert_eq!(rt; copies.as_slice().len(), 1);
    match copies.as_slice() {
        [Constraint::Not(part)] => match part.get() {
            Constraint::Atom(_) => {}
            _ => assert!(rt; false, "the part was an atom"),
        },
        _ => assert!(rt; false, "one negation was copied"),
    }
    Ok(())
}

#[test]
fn laws_hold_of_the_good_rows_and_of_any_set() {
    one_answer_list();
    one_rest();
    the_answer_is_a_rest();
    the_rest_is_a_prefix();
    a_prefix_goes_on();
    answers_of_any_set::<Profile>();
    each_form();
    violating_replaces();
}
