mod reader;
mod rules;
mod scan;

use crate::{numbers_of_a_value, one_value, parts_of_a_value, rules_of_a_value};
use std::test::Fail;

#[test]
fn laws_can_be_called(_rt: HostRuntime) -> Result<(), Fail> {
    one_value();
    numbers_of_a_value();
    rules_of_a_value();
    parts_of_a_value();
    Ok(())
}
