use crate::laws;
use std::test::Fail;

#[test]
fn laws_are_called(_rt: HostRuntime) -> Result<(), Fail> {
    laws::no_breach();
    laws::fields_are_valid();
    laws::constraints_are_given();
    laws::constraints_are_valid();
    laws::relations_are_a_forest();
    laws::profile_is_valid();
    Ok(())
}
