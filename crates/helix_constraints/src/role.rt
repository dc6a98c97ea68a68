//! What a value is in the walk over constraints.

ghost use Rattle.std.specs.Prelude.{◌≡◌};
ghost use Rattle.helix_constraints.specs.Visited.{role_by_form};
ghost use Rattle.helix_keywords.specs.Forms.{form_of};

use helix_json::Member;
use helix_keywords::{Form, form_of};

/// One constraint, or a value that is to be a list of constraints.
#[derive(Clone, Copy, Debug)]
pub enum Role {
    One,
    Many,
}

/// What the values of the members of a constraint are, where they are or have constraints.
pub fn role_of_members(members: &[Member]) -> Option<Role>
    ensures { result ≡ role_by_form (form_of members.now) }
{
    match form_of(members) {
        Some(Form::Not) => Some(Role::One),
        Some(Form::If) => Some(Role::One),
        Some(Form::IfElse) => Some(Role::One),
        Some(Form::AnyOf) => Some(Role::Many),
        Some(Form::AllOf) => Some(Role::Many),
        _ => None,
    }
}
