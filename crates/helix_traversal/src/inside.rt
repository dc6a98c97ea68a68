//! Where constraints stand within a constraint.

ghost use Rattle.std.specs.Prelude.{◌≡◌};
ghost use Rattle.helix_traversal.specs.Traversal.{inside_of};

use helix_keywords::Form;

/// Which values of an object are constraints, or lists of them.
#[derive(Clone, Copy, Debug)]
pub enum Inside {
    Nothing,
    Operands,
    Branches,
}

/// The same by the form of the object.
pub fn inside_of(form: Option<Form>) -> Inside
    ensures { result ≡ inside_of form }
{
    match form {
        Some(Form::Not) => Inside::Operands,
        Some(Form::If) => Inside::Operands,
        Some(Form::IfElse) => Inside::Operands,
        Some(Form::AnyOf) => Inside::Branches,
        Some(Form::AllOf) => Inside::Branches,
        _ => Inside::Nothing,
    }
}
