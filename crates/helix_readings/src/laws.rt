//! What holds by the definitions alone: each law is the contract of a function that does nothing.

ghost use Rattle.std.specs.Prelude.{◌≡◌, List};
ghost use Rattle.helix_json.specs.declared.value.Json.{Json as Value};
ghost use Rattle.helix_places.specs.declared.place.Step.{Step};
ghost use Rattle.helix_profile.specs.declared.constraint.Constraint.{Constraint};
ghost use Rattle.helix_profile.specs.declared.field.Field.{Field};
ghost use Rattle.helix_readings.specs.Given.{GivesConstraint};
ghost use Rattle.helix_readings.specs.Whole.{GivesConstraints};
ghost use Rattle.helix_readings.specs.declared.sets.SetMembers.{SetMembers};

/// A value at a place gives at most one constraint.
pub fn one_constraint()
    ensures { (fields : List Field) (sets : List SetMembers) (place : List Step) (v : Value) (c d : Constraint)
        → GivesConstraint fields sets place v c → GivesConstraint fields sets place v d → c ≡ d }
{}

/// A profile gives at most one list of constraints.
pub fn one_list()
    ensures { (fields : List Field) (sets : List SetMembers) (v : Value) (cs ds : List Constraint)
        → GivesConstraints fields sets v cs → GivesConstraints fields sets v ds → cs ≡ ds }
{}
