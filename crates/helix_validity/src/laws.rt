//! What holds by the definitions alone: each law is the contract of a function that does nothing.

ghost use Rattle.std.specs.Prelude.{◌≡◌, ◌≤◌, ◌<◌, ◌^◌, ◌∷◌, [], List, None, Option, IsSome, length};
ghost use Rattle.std.specs.List.{AllByRecursion};
ghost use Rattle.helix_base.specs.declared.alphabet.Alphabet.{Alphabet};
ghost use Rattle.helix_fields.specs.Fields.{AreValidFields, fields_of};
ghost use Rattle.helix_json.specs.Values.{HasNoRepeatedKey};
ghost use Rattle.helix_json.specs.declared.value.Json.{Json as Value};
ghost use Rattle.helix_operands.specs.Values.{Reads};
ghost use Rattle.helix_profile.specs.Fields.{all_relations};
ghost use Rattle.helix_profile.specs.Forest.{IsForest};
ghost use Rattle.helix_profile.specs.Validity.{IsConstraintFor, IsValidProfile};
ghost use Rattle.helix_profile.specs.declared.constraint.Constraint.{Constraint};
ghost use Rattle.helix_profile.specs.declared.field.Field.{Field};
ghost use Rattle.helix_readings.specs.Whole.{GivesConstraints};
ghost use Rattle.helix_readings.specs.declared.sets.SetMembers.{SetMembers};
ghost use Rattle.helix_rules.specs.Breaches.{FindsBreach};
ghost use Rattle.helix_rules.specs.declared.rule.Rule.TheVariants as rule;
ghost use Rattle.helix_validity.specs.Mentions.{AreFilled};
ghost use Rattle.helix_validity.specs.Unbroken.{IsUnbrokenProfile, profile_rules};

/// A profile in which none of the rules S1 to S21 finds a breach breaks no rule.
pub fn no_breach()
    ensures { (fields : List Field) (v : Value) → FindsBreach fields (rule.S1 ∷ []) v None
        → FindsBreach fields profile_rules v None → IsUnbrokenProfile fields v }
{}

/// The fields of a profile that breaks no rule are valid, and it gives fewer than 2^32 constraints.
pub fn fields_are_valid()
    ensures valid { (alphabet : Alphabet) (v : Value) → IsUnbrokenProfile (fields_of alphabet v) v
        → AreValidFields (fields_of alphabet v) }
    ensures few { (fields : List Field) (sets : List SetMembers) (v : Value) (cs : List Constraint)
        → IsUnbrokenProfile fields v → GivesConstraints fields sets v cs → length cs < 2 ^ 32 }
{}

/// The constraints of a profile that breaks no rule are given, where each set file that it mentions has its members: a
/// reading of them finds some.
pub fn constraints_are_given()
    ensures { (fields : List Field) (sets : List SetMembers) (v : Value) (found : Option (List Constraint))
        → IsUnbrokenProfile fields v → AreFilled fields sets v → Reads (GivesConstraints fields sets v) found
        → IsSome found }
{}

/// Each constraint that a profile gives is one for its fields, where the profile breaks no rule and each set file that it
/// mentions has its members.
pub fn constraints_are_valid()
    ensures { (fields : List Field) (sets : List SetMembers) (v : Value) (cs : List Constraint)
        → IsUnbrokenProfile fields v → AreFilled fields sets v → GivesConstraints fields sets v cs
        → AllByRecursion (IsConstraintFor fields) cs }
{}

/// The relations of the constraints that such a profile gives form no cycle, if it has at most 64 fields.
pub fn relations_are_a_forest()
    ensures { (fields : List Field) (sets : List SetMembers) (v : Value) (cs : List Constraint)
        → length fields ≤ 64 → HasNoRepeatedKey v → IsUnbrokenProfile fields v → AreFilled fields sets v
        → GivesConstraints fields sets v cs → IsForest (all_relations cs) }
{}

/// The fields of such a profile and the constraints that it gives are what `Profile::new` asks for.
pub fn profile_is_valid()
    ensures { (alphabet : Alphabet) (sets : List SetMembers) (v : Value) (cs : List Constraint)
        → HasNoRepeatedKey v → IsUnbrokenProfile (fields_of alphabet v) v → AreFilled (fields_of alphabet v) sets v
        → GivesConstraints (fields_of alphabet v) sets v cs
        → IsValidProfile (record { fields = fields_of alphabet v; constraints = cs }) }
{}
