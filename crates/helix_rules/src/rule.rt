//! The rules by which a profile is refused.

ghost use Rattle.std.specs.Prelude.{◌≡◌};
ghost use Rattle.helix_rules.specs.Names.{name_of};

use std::fmt;

/// A rule, in the order in which the rules are tried: those of the JSON text, of the value, of profiles of the older
/// form, and of profiles. What a rule's line says holds where it is not broken.
#[derive(Clone, Copy, Debug, PartialEq, Eq)]
pub enum Rule {
    /// The text is at most 1 MiB long.
    J1,
    /// The text is UTF-8.
    J2,
    /// The text is in the grammar of JSON.
    J3,
    /// Arrays and objects are nested no deeper than 64 levels.
    J4,
    /// No object repeats a key.
    J5,
    /// The value is an object.
    S1,
    /// A profile of the older form has no `constraints`.
    L1,
    /// The form of `rules` and of each rule.
    L2,
    /// The names of rules.
    L3,
    /// The form of each visited object with `is`.
    L4,
    /// The members of a profile.
    S2,
    /// The list `fields`.
    S3,
    /// The members of a field.
    S4,
    /// The names of fields.
    S5,
    /// No field is `unique`.
    S6,
    /// The list `constraints`.
    S7,
    /// The form of a constraint.
    S8,
    /// A constraint names declared fields.
    S9,
    /// The keyword is for the type of the field.
    S10,
    /// The JSON type of an operand and of its members.
    S11,
    /// An operand or a member is a value of the field.
    S12,
    /// The size of a set.
    S13,
    /// The step of a grid.
    S14,
    /// A length is whole and at most 1,000.
    S15,
    /// The pattern.
    S16,
    /// `anyOf` and `allOf` are not empty.
    S17,
    /// The fields of a relation are of one class.
    S18,
    /// No field is related to itself.
    S19,
    /// The offset of a relation and its unit.
    S20,
    /// The relations form no cycle.
    S21,
    /// The set files.
    S22,
    /// The constraint to violate is there.
    S23,
}

/// `$rows` is called with all rules.
macro_rules! each_rule {
    ($rows:ident) => {
        $rows! {
            J1 J2 J3 J4 J5 S1 L1 L2 L3 L4 S2 S3 S4 S5 S6 S7 S8 S9 S10
            S11 S12 S13 S14 S15 S16 S17 S18 S19 S20 S21 S22 S23
        }
    };
}

impl Rule {
    /// The name of the rule: `S1`.
    #[tactic(auto, unfolding(crate::specs::Names::name_of))]
    pub fn name(self) -> &'static str
        ensures { result.now ≡ name_of self }
    {
        macro_rules! names {
            ($($rule:ident)*) => {
                match self {
                    $(Rule::$rule => stringify!($rule),)*
                }
            };
        }
        each_rule!(names)
    }
}

impl fmt::Display for Rule {
    fn fmt<W: fmt::Write>(&self, f: &mut fmt::Formatter<W>) -> fmt::Result {
        write!(f, "{}", self.name())
    }
}
