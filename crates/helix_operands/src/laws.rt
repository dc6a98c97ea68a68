//! What holds of operands by their definitions alone: each law is the contract of a function that does nothing.

ghost use Rattle.std.specs.Prelude.{◌≡◌, Option, IsSome, false, true};
ghost use Rattle.helix_json.specs.declared.value.Json.{Json as Value};
ghost use Rattle.helix_keywords.specs.declared.keyword.Keyword.{Keyword as Word};
ghost use Rattle.helix_keywords.specs.Keywords.{is_for};
ghost use Rattle.helix_operands.specs.Rules.{IsUnbroken};
ghost use Rattle.helix_operands.specs.Tests.{GivesTest, names_set_file};
ghost use Rattle.helix_operands.specs.Values.{Reads};
ghost use Rattle.helix_profile.specs.Validity.{IsTestFor};
ghost use Rattle.helix_profile.specs.declared.test.Test.{Test as Made};
ghost use Rattle.helix_values.specs.Class.{class_of_kind};
ghost use Rattle.helix_values.specs.declared.kind.Kind.{Kind};

/// An operand gives at most one test.
pub fn one_test()
    ensures { (k : Kind) (w : Word) (v : Value) (s t : Made) → GivesTest k w v s → GivesTest k w v t → s ≡ t }
{}

/// The test that an operand gives is one for the kind, if the keyword is for its class.
pub fn tests_are_for_their_kind()
    ensures { (k : Kind) (w : Word) (v : Value) (t : Made) → is_for w (class_of_kind k) ≡ true → GivesTest k w v t
        → IsTestFor k t }
{}

/// Under a keyword that is for the kind's class, an operand that breaks no rule gives a test, unless it names a set
/// file: a reading of it finds one.
pub fn unbroken_operands_give_tests()
    ensures { (k : Kind) (w : Word) (v : Value) (found : Option Made) → is_for w (class_of_kind k) ≡ true
        → IsUnbroken k w v → names_set_file w v ≡ false → Reads (GivesTest k w v) found → IsSome found }
{}
