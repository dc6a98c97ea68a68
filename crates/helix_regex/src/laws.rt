//! What holds of patterns by their definition alone.

ghost use Rattle.std.specs.Prelude.{◌≡◌, ℕ, List};
ghost use Rattle.helix_expr.specs.declared.regex.Regex.{Regex as Value};
ghost use Rattle.helix_regex.specs.Pattern.{Pattern, Writes};
ghost use Rattle.helix_regex.specs.declared.fault.RegexFault.{RegexFault as Broken};
ghost use Rattle.helix_regex.specs.Meaning.{SpellsPattern};
ghost use Rattle.helix_regex.specs.Faults.{FirstFault};

/// A text writes at most one pattern.
pub fn one_pattern()
    ensures { (text : List ℕ) → (p q : Pattern) → Writes text p → Writes text q → p ≡ q }
{}

/// A text spells at most one expression.
pub fn one_regex()
    ensures { (text : List ℕ) → (r s : Value) → SpellsPattern text r → SpellsPattern text s → r ≡ s }
{}

/// A text has at most one first fault.
pub fn one_fault()
    ensures { (text : List ℕ) → (f g : Broken) → FirstFault text f → FirstFault text g → f ≡ g }
{}
