//! Laws of answer lists, rests and prefixes and of constraints, each the contract of a function that does nothing.

ghost use Rattle.std.specs.Prelude.{◌≡◌, ◌≤◌, ◌-◌, ℕ, slice_get, List, [], ◌∷◌, ◌++◌, Option, None, Some, ◌↔◌, ◌⊎◌, Bool, true, false};
ghost use Rattle.helix_profile.specs.Answer.{IsAnswer, IsRest, IsPrefix, IsAnswerOf, IsRestOf, IsPrefixOf};
ghost use Rattle.helix_profile.specs.Change.{replaced};
ghost use Rattle.helix_profile.specs.Content.{Content};
ghost use Rattle.helix_profile.specs.Satisfaction.{Satisfies, AllSatisfied, AnySatisfied, TestSatisfied, RelationSatisfied, cell_at};
ghost use Rattle.helix_profile.specs.Violation.{violating};
ghost use Rattle.helix_profile.specs.declared.constraint.Constraint.{Constraint, Atom, Related};
ghost use Rattle.helix_profile.specs.declared.constraint.Constraint.TheViews.{Not, AllOf, AnyOf, If};
ghost use Rattle.helix_profile.specs.declared.relation.Relation.{Relation};
ghost use Rattle.helix_profile.specs.declared.test.Atom.{Atom as FieldTest};
ghost use Rattle.helix_values.specs.declared.cell.Cell.{Cell};

use crate::rows::RowSet;

/// A profile has at most one answer list.
pub fn one_answer_list()
    ensures { (profile : Content) (rows others : List (List Cell))
        → IsAnswer profile rows → IsAnswer profile others → rows ≡ others }
{}

/// Above a row, or above nothing, there is at most one rest.
pub fn one_rest()
    ensures { (profile : Content) (start : Option (List Cell)) (rows others : List (List Cell))
        → IsRest profile start rows → IsRest profile start others → rows ≡ others }
{}

/// The answer list is the rest above nothing.
pub fn the_answer_is_a_rest()
    ensures { (profile : Content) (rows : List (List Cell)) → IsAnswer profile rows ↔ IsRest profile None rows }
{}

/// The whole rest is a prefix.
pub fn the_rest_is_a_prefix()
    ensures { (profile : Content) (start : Option (List Cell)) (rows : List (List Cell))
        → IsRest profile start rows → IsPrefix profile start rows }
{}

/// A prefix goes on: where it ends in a row, it is followed by a prefix above that row, and by the
/// rest above that row up to the whole rest.
pub fn a_prefix_goes_on()
    ensures prefix { (profile : Content) (start : Option (List Cell)) (rows more : List (List Cell)) (last : List Cell)
        → IsPrefix profile start (rows ++ last ∷ []) → IsPrefix profile (Some last) more
        → IsPrefix profile start ((rows ++ last ∷ []) ++ more) }
    ensures rest { (profile : Content) (start : Option (List Cell)) (rows more : List (List Cell)) (last : List Cell)
        → IsPrefix profile start (rows ++ last ∷ []) → IsRest profile (Some last) more
        → IsRest profile start ((rows ++ last ∷ []) ++ more) }
{}

/// The same of any set of rows, of which the good rows of a profile are one.
pub fn answers_of_any_set<S: RowSet>()
    ensures one_answer_list { (set : S) (rows others : List (List Cell))
        → IsAnswerOf (S.Has set) rows → IsAnswerOf (S.Has set) others → rows ≡ others }
    ensures one_rest { (set : S) (start : Option (List Cell)) (rows others : List (List Cell))
        → IsRestOf (S.Has set) start rows → IsRestOf (S.Has set) start others → rows ≡ others }
    ensures the_answer_is_a_rest { (set : S) (rows : List (List Cell))
        → IsAnswerOf (S.Has set) rows ↔ IsRestOf (S.Has set) None rows }
    ensures the_rest_is_a_prefix { (set : S) (start : Option (List Cell)) (rows : List (List Cell))
        → IsRestOf (S.Has set) start rows → IsPrefixOf (S.Has set) start rows }
    ensures a_prefix_goes_on { (set : S) (start : Option (List Cell)) (rows more : List (List Cell)) (last : List Cell)
        → IsPrefixOf (S.Has set) start (rows ++ last ∷ []) → IsPrefixOf (S.Has set) (Some last) more
        → IsPrefixOf (S.Has set) start ((rows ++ last ∷ []) ++ more) }
    ensures the_rest_goes_on { (set : S) (start : Option (List Cell)) (rows more : List (List Cell)) (last : List Cell)
        → IsPrefixOf (S.Has set) start (rows ++ last ∷ []) → IsRestOf (S.Has set) (Some last) more
        → IsRestOf (S.Has set) start ((rows ++ last ∷ []) ++ more) }
{}

/// What each form of constraint says of a row: with the sign `true` it holds, and with `false` its negation does.
pub fn each_form()
    ensures atom { (atom : FieldTest) (row : List Cell) (sign : Bool)
        → Satisfies (Atom atom) row sign ↔ TestSatisfied atom.test (cell_at row atom.field) sign }
    ensures related { (relation : Relation) (row : List Cell) (sign : Bool)
        → Satisfies (Related relation) row sign
        ↔ RelationSatisfied relation (cell_at row relation.left) (cell_at row relation.right) sign }
    ensures not_true { (part : Constraint) (row : List Cell)
        → Satisfies (Not part) row true ↔ Satisfies part row false }
    ensures not_false { (part : Constraint) (row : List Cell)
        → Satisfies (Not part) row false ↔ Satisfies part row true }
    ensures all_of_true { (parts : List Constraint) (row : List Cell)
        → Satisfies (AllOf parts) row true ↔ AllSatisfied parts row true }
    ensures all_of_false { (parts : List Constraint) (row : List Cell)
        → Satisfies (AllOf parts) row false ↔ AnySatisfied parts row false }
    ensures any_of_true { (parts : List Constraint) (row : List Cell)
        → Satisfies (AnyOf parts) row true ↔ AnySatisfied parts row true }
    ensures any_of_false { (parts : List Constraint) (row : List Cell)
        → Satisfies (AnyOf parts) row false ↔ AllSatisfied parts row false }
    ensures if_true { (condition consequent : Constraint) (row : List Cell)
        → Satisfies (If condition consequent None) row true
        ↔ ((Satisfies condition row true × Satisfies consequent row true) ⊎ Satisfies condition row false) }
    ensures if_false { (condition consequent : Constraint) (row : List Cell)
        → Satisfies (If condition consequent None) row false
        ↔ (Satisfies condition row true × Satisfies consequent row false) }
    ensures if_else_true { (condition consequent other : Constraint) (row : List Cell)
        → Satisfies (If condition consequent (Some other)) row true
        ↔ ((Satisfies condition row true × Satisfies consequent row true)
        ⊎ (Satisfies condition row false × Satisfies other row true)) }
    ensures if_else_false { (condition consequent other : Constraint) (row : List Cell)
        → Satisfies (If condition consequent (Some other)) row false
        ↔ ((Satisfies condition row true × Satisfies consequent row false)
        ⊎ (Satisfies condition row false × Satisfies other row false)) }
{}

/// A violated profile has the negation of one constraint in its place.
pub fn violating_replaces()
    ensures { (profile : Content) (k : ℕ) (constraint : Constraint)
        → 1 ≤ k → slice_get profile.constraints (k - 1) ≡ Some constraint
        → violating profile k ≡ replaced profile k (Not constraint) }
{}
