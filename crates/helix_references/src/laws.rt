//! Laws over the definitions alone: each is the contract of a function that does nothing.

ghost use Rattle.std.specs.Prelude.{◌≡◌, ℕ, List, Some, codes, true};
ghost use Rattle.helix_json.specs.declared.value.Json.TheViews as view;
ghost use Rattle.helix_json.specs.declared.value.Member.{Member};
ghost use Rattle.helix_keywords.specs.Forms.{HasForm};
ghost use Rattle.helix_keywords.specs.declared.form.Form.TheVariants.{Atom, Related};
ghost use Rattle.helix_keywords.specs.Keywords.{is_for};
ghost use Rattle.helix_keywords.specs.declared.keyword.Keyword.{Keyword};
ghost use Rattle.helix_places.specs.Members.{value_of};
ghost use Rattle.helix_values.specs.Class.{class_of_kind};
ghost use Rattle.helix_references.specs.Naming.{index_by};
ghost use Rattle.helix_keywords.specs.declared.keyword.FieldKeyword.{FieldKeyword};
ghost use Rattle.helix_profile.specs.Validity.{FieldWith, IsRelationFor};
ghost use Rattle.helix_profile.specs.declared.field.Field.{Field};
ghost use Rattle.helix_profile.specs.declared.relation.Relation.{Relation};
ghost use Rattle.helix_references.specs.Relations.{GivesRelation};
ghost use Rattle.helix_references.specs.Rules.{IsUnbroken};

/// An atomic constraint that breaks no rule itself has a keyword for its field.
pub fn keywords_are_for_their_fields()
    ensures { (fields : List Field) (members : List Member) (keyword : Keyword) (index : ℕ)
        → HasForm members (Atom keyword) → IsUnbroken fields (view.Object members)
        → index_by fields (value_of (codes "field") members) ≡ Some index
        → FieldWith fields index (λ field. is_for keyword (class_of_kind field.kind) ≡ true) }
{}

/// A relation that is given is valid, where the constraint breaks no rule itself: it is one for its two fields.
pub fn relations_are_valid()
    ensures { (fields : List Field) (members : List Member) (keyword : FieldKeyword) (relation : Relation)
        → HasForm members (Related keyword) → IsUnbroken fields (view.Object members)
        → GivesRelation fields members keyword relation
        → FieldWith fields relation.left (λ left. FieldWith fields relation.right
        (λ right. IsRelationFor left right relation)) }
{}

/// The members of an object give at most one relation with a keyword.
pub fn one_relation()
    ensures { (fields : List Field) (members : List Member) (keyword : FieldKeyword) (relation other : Relation)
        → GivesRelation fields members keyword relation → GivesRelation fields members keyword other
        → relation ≡ other }
{}
