//! What holds of JSON text by its definition alone.

ghost use Rattle.std.specs.Prelude.{◌≡◌, ◌≤◌, ◌+◌, ◌↔◌, ℕ, List};
ghost use Rattle.std.specs.List.{AllByRecursion};
ghost use Rattle.helix_json.specs.declared.value.Json.{Json as Value};
ghost use Rattle.helix_json.specs.declared.value.Json.TheViews as view;
ghost use Rattle.helix_json.specs.declared.value.Member.{Member};
ghost use Rattle.helix_json.specs.Broken.{BeginsTooDeep, Nowhere, RepeatsKey, SpellsJson, max_depth};
ghost use Rattle.helix_json.specs.Values.{HasNoRepeatedKey, HasNumbers, HaveDifferentKeys, nesting};

/// The numbers of a value that bytes spell are JSON numbers, as `number_units` needs them.
pub fn numbers_of_a_value()
    ensures { (bytes : List ℕ) → (v : Value) → SpellsJson bytes v → HasNumbers v }
{}

/// Bytes spell at most one value.
pub fn one_value()
    ensures { (bytes : List ℕ) → (v w : Value) → SpellsJson bytes v → SpellsJson bytes w → v ≡ w }
{}

/// A value keeps the rules on nesting and keys exactly if none of its tokens breaks them.
pub fn rules_of_a_value()
    ensures keys { (v : Value) → HasNoRepeatedKey v ↔ Nowhere RepeatsKey v }
    ensures depth { (v : Value) → (nesting v ≤ max_depth) ↔ Nowhere BeginsTooDeep v }
{}

/// What is known of a list or an object is known of its items and members, as code sees them.
pub fn parts_of_a_value()
    ensures numbers_of_items { (items : List Value) → HasNumbers (view.List items) ↔ AllByRecursion HasNumbers items }
    ensures numbers_of_members { (members : List Member)
        → HasNumbers (view.Object members) ↔ AllByRecursion (λ member. HasNumbers member.value) members }
    ensures keys_of_items { (items : List Value)
        → HasNoRepeatedKey (view.List items) ↔ AllByRecursion HasNoRepeatedKey items }
    ensures keys_of_members { (members : List Member) → HasNoRepeatedKey (view.Object members)
        ↔ (HaveDifferentKeys members × AllByRecursion (λ member. HasNoRepeatedKey member.value) members) }
    ensures nesting_of_items { (items : List Value) (most : ℕ)
        → (nesting (view.List items) ≤ most + 1) ↔ AllByRecursion (λ item. nesting item ≤ most) items }
    ensures nesting_of_members { (members : List Member) (most : ℕ)
        → (nesting (view.Object members) ≤ most + 1) ↔ AllByRecursion (λ member. nesting member.value ≤ most) members }
{}
