//! What holds by the definitions alone: each law is the contract of a function that does nothing. A value is refused by
//! one rule at one place, or it has one draft and then at most one profile.

ghost use Rattle.std.specs.Prelude.{◌≡◌};
ghost use Rattle.helix_base.specs.declared.alphabet.Alphabet.{Alphabet};
ghost use Rattle.helix_json.specs.declared.value.Json.{Json};
ghost use Rattle.helix_profile.specs.Content.{Content};
ghost use Rattle.helix_schema.specs.Drafts.{Drafted, IsProfileOf};
ghost use Rattle.helix_schema.specs.Refusals.{IsDraftOf, IsRefused};
ghost use Rattle.helix_schema.specs.declared.refusal.Refusal.{Refusal};

/// A value has at most one first broken rule, and that one first place.
pub fn one_refusal()
    ensures { (alphabet : Alphabet) (v : Json) (first second : Refusal) → IsRefused alphabet v first
        → IsRefused alphabet v second → first ≡ second }
{}

/// A value that is refused has no draft.
pub fn refused_or_drafted()
    ensures { (alphabet : Alphabet) (v : Json) (refused : Refusal) (draft : Drafted) → IsRefused alphabet v refused
        → ¬ IsDraftOf alphabet v draft }
{}

/// A value has at most one draft.
pub fn one_draft()
    ensures { (alphabet : Alphabet) (v : Json) (first second : Drafted) → IsDraftOf alphabet v first
        → IsDraftOf alphabet v second → first ≡ second }
{}

/// A draft has at most one profile.
pub fn one_profile()
    ensures { (draft : Drafted) (first second : Content) → IsProfileOf draft first → IsProfileOf draft second
        → first ≡ second }
{}
