//! Laws over the definitions alone: each is the contract of a function that does nothing.

ghost use Rattle.std.specs.Prelude.{◌≡◌, ◌↔◌, ◌++◌, [], ◌∷◌, List, Some, None, bytes_eq, codes, map};
ghost use Rattle.std.specs.List.{IsDistinct};
ghost use Rattle.helix_json.specs.declared.value.Member.{Member};
ghost use Rattle.helix_keywords.specs.Forms.{HasForm, form_of};
ghost use Rattle.helix_keywords.specs.Keywords.{field_keywords, field_word, keywords, other_words, word_of};
ghost use Rattle.helix_keywords.specs.declared.form.Form.{Form as Shape};

/// No two keywords have the same word, nor is one the word of another key of a constraint.
pub fn words_differ()
    ensures { IsDistinct bytes_eq (map word_of keywords ++ (map field_word field_keywords ++ other_words)) }
{}

/// The members of an object have at most one form, and [`form_of`](crate::form_of) finds it.
pub fn one_form()
    ensures found { (members : List Member) (form : Shape) → (form_of members ≡ Some form) ↔ HasForm members form }
    ensures one { (members : List Member) (form other : Shape) → HasForm members form → HasForm members other
        → form ≡ other }
{}
