//! Names of fields and rules.

ghost use Rattle.std.specs.Prelude.{◌≡◌};
ghost use Rattle.std.specs.List.{list_all};
ghost use Rattle.helix_places.specs.Names.{is_name_character, is_name_text};

/// Whether a text is a name: it has 1 to 200 characters, none of them a control character (U+0000 to U+001F, U+007F).
pub fn is_name_text(text: &[u32]) -> bool
    ensures { result ≡ is_name_text text.now }
{
    1 <= text.len() && text.len() <= 200 && are_name_characters(text)
}

#[tactic(auto, using(crate::proofs::Words::all_step))]
fn are_name_characters(text: &[u32]) -> bool
    ensures { result ≡ list_all is_name_character text.now }
{
    for code in text {
        if !is_name_character(*code) {
            return false;
        }
    }
    true
}

fn is_name_character(code: u32) -> bool
    ensures { result ≡ is_name_character code }
{
    32 <= code && code != 127
}
