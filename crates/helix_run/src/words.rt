//! The words of the command line.

ghost use Rattle.std.specs.Prelude.{◌≡◌, [], ◌∷◌, map, string_bytes, option_map};
ghost use Rattle.helix_run.specs.Words.{order_of, order_from};
ghost use Rattle.helix_run.specs.Inner.Words.{names};

/// What the words ask for: the names of the profile file and of the output.
#[derive(Clone, Copy, Debug)]
pub struct Order<'a> {
    pub profile: &'a str,
    pub output: &'a str,
}

/// The order that the words give, or `None` where they give none.
pub fn read_words(words: &[String]) -> Option<Order<'_>>
    ensures { option_map names result ≡ order_of (map string_bytes words.now) }
{
    let [first, a, second, b] = words else {
        return None;
    };
    order_of_four(first.as_str(), a.as_str(), second.as_str(), b.as_str())
}

/// The order of four words.
fn order_of_four<'a>(first: &str, a: &'a str, second: &str, b: &'a str) -> Option<Order<'a>>
    ensures { option_map names result ≡ order_of (first.now ∷ a.now ∷ second.now ∷ b.now ∷ []) }
{
    if first == "--profile-file" && second == "--output-path" {
        order_from(a, b)
    } else if first == "--output-path" && second == "--profile-file" {
        order_from(b, a)
    } else {
        None
    }
}

/// A name may not be empty, and the output may not be the profile file.
fn order_from<'a>(profile: &'a str, output: &'a str) -> Option<Order<'a>>
    ensures { option_map names result ≡ order_from profile.now output.now }
{
    if profile.is_empty() || output.is_empty() || profile == output {
        return None;
    }
    Some(Order { profile, output })
}
