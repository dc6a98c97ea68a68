//! How a visited constraint of the older form is written.

ghost use Rattle.std.specs.Prelude.{◌≡◌, option_map};
ghost use Rattle.helix_legacy.specs.Forms.{form_of, are_operand_keys, is_branch_key, line_of, line_for, null_line, set_line, value_line, word_of, has_table_word, is_table_word, is_value_word, is_general_word, is_text_word, is_number_word, is_moment_word};

use helix_json::{Json, Member};
use helix_places::{are_three_keys, are_two_keys, has_key, is_key, is_word, value_of};

/// How an object that stands for a constraint is written.
#[derive(Clone, Copy, Debug, PartialEq, Eq)]
pub enum Form {
    /// With the member `is`.
    Test,
    /// Its keys are `not`, or `if` and `then`, or these and `else`: each value is a constraint.
    Operands,
    /// Its key is `anyOf` or `allOf`: a list of constraints.
    Branches,
    Other,
}

/// The line of the table to which a test belongs, by its word and its keys.
#[derive(Clone, Copy, Debug, PartialEq, Eq)]
pub enum Line {
    /// `null`.
    Null,
    /// `inSet` with `values`.
    Values,
    /// `inSet` with `file`.
    File,
    /// Any other word, with `value`.
    Value,
}

/// The form of an object.
#[tactic(auto, unfolding(crate::specs::Forms::form_of))]
pub fn form_of(members: &[Member]) -> Form
    ensures { result ≡ form_of members.now }
{
    if has_key(members, "is") {
        Form::Test
    } else if are_operand_keys(members) {
        Form::Operands
    } else if is_branch_key(members) {
        Form::Branches
    } else {
        Form::Other
    }
}

#[tactic(auto, unfolding(crate::specs::Forms::are_operand_keys))]
fn are_operand_keys(members: &[Member]) -> bool
    ensures { result ≡ are_operand_keys members.now }
{
    is_key(members, "not")
        || are_two_keys(members, "if", "then")
        || are_three_keys(members, "if", "then", "else")
}

#[tactic(auto, unfolding(crate::specs::Forms::is_branch_key))]
fn is_branch_key(members: &[Member]) -> bool
    ensures { result ≡ is_branch_key members.now }
{
    is_key(members, "anyOf") || is_key(members, "allOf")
}

/// The word of a test, where its `is` is a string.
#[tactic(auto, unfolding(crate::specs::Forms::word_of))]
pub fn word_of(members: &[Member]) -> Option<&[u32]>
    ensures { option_map (λ word. word.now) result ≡ word_of members.now }
{
    match value_of(members, "is") {
        Some(Json::Str(text)) => Some(text.codes()),
        _ => None,
    }
}

/// The line of the table with the word and the keys of a test.
#[tactic(auto, unfolding(crate::specs::Forms::line_of))]
pub fn line_of(members: &[Member]) -> Option<Line>
    ensures { result ≡ line_of members.now }
{
    match word_of(members) {
        Some(word) => line_for(word, members),
        None => None,
    }
}

#[tactic(auto, unfolding(crate::specs::Forms::line_for))]
fn line_for(word: &[u32], members: &[Member]) -> Option<Line>
    ensures { result ≡ line_for word.now members.now }
{
    if is_word(word, "null") {
        null_line(members)
    } else if is_word(word, "inSet") {
        set_line(members)
    } else if is_value_word(word) {
        value_line(members)
    } else {
        None
    }
}

#[tactic(auto, unfolding(crate::specs::Forms::null_line))]
fn null_line(members: &[Member]) -> Option<Line>
    ensures { result ≡ null_line members.now }
{
    if are_two_keys(members, "field", "is") {
        Some(Line::Null)
    } else {
        None
    }
}

#[tactic(auto, unfolding(crate::specs::Forms::set_line))]
fn set_line(members: &[Member]) -> Option<Line>
    ensures { result ≡ set_line members.now }
{
    if are_three_keys(members, "field", "is", "values") {
        Some(Line::Values)
    } else if are_three_keys(members, "field", "is", "file") {
        Some(Line::File)
    } else {
        None
    }
}

#[tactic(auto, unfolding(crate::specs::Forms::value_line))]
fn value_line(members: &[Member]) -> Option<Line>
    ensures { result ≡ value_line members.now }
{
    if are_three_keys(members, "field", "is", "value") {
        Some(Line::Value)
    } else {
        None
    }
}

/// Whether a test has a word of the table.
#[tactic(auto, unfolding(crate::specs::Forms::has_table_word))]
pub fn has_table_word(members: &[Member]) -> bool
    ensures { result ≡ has_table_word members.now }
{
    match word_of(members) {
        Some(word) => is_table_word(word),
        None => false,
    }
}

#[tactic(auto, unfolding(crate::specs::Forms::is_table_word))]
fn is_table_word(word: &[u32]) -> bool
    ensures { result ≡ is_table_word word.now }
{
    is_word(word, "null") || is_word(word, "inSet") || is_value_word(word)
}

/// Whether a word is an atomic keyword other than `isNull` and `inSet`.
#[tactic(auto, unfolding(crate::specs::Forms::is_value_word))]
fn is_value_word(word: &[u32]) -> bool
    ensures { result ≡ is_value_word word.now }
{
    is_general_word(word) || is_text_word(word) || is_number_word(word) || is_moment_word(word)
}

#[tactic(auto, unfolding(crate::specs::Forms::is_general_word))]
fn is_general_word(word: &[u32]) -> bool
    ensures { result ≡ is_general_word word.now }
{
    is_word(word, "equalTo") || is_word(word, "granularTo")
}

#[tactic(auto, unfolding(crate::specs::Forms::is_text_word))]
fn is_text_word(word: &[u32]) -> bool
    ensures { result ≡ is_text_word word.now }
{
    is_word(word, "matchingRegex")
        || is_word(word, "containingRegex")
        || is_word(word, "ofLength")
        || is_word(word, "longerThan")
        || is_word(word, "shorterThan")
}

#[tactic(auto, unfolding(crate::specs::Forms::is_number_word))]
fn is_number_word(word: &[u32]) -> bool
    ensures { result ≡ is_number_word word.now }
{
    is_word(word, "greaterThan")
        || is_word(word, "greaterThanOrEqualTo")
        || is_word(word, "lessThan")
        || is_word(word, "lessThanOrEqualTo")
}

#[tactic(auto, unfolding(crate::specs::Forms::is_moment_word))]
fn is_moment_word(word: &[u32]) -> bool
    ensures { result ≡ is_moment_word word.now }
{
    is_word(word, "after")
        || is_word(word, "afterOrAt")
        || is_word(word, "before")
        || is_word(word, "beforeOrAt")
}
