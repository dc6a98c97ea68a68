//! The keywords, their words, and the kinds of fields that each is for.

ghost use Rattle.std.specs.Prelude.{◌≡◌};
ghost use Rattle.helix_keywords.specs.Keywords.{field_word, is_for, is_for_field, keyword_named, field_keyword_named, word_of, any_class, string_class, number_class, moment_class, ladder_class};
ghost use Rattle.helix_values.specs.Class.{class_of_kind};

use helix_places::is_word;
use helix_values::Kind;

/// An atomic keyword: it says something of the value of one field.
#[derive(Clone, Copy, Debug, PartialEq, Eq)]
pub enum Keyword {
    EqualTo,
    InSet,
    IsNull,
    MatchingRegex,
    ContainingRegex,
    OfLength,
    LongerThan,
    ShorterThan,
    GreaterThan,
    GreaterThanOrEqualTo,
    LessThan,
    LessThanOrEqualTo,
    After,
    AfterOrAt,
    Before,
    BeforeOrAt,
    GranularTo,
}

/// A field keyword: it compares the values of two fields.
#[derive(Clone, Copy, Debug, PartialEq, Eq)]
pub enum FieldKeyword {
    EqualToField,
    GreaterThanField,
    GreaterThanOrEqualToField,
    LessThanField,
    LessThanOrEqualToField,
    AfterField,
    AfterOrAtField,
    BeforeField,
    BeforeOrAtField,
}

/// The table of atomic keywords: the variant, the word, the kinds. `$rows` is called with all of them.
macro_rules! each_keyword {
    ($rows:ident) => {
        $rows! {
            EqualTo "equalTo" is_any,
            InSet "inSet" is_any,
            IsNull "isNull" is_any,
            MatchingRegex "matchingRegex" is_string,
            ContainingRegex "containingRegex" is_string,
            OfLength "ofLength" is_string,
            LongerThan "longerThan" is_string,
            ShorterThan "shorterThan" is_string,
            GreaterThan "greaterThan" is_number,
            GreaterThanOrEqualTo "greaterThanOrEqualTo" is_number,
            LessThan "lessThan" is_number,
            LessThanOrEqualTo "lessThanOrEqualTo" is_number,
            After "after" is_moment,
            AfterOrAt "afterOrAt" is_moment,
            Before "before" is_moment,
            BeforeOrAt "beforeOrAt" is_moment,
            GranularTo "granularTo" has_ladder,
        }
    };
}

/// The table of field keywords.
macro_rules! each_field_keyword {
    ($rows:ident) => {
        $rows! {
            EqualToField "equalToField" is_any,
            GreaterThanField "greaterThanField" is_number,
            GreaterThanOrEqualToField "greaterThanOrEqualToField" is_number,
            LessThanField "lessThanField" is_number,
            LessThanOrEqualToField "lessThanOrEqualToField" is_number,
            AfterField "afterField" is_moment,
            AfterOrAtField "afterOrAtField" is_moment,
            BeforeField "beforeField" is_moment,
            BeforeOrAtField "beforeOrAtField" is_moment,
        }
    };
}

macro_rules! keywords {
    ($($keyword:ident $word:literal $kinds:ident,)*) => {
        [$(Keyword::$keyword),*]
    };
}

macro_rules! field_keywords {
    ($($keyword:ident $word:literal $kinds:ident,)*) => {
        [$(FieldKeyword::$keyword),*]
    };
}

/// All atomic keywords.
const KEYWORDS: [Keyword; 17] = each_keyword!(keywords);

/// All field keywords.
const FIELD_KEYWORDS: [FieldKeyword; 9] = each_field_keyword!(field_keywords);

impl Keyword {
    /// The word of the keyword: `equalTo`.
    #[tactic(auto, unfolding(crate::specs::Keywords::word_of))]
    pub fn word(self) -> &'static str
        ensures { result.now ≡ word_of self }
    {
        macro_rules! words {
            ($($keyword:ident $word:literal $kinds:ident,)*) => {
                match self {
                    $(Keyword::$keyword => $word,)*
                }
            };
        }
        each_keyword!(words)
    }

    /// Whether the keyword is for fields of a kind.
    #[tactic(auto, unfolding(crate::specs::Keywords::is_for))]
    pub fn is_for_kind(self, kind: Kind) -> bool
        ensures { result ≡ is_for self (class_of_kind kind) }
    {
        macro_rules! uses {
            ($($keyword:ident $word:literal $kinds:ident,)*) => {
                match self {
                    $(Keyword::$keyword => $kinds(kind),)*
                }
            };
        }
        each_keyword!(uses)
    }
}

impl FieldKeyword {
    /// The word of the keyword: `equalToField`.
    #[tactic(auto, unfolding(crate::specs::Keywords::field_word))]
    pub fn word(self) -> &'static str
        ensures { result.now ≡ field_word self }
    {
        macro_rules! words {
            ($($keyword:ident $word:literal $kinds:ident,)*) => {
                match self {
                    $(FieldKeyword::$keyword => $word,)*
                }
            };
        }
        each_field_keyword!(words)
    }

    /// Whether the keyword is for fields of a kind.
    #[tactic(auto, unfolding(crate::specs::Keywords::is_for_field))]
    pub fn is_for_kind(self, kind: Kind) -> bool
        ensures { result ≡ is_for_field self (class_of_kind kind) }
    {
        macro_rules! uses {
            ($($keyword:ident $word:literal $kinds:ident,)*) => {
                match self {
                    $(FieldKeyword::$keyword => $kinds(kind),)*
                }
            };
        }
        each_field_keyword!(uses)
    }
}

/// The atomic keyword with a word.
#[tactic(auto, unfolding(crate::specs::Keywords::keyword_named))]
pub fn keyword_named(word: &[u32]) -> Option<Keyword>
    ensures { result ≡ keyword_named word.now }
{
    for keyword in &KEYWORDS {
        if is_word(word, keyword.word()) {
            return Some(*keyword);
        }
    }
    None
}

/// The field keyword with a word.
#[tactic(auto, unfolding(crate::specs::Keywords::field_keyword_named))]
pub fn field_keyword_named(word: &[u32]) -> Option<FieldKeyword>
    ensures { result ≡ field_keyword_named word.now }
{
    for keyword in &FIELD_KEYWORDS {
        if is_word(word, keyword.word()) {
            return Some(*keyword);
        }
    }
    None
}

fn is_any(_kind: Kind) -> bool
    ensures { result ≡ any_class (class_of_kind _kind) }
{
    true
}

fn is_string(kind: Kind) -> bool
    ensures { result ≡ string_class (class_of_kind kind) }
{
    matches!(kind, Kind::Text(_) | Kind::Code(_))
}

fn is_number(kind: Kind) -> bool
    ensures { result ≡ number_class (class_of_kind kind) }
{
    matches!(kind, Kind::Integer | Kind::Decimal)
}

fn is_moment(kind: Kind) -> bool
    ensures { result ≡ moment_class (class_of_kind kind) }
{
    matches!(kind, Kind::Date | Kind::DateTime)
}

fn has_ladder(kind: Kind) -> bool
    ensures { result ≡ ladder_class (class_of_kind kind) }
{
    is_number(kind) || is_moment(kind)
}
