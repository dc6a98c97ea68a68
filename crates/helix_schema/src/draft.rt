//! A profile whose set files aren't all read yet.

ghost use Rattle.std.specs.Prelude.{◌≡◌, ◌≢◌, None, Some, IfErr, IfOk, IfSome, IsSome, option_map};
ghost use Rattle.helix_schema.specs.Drafts.{IsDraft, IsMembersFor, IsProfileOf, filled, first_wanted, told};
ghost use Rattle.helix_schema.specs.Finishing.{IsUnfinished};

use crate::wanted::Wanted;
use crate::whole::profile_of;
use crate::wish::{Wish, fill_first, is_wanting, sets_of, wanted_in};
use helix_base::{Alphabet, Memory};
use helix_json::Json;
use helix_profile::Profile;
use helix_values::Cells;
use std::alloc::Global;
use std::marker::Model;

/// A profile that breaks no rule, with the set files that it mentions. Contracts see its alphabet, its value in today's
/// form, and the mentions in the order of the text, each with its members once they are read.
#[derive(Debug, Drop)]
pub struct Draft {
    alphabet: Alphabet,
    value: Json,
    wishes: Vec<Wish>,
}

impl Model for Draft {
    ghost use Rattle.helix_schema.specs.Drafts.{Drafted, IsDraft};
    ghost use Rattle.helix_schema.specs.DraftCode.{drafted_code};

    ghost Value = { Drafted };

    ghost coded = { drafted_code };

    ghost view = { λ draft. record {
      alphabet = draft.alphabet;
      value = draft.value;
      wishes = draft.wishes.items;
    } };

    ghost invariant = { λ draft. IsDraft (record {
      alphabet = draft.alphabet;
      value = draft.value;
      wishes = draft.wishes.items;
    }) };
}

/// Why a draft isn't finished.
#[derive(Debug, Drop)]
pub enum Unfinished {
    /// A set file is still wanted. This is the draft as it was.
    Wanted(Draft),
    /// An allocation failed.
    Memory,
}

impl From<Memory> for Unfinished {
    ghost use Rattle.std.specs.Prelude.{◌≡◌};
    ghost use Rattle.helix_schema.specs.declared.draft.Unfinished.TheVariants.{Memory as NoMemory};

    ghost from_gives = { λ _ fault. fault ≡ NoMemory };

    fn from(_memory: Memory) -> Unfinished {
        Unfinished::Memory
    }
}

/// A draft of which no set file is read.
pub fn draft_of(alphabet: Alphabet, value: Json, wishes: Vec<Wish>) -> Draft
    requires { IsDraft (record { alphabet = alphabet; value = value; wishes = wishes.items }) }
    ensures { result ≡ record { alphabet = alphabet; value = value; wishes = wishes.items } }
{
    Draft {
        alphabet,
        value,
        wishes,
    }
}

impl Draft {
    /// The first set file that isn't read, in the order of the text; `None` exactly where all are. It takes no memory.
    pub fn next_wanted(&self) -> Option<Wanted<'_>>
        ensures { option_map told result ≡ first_wanted self.now.wishes }
    {
        wanted_in(self.wishes.as_slice())
    }

    /// Hands over the members of the set file that is wanted next. It takes no memory.
    pub fn fill(&mut self, members: Cells)
        requires wanted { IsSome (first_wanted self.old.wishes) }
        requires members { IfSome (first_wanted self.old.wishes) (IsMembersFor members) }
        ensures wishes { self.new.wishes ≡ filled self.old.wishes members }
        ensures alphabet { self.new.alphabet ≡ self.old.alphabet }
        ensures value { self.new.value ≡ self.old.value }
    {
        fill_first(&mut self.wishes, members);
    }

    /// The profile, once all set files are read; the draft as it was, where one is still wanted.
    pub fn finish(self, alloc: Global) -> Result<Profile, Unfinished>
        ensures profile { IfOk result (IsProfileOf self) }
        ensures unfinished { IfErr result (IsUnfinished self) }
    {
        if is_wanting(self.wishes.as_slice()) {
            return Err(Unfinished::Wanted(self));
        }
        let Draft {
            alphabet,
            value,
            wishes,
        } = self;
        Ok(finished(alloc, alphabet, &value, wishes)?)
    }
}

/// The profile of a value whose set files are all read.
fn finished(
    alloc: Global,
    alphabet: Alphabet,
    value: &Json,
    wishes: Vec<Wish>,
) -> Result<Profile, Memory>
    requires draft { IsDraft (record { alphabet = alphabet; value = value.now; wishes = wishes.items }) }
    requires read { first_wanted wishes.items ≡ None }
    ensures { IfOk result
        (IsProfileOf (record { alphabet = alphabet; value = value.now; wishes = wishes.items })) }
{
    let sets = sets_of(alloc, wishes)?;
    profile_of(alloc, alphabet, &sets, value)
}
