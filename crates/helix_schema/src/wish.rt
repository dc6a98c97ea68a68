//! Set files that a profile wants.

ghost use Rattle.std.specs.Prelude.{◌≡◌, ◌<◌, IfNone, IfOk, IfSome, IsSome, is_some, length, map, option_map};
ghost use Rattle.std.specs.List.{AllByRecursion};
ghost use Rattle.helix_schema.specs.Drafts.{IsFilled, filled, first_wanted, sets_of, told, unfilled};
ghost use Rattle.helix_schema.specs.Inner.First.{IsFirstUnfilled};

use crate::mention::Mention;
use crate::wanted::Wanted;
use helix_base::Memory;
use helix_readings::{SetMembers, Sets};
use helix_values::Cells;
use std::alloc::Global;

/// A mention of a set file, and the members of the file once it is read.
#[derive(Debug, Drop)]
pub struct Wish {
    /// The mention.
    pub mention: Mention,
    /// The members of the file, where it is read.
    pub members: Option<Cells>,
}

/// Wishes of which none is filled.
pub fn wishes_of(alloc: Global, mentions: Vec<Mention>) -> Result<Vec<Wish>, Memory>
    ensures { IfOk result (λ wishes. wishes.items ≡ map unfilled mentions.items) }
{
    let mut wishes = Vec::new(alloc);
    for mention in mentions {
        wishes.push(Wish {
            mention,
            members: None,
        })?;
    }
    Ok(wishes)
}

/// The index of the first wish that isn't filled.
pub fn first_unfilled(wishes: &[Wish]) -> Option<usize>
    ensures some { IfSome result (IsFirstUnfilled wishes.now) }
    ensures within { IfSome result (λ i. i < length wishes.now) }
    ensures none { IfNone result (AllByRecursion IsFilled wishes.now) }
{
    for (i, wish) in wishes.iter().enumerate() {
        if wish.members.is_none() {
            return Some(i);
        }
    }
    None
}

/// The set file that is wanted next.
pub fn wanted_in(wishes: &[Wish]) -> Option<Wanted<'_>>
    ensures { option_map told result ≡ first_wanted wishes.now }
{
    match first_unfilled(wishes) {
        Some(i) => {
            let mention = &wishes[i].mention;
            Some(Wanted {
                name: &mention.name,
                kind: mention.kind,
                place: &mention.place,
                number: i as u64 + 1,
            })
        }
        None => None,
    }
}

/// Whether a set file is wanted.
pub fn is_wanting(wishes: &[Wish]) -> bool
    ensures { result ≡ is_some (first_wanted wishes.now) }
{
    first_unfilled(wishes).is_some()
}

/// Gives members to the first wish that isn't filled.
pub fn fill_first(wishes: &mut Vec<Wish>, members: Cells)
    requires { IsSome (first_wanted wishes.old.items) }
    ensures { wishes.new.items ≡ filled wishes.old.items members }
{
    match first_unfilled(wishes.as_slice()) {
        Some(i) => wishes[i].members = Some(members),
        None => unreachable!(),
    }
}

/// The members of wishes by the places of their mentions.
pub fn sets_of(alloc: Global, wishes: Vec<Wish>) -> Result<Sets, Memory>
    ensures { IfOk result (λ sets. sets ≡ sets_of wishes.items) }
{
    let mut sets = Sets::new(alloc);
    for wish in wishes {
        let Wish { mention, members } = wish;
        if let Some(members) = members {
            sets.push(SetMembers {
                place: mention.place,
                members,
            })?;
        }
    }
    Ok(sets)
}
