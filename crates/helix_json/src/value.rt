//! A JSON value.

ghost use Rattle.std.specs.Prelude.{◌≡◌, IfOk};

use helix_base::{Memory, Text};
use std::alloc::Global;

/// The items of a list, in the text's order.
pub type Items = sqlite_items::Items<Json>;

/// The members of an object, in the text's order.
pub type Members = sqlite_items::Items<Member>;

/// A JSON value. A number is its text.
#[derive(Debug, Drop)]
#[cycle(json)]
pub enum Json {
    Null,
    Bool(bool),
    Number(Text),
    Str(Text),
    List(Items),
    Object(Members),
}

/// A member of an object.
#[derive(Debug, Drop)]
#[cycle(json)]
pub struct Member {
    pub key: Text,
    pub value: Json,
}

impl Json {
    /// An equal value. Recursion is as deep as the value is nested.
    #[cycle(copy)]
    pub fn copy(&self, alloc: Global) -> Result<Json, Memory>
        ensures { IfOk result (λ copy. copy ≡ self.now) }
    {
        match self {
            Json::Null => Ok(Json::Null),
            Json::Bool(is_true) => Ok(Json::Bool(*is_true)),
            Json::Number(text) => Ok(Json::Number(text.copy(alloc)?)),
            Json::Str(text) => Ok(Json::Str(text.copy(alloc)?)),
            Json::List(items) => Ok(Json::List(copy_items(alloc, items.as_slice())?)),
            Json::Object(members) => Ok(Json::Object(copy_members(alloc, members.as_slice())?)),
        }
    }
}

#[cycle(copy)]
fn copy_items(alloc: Global, items: &[Json]) -> Result<Items, Memory>
    ensures { IfOk result (λ copy. copy ≡ items.now) }
{
    let mut all = Items::new(alloc);
    for item in items {
        all.push(item.copy(alloc)?)?;
    }
    Ok(all)
}

#[cycle(copy)]
fn copy_members(alloc: Global, members: &[Member]) -> Result<Members, Memory>
    ensures { IfOk result (λ copy. copy ≡ members.now) }
{
    let mut all = Members::new(alloc);
    for member in members {
        all.push(member.copy(alloc)?)?;
    }
    Ok(all)
}

impl Member {
    #[cycle(copy)]
    pub fn copy(&self, alloc: Global) -> Result<Member, Memory>
        ensures { IfOk result (λ copy. copy ≡ self.now) }
    {
        let key = self.key.copy(alloc)?;
        let value = self.value.copy(alloc)?;
        Ok(Member { key, value })
    }
}
