//! The set files that a profile mentions.

ghost use Rattle.std.specs.Prelude.{◌≡◌, IfOk};
ghost use Rattle.helix_schema.specs.Mentions.{mentions_of};

use crate::mention::{Mention, mention_at};
use helix_base::Memory;
use helix_json::Json;
use helix_places::Step;
use helix_profile::Field;
use helix_traversal::{Collector, collect};
use std::alloc::Global;

/// The mentions of the constraints seen so far.
#[derive(Debug, Drop)]
struct Mentions<'a> {
    alloc: Global,
    fields: &'a [Field],
    found: Vec<Mention>,
}

impl Collector for Mentions<'_> {
    ghost use Rattle.helix_schema.specs.Mentions.{own_mentions};
    ghost use Rattle.helix_schema.specs.declared.mention.Mention.{Mention};

    ghost Item = { Mention };

    ghost found = { λ s. s.found.items };

    ghost own = { λ s. own_mentions s.fields.now };

    fn visit(&mut self, path: &[Step], v: &Json) -> Result<(), Memory> {
        if let Some(mention) = mention_at(self.alloc, self.fields, path, v)? {
            self.found.push(mention)?;
        }
        Ok(())
    }
}

/// The mentions of all constraints, in the order of the text.
pub fn mentions_of(alloc: Global, fields: &[Field], v: &Json) -> Result<Vec<Mention>, Memory>
    ensures { IfOk result (λ mentions. mentions.items ≡ mentions_of fields.now v.now) }
{
    let mut mentions = Mentions {
        alloc,
        fields,
        found: Vec::new(alloc),
    };
    collect(alloc, &mut mentions, v)?;
    Ok(mentions.found)
}
