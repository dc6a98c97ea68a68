//! What may come next, and what is open.

ghost use Rattle.std.specs.Prelude.{◌≡◌, [], IfOk};
ghost use Rattle.helix_json.specs.declared.need.Need.TheVariants as need_is;
ghost use Rattle.helix_json.specs.Inner.Need.{IsLast};
ghost use Rattle.helix_json.specs.Inner.Progress.{Allows};

use crate::need::{Advance, Container, Need, TokenKind, next_need};
use helix_base::Memory;
use std::alloc::Global;

/// What may come next, and the lists and objects that are open, the innermost last.
#[derive(Debug, Drop)]
pub struct Nest {
    pub need: Need,
    pub containers: Vec<Container>,
}

impl Nest {
    /// What may come before any token.
    pub fn new(alloc: Global) -> Nest
        ensures need { result.need ≡ need_is.Value }
        ensures containers { result.containers.items ≡ [] }
    {
        Nest {
            need: Need::Value,
            containers: Vec::new(alloc),
        }
    }

    fn innermost(&self) -> Option<Container>
        ensures { IsLast self.now.containers.items result }
    {
        self.containers.last().copied()
    }

    /// Whether a token of that kind may come here. If so, what comes next is what may come
    /// after it.
    pub fn allow(&mut self, kind: TokenKind) -> Result<bool, Memory>
        ensures { IfOk result (λ allowed. Allows self.old self.new kind allowed) }
    {
        match next_need(self.need, self.innermost(), kind) {
            Advance::Refuse => Ok(false),
            Advance::Stay(need) => {
                self.need = need;
                Ok(true)
            }
            Advance::Open(need, container) => {
                self.containers.push(container)?;
                self.need = need;
                Ok(true)
            }
            Advance::Close => {
                self.containers.pop();
                self.need = Need::After;
                Ok(true)
            }
        }
    }
}
