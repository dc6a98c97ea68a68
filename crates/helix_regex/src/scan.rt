//! Whether a text is in the grammar, and where it leaves it.

ghost use Rattle.std.specs.Prelude.{◌≡◌, ◌<◌, ◌==◌, ◌&&◌, IsTrue, IfSome, IfNone};
ghost use Rattle.helix_regex.specs.Characters.{is_character};
ghost use Rattle.helix_base.specs.Syntax.{IsSyntaxErrorAt};
ghost use Rattle.helix_regex.specs.Faults.{AreCharacters, IsPatternText};
ghost use Rattle.helix_regex.specs.Inner.Scan.{position_step, may_end};

use crate::scanner_state::{Advance, ScannerState, next_state};

/// The scanner state, and the number of open groups.
#[derive(Clone, Copy, Debug)]
pub struct Position {
    pub scanner_state: ScannerState,
    pub depth: usize,
}

impl Position {
    /// The position after one more character, or `None` where no pattern goes on so.
    pub fn advance(self, code: u32) -> Option<Position>
        requires character { IsTrue (is_character code) }
        requires room { self.depth < usize.MAX }
        ensures { result ≡ position_step self code }
    {
        match next_state(self.scanner_state, code) {
            Advance::Refuse => None,
            Advance::Stay(scanner_state) => Some(Position {
                scanner_state,
                depth: self.depth,
            }),
            Advance::Open(scanner_state) => Some(Position {
                scanner_state,
                depth: self.depth + 1,
            }),
            Advance::Close(scanner_state) => {
                if self.depth == 0 {
                    None
                } else {
                    Some(Position {
                        scanner_state,
                        depth: self.depth - 1,
                    })
                }
            }
        }
    }

    /// Whether a pattern may end here.
    pub fn may_end(self) -> bool
        ensures { result ≡ (self.depth == 0 && may_end self.scanner_state) }
    {
        self.depth == 0 && may_end(self.scanner_state)
    }
}

fn may_end(scanner_state: ScannerState) -> bool
    ensures { result ≡ may_end scanner_state }
{
    match scanner_state {
        ScannerState::Ready | ScannerState::Atom | ScannerState::Quantified => true,
        _ => false,
    }
}

/// The length of the longest viable prefix, or `None` where the text is in the grammar.
pub fn syntax_error(codes: &[u32]) -> Option<usize>
    requires { AreCharacters codes.now }
    ensures some { IfSome result (IsSyntaxErrorAt IsPatternText codes.now) }
    ensures none { IfNone result (IsPatternText codes.now) }
{
    let mut position = Position {
        scanner_state: ScannerState::Ready,
        depth: 0,
    };
    for (i, code) in codes.iter().enumerate() {
        let Some(next) = position.advance(*code) else {
            return Some(i);
        };
        position = next;
    }
    if position.may_end() {
        None
    } else {
        Some(codes.len())
    }
}
