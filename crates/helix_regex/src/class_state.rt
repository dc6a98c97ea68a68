//! How a scanner goes on in a class.

ghost use Rattle.std.specs.Prelude.{◌≡◌, IsTrue};
ghost use Rattle.helix_regex.specs.Characters.{is_character};
ghost use Rattle.helix_regex.specs.Inner.Scan.{scanner_step, escape_kind, class_advance, class_escape_advance, item_advance};
ghost use Rattle.helix_regex.specs.declared.scanner_state.ScannerState.TheVariants.{Class};

use crate::char_kind::{ClassKind, EscapeKind, class_kind_of, escape_kind_of};
use crate::scanner_state::{Advance, ClassState, ScannerState};

/// What a character of a class does. A second `&` beside another is refused.
pub fn next_in_class(class: ClassState, before: u32, code: u32) -> Advance
    requires { IsTrue (is_character code) }
    ensures { result ≡ scanner_step (Class class before) code }
{
    if before == '&' as u32 && code == '&' as u32 {
        Advance::Refuse
    } else {
        next_of_class(class, code)
    }
}

fn next_of_class(class: ClassState, code: u32) -> Advance
    requires { IsTrue (is_character code) }
    ensures { result ≡ class_advance class code }
{
    match class {
        ClassState::Opened => {
            if code == '^' as u32 {
                Advance::Stay(ScannerState::Class(ClassState::First, code))
            } else {
                next_item(class, class_kind_of(code), code)
            }
        }
        ClassState::Escape | ClassState::FarEscape => next_in_class_escape(class, code),
        _ => next_item(class, class_kind_of(code), code),
    }
}

fn next_in_class_escape(class: ClassState, code: u32) -> Advance
    ensures { result ≡ class_escape_advance class (escape_kind code) code }
{
    match (class, escape_kind_of(code)) {
        (ClassState::Escape, EscapeKind::Itself) => Advance::Stay(ScannerState::Class(
            ClassState::One,
            code,
        )),
        (ClassState::Escape, EscapeKind::Set) => Advance::Stay(ScannerState::Class(
            ClassState::Items,
            code,
        )),
        (ClassState::FarEscape, EscapeKind::Itself) => Advance::Stay(ScannerState::Class(
            ClassState::Items,
            code,
        )),
        _ => Advance::Refuse,
    }
}

fn next_item(class: ClassState, char_kind: ClassKind, code: u32) -> Advance
    ensures { result ≡ item_advance class char_kind code }
{
    match (class, char_kind) {
        (ClassState::Dash, ClassKind::Plain) => Advance::Stay(ScannerState::Class(
            ClassState::Items,
            code,
        )),
        (ClassState::Dash, ClassKind::Backslash) => Advance::Stay(ScannerState::Class(
            ClassState::FarEscape,
            code,
        )),
        (
            ClassState::Opened | ClassState::First | ClassState::Items | ClassState::One,
            ClassKind::Plain,
        ) => Advance::Stay(ScannerState::Class(ClassState::One, code)),
        (
            ClassState::Opened | ClassState::First | ClassState::Items | ClassState::One,
            ClassKind::Backslash,
        ) => Advance::Stay(ScannerState::Class(ClassState::Escape, code)),
        (ClassState::Opened | ClassState::First, ClassKind::Dash) => Advance::Stay(
            ScannerState::Class(ClassState::Items, code),
        ),
        (ClassState::Items, ClassKind::Dash) => Advance::Stay(ScannerState::Class(
            ClassState::Last,
            code,
        )),
        (ClassState::One, ClassKind::Dash) => Advance::Stay(ScannerState::Class(
            ClassState::Dash,
            code,
        )),
        (
            ClassState::Items | ClassState::One | ClassState::Dash | ClassState::Last,
            ClassKind::Close,
        ) => Advance::Stay(ScannerState::Atom),
        _ => Advance::Refuse,
    }
}
