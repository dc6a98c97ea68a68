//! The values of a field that pass signed tests.
//!
//! ```text
//! let domain = Domain::of(alloc, &field, &atoms)?;    // all signed atoms at once
//! let mut near = domain.near(alloc)?;
//! let mut more = domain.first(&mut slot, &mut near, &mut steps);        // the least value, in the slot
//! while more { more = domain.next(&mut slot, &mut near, &mut steps); }  // and each one after it
//! domain.at_or_after(Mark::After(value), &mut slot, &mut steps)         // the least value above any other one
//! domain.contains(value)
//! ```
//!
//! A [`Domain`] has the values of a field's universe that pass each of its signed atoms: with a false sign, those of
//! which the atom's test doesn't hold. Contracts see the field, the list of signed atoms, and the form in which the
//! values are at hand; `specs/Domain.antt` says which values the atoms leave, `specs/Form.antt` what the forms are.
//!
//! - [`Domain::of`] takes all atoms at once, [`Domain::open`] none, and [`Domain::add`] one more.
//! - [`Domain::at_or_after`] puts the least value that a mark admits into a slot, and answers false exactly where there
//!   is none: the slot is then as it was.
//! - [`Domain::first`] and [`Domain::next`] do the same for the least value and for the least one above that in the
//!   slot. What they keep [`Near`] it belongs to the asker (`specs/Near.antt`), so holders may share a domain.
//! - Each of these three is one question: it takes no memory and ticks `Domain` once. On text fields it makes at most
//!   1,001 + 2,002 (1 + A) moves, with A the number of characters of Unicode, and on other fields none
//!   (`specs/Asking.antt`).
//! - [`Domain::contains`] tells whether a value is one of them.
//!
//! No clause says what it costs. A domain with a positive set keeps the values in a list: opening sorts each set once
//! and makes an automaton of each pattern, and then looks each member of the shortest positive set up in them; `next`
//! takes the next cell of the list. Numbers and moments are on a grid, where `next` is an addition or a division. Texts
//! are the words of one automaton, the product of those of the patterns, the sets that are left out, the code and the
//! alphabet; `next` begins at the first character that changes.
#![tactic(auto)]

mod allowed;
mod alphabets;
mod atom;
mod bounds;
mod domain;
mod fitting;
mod grids;
mod lengths;
mod line;
mod listed;
mod near;
mod order;
mod others;
mod patterns;
mod question;
mod ready;
mod sets;
mod texts;
mod values;
mod walk;

pub use atom::SignedAtom;
pub use domain::Domain;
pub use fitting::is_atom_for;
pub use near::Near;

#[cfg(test)]
mod tests;
