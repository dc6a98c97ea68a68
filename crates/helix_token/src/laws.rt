//! Laws over the definitions alone: each is the contract of a function that does nothing.

ghost use Rattle.std.specs.Prelude.{◌≡◌, ℕ, ◌≤◌, List, length};
ghost use Rattle.helix_values.specs.declared.cell.Cell.{Cell};
ghost use Rattle.helix_profile.specs.Good.{AreCellsOf};
ghost use Rattle.helix_profile.specs.declared.field.Field.{Field};
ghost use Rattle.helix_token.specs.Broken.{IsFirstFault};
ghost use Rattle.helix_token.specs.Identity.{IsIdentity};
ghost use Rattle.helix_token.specs.Token.{IsTokenOf, token_text};
ghost use Rattle.helix_token.specs.declared.fault.TokenFault.{TokenFault as Fault};

/// Of at most 64 fields, every row of cells of these fields has a token: no fault breaks its text for that identity,
/// alone or with one line feed.
pub fn rows_have_tokens()
    ensures { (bytes identity : List ℕ) (fields : List Field) (row : List Cell) → IsIdentity identity
        → length fields ≤ 64 → IsTokenOf bytes identity fields row
        → (fault : Fault) → ¬ IsFirstFault bytes identity fields fault }
{}

/// A token tells its row: no other row of cells of these fields has that text, and bytes are the token of at most one.
pub fn tokens_tell_rows()
    ensures text { (identity : List ℕ) (fields : List Field) (row other : List Cell) → AreCellsOf fields row
        → AreCellsOf fields other → token_text identity fields row ≡ token_text identity fields other → row ≡ other }
    ensures bytes { (bytes identity : List ℕ) (fields : List Field) (row other : List Cell)
        → IsTokenOf bytes identity fields row → IsTokenOf bytes identity fields other → row ≡ other }
{}

/// Bytes have at most one first fault, so that the causes of the faults are told apart.
pub fn faults_are_told()
    ensures { (bytes identity : List ℕ) (fields : List Field) (one other : Fault)
        → IsFirstFault bytes identity fields one → IsFirstFault bytes identity fields other → one ≡ other }
{}
