//! Laws over the definitions alone: each is the contract of a function that does nothing.

ghost use Rattle.std.specs.Prelude.{◌≡◌, List};
ghost use Rattle.helix_values.specs.declared.cell.Cell.{Cell};
ghost use Rattle.helix_profile.specs.declared.field.Field.{Field};
ghost use Rattle.helix_output.specs.DataText.{data_text};
ghost use Rattle.helix_output.specs.Fitting.{AllFit};
ghost use Rattle.helix_output.specs.declared.format.Format.{Format};

/// In each format, rows that fit the fields are told by their text: two different lists of rows have different texts.
pub fn texts_tell_rows()
    ensures { (format : Format) (fields : List Field) (a b : List (List Cell)) → AllFit fields a → AllFit fields b
        → data_text format fields a ≡ data_text format fields b → a ≡ b }
{}
