//! Laws over the definitions alone: each is the contract of a function that does nothing.

ghost use Rattle.std.specs.Prelude.{ℕ, ◌≡◌, List};
ghost use Rattle.helix_values.specs.declared.cell.Cell.{Cell};
ghost use Rattle.helix_values.specs.declared.kind.Kind.{Kind};
ghost use Rattle.helix_values.specs.Universe.{InUniverse};
ghost use Rattle.helix_texts.specs.Texts.{cell_text};
ghost use Rattle.helix_texts.specs.Spelling.{Spells};

/// The written form of a value spells it, and a text spells at most one value of a kind. So two
/// values of a kind have two texts.
pub fn texts_are_read_back()
    ensures written { (k : Kind) (c : Cell) → InUniverse k c → Spells k (cell_text k c) c }
    ensures one { (k : Kind) (t : List ℕ) (c d : Cell) → Spells k t c → Spells k t d → c ≡ d }
    ensures different { (k : Kind) (c d : Cell) → InUniverse k c → InUniverse k d → cell_text k c ≡ cell_text k d
        → c ≡ d }
{}
