//! Lists of cells: the members of a set, and a row.

use crate::cell::Cell;
use helix_base::List;

/// Cells, as the members of a set.
pub type Cells = List<Cell>;

/// The cells of a row, one for each field.
pub type Row = List<Cell>;
