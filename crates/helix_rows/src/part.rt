//! A part of the fields, with its regions.

use helix_base::Numbers32;

/// Some of the fields, ascending, and the regions over them, by their numbers in the walk's list of regions.
#[derive(Debug, Drop)]
pub struct Part {
    pub fields: Numbers32,
    pub regions: Numbers32,
}
