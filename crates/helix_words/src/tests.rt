//! Sets of words by tables.

mod build;
mod listed;
mod marks;
