//! Domains by tables.

mod ask;
mod build;
mod codes;
mod lines;
mod marks;
mod words;
