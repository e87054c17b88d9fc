//! Piles of memories in use, and tests of the edges.
#![tactic(auto)]

mod piles;
#[cfg(test)]
mod tests;

pub use piles::{
    copy_in_bytes, copy_in_pile, copy_in_words, delay_in_pile, read_in_row, write_in_stretch,
};
