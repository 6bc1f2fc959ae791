//! Lines that no book has: empty, of any one byte, and a megabyte long.
#![tactic(auto)]

#[cfg(test)]
mod tests;
