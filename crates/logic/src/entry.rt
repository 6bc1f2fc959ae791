//! Entries of the book, found by their step numbers.
ghost use Rattle.std.specs.Prelude.{◌≡◌};
ghost use Rattle.logic.specs.Directory.{FirstPlace, has_number, place_of_number};

use crate::directory::{Keyed, find};

/// An entry of the book: its step number, the place of its first word and its count of words.
#[derive(Clone, Copy, PartialEq, Eq)]
pub struct Entry {
    pub number: u32,
    pub start: u32,
    pub length: u32,
}

/// An entry has its step number as a key.
impl Keyed<u32> for Entry {
    ghost has = { has_number };

    fn is(&self, key: &u32) -> bool {
        self.number == *key
    }
}

/// The place of the first entry with the step number, or none where no entry has it.
pub fn entry_numbered(entries: &[Entry], number: u32) -> Option<usize>
    ensures is { result ≡ place_of_number entries.now number }
    ensures first { FirstPlace (λ e. e.number ≡ number) entries.now result }
{
    find(entries, &number)
}
