//! Rows of the symbol store, found by their names.
ghost use Rattle.std.specs.Prelude.{◌≡◌};
ghost use Rattle.logic.specs.Directory.{FirstPlace, has_name, place_of_name};
ghost use Rattle.logic.specs.Symbols.{name_of};

use crate::directory::{Keyed, find};
use crate::limits::NAME_BYTES;
use crate::row::SymbolRow;

/// A row has the bytes of its name as a key.
impl<'a> Keyed<&'a [u8]> for SymbolRow {
    ghost has = { λ row name. has_name row name.now };

    fn is(&self, key: &&'a [u8]) -> bool {
        &self.name[..(self.length as usize).min(NAME_BYTES)] == *key
    }
}

/// The place of the first row with the name, or none where no row has it.
pub fn symbol_named(rows: &[SymbolRow], name: &[u8]) -> Option<usize>
    ensures is { result ≡ place_of_name rows.now name.now }
    ensures first { FirstPlace (λ row. name_of row ≡ name.now) rows.now result }
{
    find(rows, &name)
}
