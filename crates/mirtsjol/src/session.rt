//! A session: the stores, and how many symbols are counted.
mod calls;

ghost use Rattle.std.specs.Prelude.{◌≤◌, vec_len};
ghost use Rattle.logic.specs.Limits.{symbols as symbol_room};
ghost use Rattle.reading.specs.Fixed.{Fixed};

use logic::SymbolRow;

/// The stores, and how many symbols are counted: within the store and the limit, each with a fixed arity.
// A filled store with a count beside it: reading allocates nothing, so it is lent all rows and counts those that it uses.
#[derive(Drop)]
pub struct Session {
    rows: Vec<SymbolRow>,
    symbols: usize,
    words: Vec<u32>,
    ghost within: { symbols ≤ vec_len rows },
    ghost few: { symbols ≤ symbol_room },
    ghost fixed: { Fixed symbols rows.items },
}
