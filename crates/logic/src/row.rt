//! Symbols as they lie in the symbol store.
use crate::limits::NAME_BYTES;

/// What a symbol heads: a term or an atom.
#[derive(Clone, Copy, Default, PartialEq, Eq)]
pub enum Kind {
    #[default]
    Function,
    Predicate,
}

/// A row of the symbol store: plain numbers, of which anything may have been written. By default nothing has.
// Bytes with a length: the store is lent by the caller as plain rows, and nothing is allocated.
#[derive(Clone, Copy, Default, PartialEq, Eq)]
pub struct SymbolRow {
    pub name: [u8; NAME_BYTES],
    pub length: u8,
    pub kind: Kind,
    pub arity: u8,
}
