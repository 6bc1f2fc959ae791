//! Symbols whose name and arity are known to be lawful.
ghost use Rattle.std.specs.Prelude.{◌≡◌, ◌≤◌, take, MatchOption};
ghost use Rattle.logic.specs.Limits as limits;
ghost use Rattle.logic.specs.Names.{name_byte, Recordable};

use crate::limits::{ARGUMENTS, NAME_BYTES};
use crate::row::{Kind, SymbolRow};

/// A symbol record: a name of 1 to 16 lawful bytes, a kind, and an arity of at most 4.
#[derive(Clone, Copy, PartialEq, Eq)]
pub struct Symbol {
    row: SymbolRow,
    ghost ok: { Recordable row.name row.length row.arity },
}

/// Whether a name may have this byte.
pub fn is_name_byte(b: u8) -> bool
    ensures { result ≡ name_byte b }
{
    b.is_ascii_lowercase() || b.is_ascii_digit() || b == b'_'
}

/// The record of a row: there is one exactly when the row's name and arity are lawful, and it has the row's parts.
// An `Option` and no `TryFrom`: a row that makes no record has nothing more to say, so there is no error to name.
pub fn record(row: &SymbolRow) -> Option<Symbol>
    ensures { MatchOption result (Recordable row.now.name row.now.length row.now.arity → ⊥) (λ s. Recordable row.now.name row.now.length row.now.arity × (s.row ≡ row.now)) }
{
    if row.length < 1 || row.length as usize > NAME_BYTES || row.arity as usize > ARGUMENTS {
        return None;
    }
    if !row.name[..row.length as usize]
        .iter()
        .all(|b| is_name_byte(*b))
    {
        return None;
    }
    Some(Symbol { row: *row })
}

impl Symbol {
    /// The bytes of the name.
    pub fn name(&self) -> &[u8]
        ensures { result.now ≡ take self.now.row.length self.now.row.name }
    {
        &self.row.name[..self.row.length as usize]
    }

    /// What the symbol heads.
    pub fn kind(&self) -> Kind
        ensures { result ≡ self.now.row.kind }
    {
        self.row.kind
    }

    /// How many arguments the symbol takes.
    pub fn arity(&self) -> usize
        ensures { (result ≡ self.now.row.arity) × (result ≤ limits.arguments) }
    {
        self.row.arity as usize
    }
}
