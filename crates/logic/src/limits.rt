//! The limits of the language of clauses, and the numbers that words are made of.

/// How many variables there are: v0 up to, and without, this one.
pub const VARIABLES: u32 = 64;

/// How many symbols a book may have.
pub const SYMBOLS: usize = 256;

/// How many arguments a term or an atom may have.
pub const ARGUMENTS: usize = 4;

/// How deep a term may go.
pub const DEPTH: usize = 32;

/// How many literals a clause may have.
pub const LITERALS: usize = 32;

/// How many bytes a name may have.
pub const NAME_BYTES: usize = 16;

// Words are numbers and no enum: the word store is lent as plain numbers, and how they code a clause is what the theorems are about.
/// The word of symbol 0; a word below it is a variable.
pub const SYMBOL_WORD: u32 = 256;

/// The word of equality.
pub const EQUALITY_WORD: u32 = 512;

/// What the head of a negated literal has more.
pub const NEGATION: u32 = 1024;
