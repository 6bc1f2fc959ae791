//! One search over rows, for every kind of key with an exact sameness.
ghost use Rattle.std.specs.Prelude.{◌≡◌, Bool};
ghost use Rattle.logic.specs.Directory.{first_that};

/// A row that has a key of type Q inside: `has` says which.
pub trait Keyed<Q> {
    ghost has: { Self → Q → Bool };

    // No `==`: a row and its key have two types, and a row may have several keys.
    /// Whether the row has this key.
    fn is(&self, key: &Q) -> bool
        ensures { result ≡ has self.now key.now };
}

/// The place of the first row that has the key, or none where no row has it.
pub fn find<Q, R: Keyed<Q>>(rows: &[R], key: &Q) -> Option<usize>
    ensures { result ≡ first_that (λ row. R.Keyed.has row key.now) rows.now }
{
    rows.iter().position(|row| row.is(key))
}
