//! Bindings: the variables that are bound, and the words that they are bound to.
ghost use Rattle.std.specs.Prelude.{◌≡◌, take, Decides};
ghost use Rattle.reading.specs.Bindings.{held_at};
ghost use Rattle.rules.specs.Images.{Room, Repeats, PlaceOf};

use logic::VARIABLES;
use reading::{BINDINGS, Bindings};

/// The variables that are bound, in the order of their bindings.
pub(crate) fn bound_variables(bindings: &Bindings) -> &[u32]
    ensures are { result.now ≡ take bindings.now.count bindings.now.variables }
    ensures room { Room bindings.now }
{
    let count = bindings.count.min(BINDINGS);
    &bindings.variables[..count]
}

/// The words to which binding k binds its variable; none where there are no such words.
pub(crate) fn bound_words(bindings: &Bindings, k: usize) -> &[u32]
    ensures { result.now ≡ (held_at bindings.now k).words }
{
    // Clamped, and no get: of a span that runs past the end, the part within counts.
    if k >= BINDINGS {
        return &[];
    }
    let end = (bindings.places[k + 1] as usize).min(bindings.terms.len());
    let start = (bindings.places[k] as usize).min(end);
    &bindings.terms[start..end]
}

/// Whether some variable is bound twice.
// Marks by index, in one pass: to look among the variables before each is quadratic, and of `get_mut` the check loses what becomes of
// the marks (tried).
pub(crate) fn bound_twice(variables: &[u32]) -> bool
    ensures { Decides result (Repeats variables.now) }
{
    let mut seen = [false; VARIABLES as usize];
    for variable in variables {
        if *variable < VARIABLES {
            let v = *variable as usize;
            if seen[v] {
                return true;
            }
            seen[v] = true;
        }
    }
    false
}

/// The number of the binding that binds the word, if it is a variable that is bound.
pub(crate) fn binding_of(variables: &[u32], word: u32) -> Option<usize>
    ensures { PlaceOf variables.now word result }
{
    if word >= VARIABLES {
        return None;
    }
    variables.iter().position(|variable| *variable == word)
}
