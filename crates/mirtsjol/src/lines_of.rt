//! The lines of an input.
ghost use Rattle.std.specs.Prelude.{◌≡◌};
ghost use Rattle.std.specs.List.{position, before_first, after_first};
ghost use Rattle.std.specs.Iterator.{YieldsFirstBy, item_count};
ghost use Rattle.mirtsjol.specs.Cuts.{Newline, lines_of, LinesComeOneByOne};
ghost use Rattle.mirtsjol.specs.Lines.{lines_left};

/// The byte that ends a line.
const NEWLINE: u8 = b'\n';

/// The lines of an input, from the front on, each without its newline.
#[derive(Drop)]
pub struct Lines<'a> {
    rest: &'a [u8],
}

impl<'a> Lines<'a> {
    /// The lines of an input; behind a last newline there is none.
    pub fn new(input: &'a [u8]) -> Lines<'a>
        ensures all { lines_left result ≡ lines_of input.now }
        ensures cut { LinesComeOneByOne input.now }
    {
        Lines { rest: input }
    }
}

/// The first place that has a newline.
fn newline_in(bytes: &[u8]) -> Option<usize>
    ensures { result ≡ position Newline bytes.now }
{
    bytes.iter().position(|byte| *byte == NEWLINE)
}

/// What stands before the first newline and what stands behind it; without a newline, all and nothing.
fn first_line(bytes: &[u8]) -> (&[u8], &[u8])
    ensures line { result.0.now ≡ before_first Newline bytes.now }
    ensures rest { result.1.now ≡ after_first Newline bytes.now }
{
    match newline_in(bytes) {
        Some(end) => (&bytes[..end], &bytes[end + 1..]),
        None => (bytes, &[]),
    }
}

impl<'a> Iterator for Lines<'a> {
    type Item = &'a [u8];

    ghost next_gives = { YieldsFirstBy (λ line. line.now) lines_left };

    ghost remaining = { item_count lines_left };

    #[tactic(auto, using(crate::proofs::FirstLine::parted))]
    fn next(&mut self) -> Option<&'a [u8]> {
        if self.rest.is_empty() {
            return None;
        }
        let (line, rest) = first_line(self.rest);
        self.rest = rest;
        Some(line)
    }
}
