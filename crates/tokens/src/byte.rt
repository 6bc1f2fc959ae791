//! Classes of bytes.
ghost use Rattle.std.specs.Prelude.{◌≡◌};
ghost use Rattle.tokens.specs.Bytes.{within, past as past_of};

use logic::is_name_byte;

/// A class of bytes.
#[derive(Clone, Copy, PartialEq, Eq)]
pub enum Class {
    /// The space, the only blank.
    Space,
    /// 0 to 9.
    Digit,
    /// a to z, 0 to 9 and the underscore.
    Run,
}

impl Class {
    /// Whether the byte is of the class.
    pub fn has(self, byte: u8) -> bool
        ensures { result ≡ within self byte }
    {
        match self {
            Class::Space => byte == b' ',
            Class::Digit => byte.is_ascii_digit(),
            Class::Run => is_name_byte(byte),
        }
    }
}

/// The first place from `from` on whose byte is not of the class.
pub fn past(line: &[u8], from: usize, class: Class) -> usize
    ensures { result ≡ past_of class line.now from }
{
    match line.get(from..) {
        Some(rest) => from + rest.iter().take_while(|byte| class.has(**byte)).count(),
        None => from,
    }
}
