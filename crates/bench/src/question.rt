//! What a step puts to an inference rule.
use lines::FEW;
use logic::SymbolRow;
use reading::Bindings;

/// A step as it is put to an inference rule: the rows of the counted symbols, the words of the premises (none where there are fewer), the
/// literal numbers (0 where there are fewer), the position, the bindings, and the words of the written conclusion.
// An array of fixed size, since checking allocates nothing; plain numbers with 0 for none: how many count is said by the shape of the rule that is asked.
#[derive(Clone, Copy)]
pub struct Question<'a> {
    pub rows: &'a [SymbolRow],
    pub first: &'a [u32],
    pub second: &'a [u32],
    pub literals: [u32; FEW],
    pub position: &'a [u32],
    pub bindings: &'a Bindings,
    pub conclusion: &'a [u32],
}
