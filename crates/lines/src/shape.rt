//! What answers a keyword with the shape of its inference rule's justifications.
ghost use Rattle.std.specs.Prelude.{◌≡◌, ℕ, List, Option};
ghost use Rattle.lines.specs.declared.shape.Shape.{Shape};

/// What a justification has behind its keyword: how many premises and literal numbers (more than two count as two), and whether a position
/// and whether bindings follow.
#[derive(Clone, Copy)]
pub struct Shape {
    pub premises: u32,
    pub literals: u32,
    pub position: bool,
    pub bindings: bool,
}

/// What knows inference rules by their keywords.
pub trait Shapes {
    ghost shapes: { Self → List ℕ → Option Shape };

    /// The shape of the inference rule with the keyword, or none where no rule has it.
    fn shape(&self, keyword: &[u8]) -> Option<Shape>
        ensures { result ≡ shapes self.now keyword.now };
}
