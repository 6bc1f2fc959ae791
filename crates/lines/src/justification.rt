//! Justifications.
ghost use Rattle.std.specs.Prelude.{◌≡◌, OnOk};
ghost use Rattle.reading.specs.States.{◌then◌};
ghost use Rattle.reading.specs.Readers.{Keeps};
ghost use Rattle.lines.specs.Positions.{StaysInLine};
ghost use Rattle.lines.specs.Justifications.{few_read, few_at, after_keyword, keyword_at, after_cited, cited_at, numbers_and_end, Usable, after_justification, justification_at};

use crate::number::read_number;
use crate::position::{POSITION_NUMBERS, read_position};
use crate::shape::{Shape, Shapes};
use reading::{Bindings, Cursor, Reader};
use tokens::Fault;

/// How many premises, and how many literal numbers, a justification may have.
pub const FEW: usize = 2;

/// What a justification has behind its keyword. The shape of its inference rule says how many premises and literal numbers count; the
/// position has the first `steps` numbers.
// Arrays of fixed size, since reading allocates nothing; how many of the numbers count is said by the shape, so they are no `Option`s.
// That it is usable is no invariant, for the reason given at `Bindings`.
#[derive(Clone, Copy)]
pub struct Justification {
    pub premises: [u32; FEW],
    pub literals: [u32; FEW],
    pub position: [u32; POSITION_NUMBERS],
    pub steps: usize,
    pub bindings: Bindings,
}

/// A keyword, and the shape that it stands for.
#[derive(Clone, Copy)]
pub struct Keyword<'a> {
    pub run: &'a [u8],
    pub shape: Shape,
}

/// A keyword with its premises and literal numbers, as `Justification` has them; 0 stands for a number that is not asked for.
#[derive(Clone, Copy)]
pub struct Cited<'a> {
    pub keyword: Keyword<'a>,
    pub premises: [u32; FEW],
    pub literals: [u32; FEW],
}

/// The numbers that are due in a row: none, one or two; 0 stands for a number that is not asked for.
fn read_few(at: &mut Cursor<'_>, wanted: u32) -> Result<[u32; FEW], Fault>
    ensures is { few_read result at.new ≡ few_at at.old.line.now wanted at.old.pos }
    ensures on { StaysInLine at.old at.new }
{
    let mut numbers = [0; FEW];
    // Written out: a loop over `iter_mut().take(..)` is no shorter, and would need an invariant over two numbers.
    if wanted > 0 {
        numbers[0] = read_number(at)?;
    }
    if wanted > 1 {
        numbers[1] = read_number(at)?;
    }
    Ok(numbers)
}

/// The keyword that is due.
fn read_keyword<'a, S: Shapes>(at: &mut Cursor<'a>, bench: &S) -> Result<Keyword<'a>, Fault>
    ensures is { after_keyword result at.new ≡ keyword_at at.old.line.now (S.shapes bench.now) at.old.pos }
    ensures on { StaysInLine at.old at.new }
{
    let lexeme = at.next()?;
    let run = lexeme.keyword()?;
    let shape = bench.shape(run).ok_or(Fault::NoRule(lexeme.place))?;
    Ok(Keyword { run, shape })
}

/// The keyword that is due, and behind it as many premises and literal numbers as its shape says.
#[tactic(auto, unfolding(crate::specs::Justifications::cited_at))]
fn read_cited<'a, S: Shapes>(at: &mut Cursor<'a>, bench: &S) -> Result<Cited<'a>, Fault>
    ensures is { after_cited result at.new ≡ (cited_at at.old.line.now (S.shapes bench.now) at.old.pos then numbers_and_end) }
    ensures on { StaysInLine at.old at.new }
{
    let keyword = read_keyword(at, bench)?;
    let premises = read_few(at, keyword.shape.premises)?;
    let literals = read_few(at, keyword.shape.literals)?;
    Ok(Cited {
        keyword,
        premises,
        literals,
    })
}

/// The justification that is due.
#[tactic(auto, unfolding(crate::specs::Justifications::justification_at))]
pub fn read_justification<'a, S: Shapes>(
    reader: &mut Reader<'a, '_>,
    bench: &S,
    justification: &mut Justification,
) -> Result<Keyword<'a>, Fault>
    ensures is { after_justification result justification.new reader.new ≡ justification_at reader.old.at.line.now (S.shapes bench.now) reader.old.at.pos reader.old.symbols reader.old.rows.now }
    ensures usable { OnOk result (Usable justification.new) }
    ensures keeps { Keeps reader.old reader.new }
{
    reader.at.open()?;
    let cited = read_cited(&mut reader.at, bench)?;
    let shape = cited.keyword.shape;
    let mut steps = 0;
    if shape.position {
        steps = read_position(&mut reader.at, &mut justification.position)?;
    }
    if shape.bindings {
        reader.bindings(&mut justification.bindings)?;
    } else {
        justification.bindings.count = 0;
    }
    reader.at.close()?;
    justification.premises = cited.premises;
    justification.literals = cited.literals;
    justification.steps = steps;
    Ok(cited.keyword)
}
