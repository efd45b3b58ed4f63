//! Ranges, read from the tokens of a source.
ghost use Rattle.vod_grammar.specs.State.{left, Gives, IsOfSource};
ghost use Rattle.vod_declaration.specs.RangesForm.{bounds, range_form, upper};

use vod_expr::ParseFault;
use vod_grammar::{Reader, Word};
use vod_tree::{Expr, Range, let_go};

/// A range where `[` comes next, and nothing elsewhere. What its form reads, `ranges_are_exact` says: exactly the ranges
/// (`IsRange`).
pub fn range(reader: Reader<'_>, at: &mut usize) -> Result<Option<Range>, ParseFault>
    requires { IsOfSource reader }
    ensures { Gives result (left reader.entry at.new) (range_form.read (left reader.entry at.old)) }
{
    let Some(place) = reader.takes(at, Word::OpenBracket) else {
        return Ok(None);
    };
    let range = bounds(reader, at, place)?;
    Ok(Some(range))
}

// Behind `[`, at this place: `expr : expr ]`.
pub(crate) fn bounds(reader: Reader<'_>, at: &mut usize, place: u32) -> Result<Range, ParseFault>
    requires { IsOfSource reader }
    ensures { Gives result (left reader.entry at.new) ((bounds place).read (left reader.entry at.old)) }
{
    let first = reader.expression(at)?;
    match upper(reader, at) {
        Ok(second) => Ok(Range {
            place,
            first,
            second,
        }),
        Err(fault) => {
            let_go(first);
            Err(fault)
        }
    }
}

// `: expr ]`
fn upper(reader: Reader<'_>, at: &mut usize) -> Result<Expr, ParseFault>
    requires { IsOfSource reader }
    ensures { Gives result (left reader.entry at.new) (upper.read (left reader.entry at.old)) }
{
    reader.word(at, Word::Colon)?;
    let second = reader.expression(at)?;
    match reader.word(at, Word::CloseBracket) {
        Ok(_) => Ok(second),
        Err(fault) => {
            let_go(second);
            Err(fault)
        }
    }
}
