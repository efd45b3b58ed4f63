//! Left sides, read from the tokens of a source.
ghost use Rattle.std.specs.Prelude.{◌≡◌, [], length, None};
ghost use Rattle.vod_tree.specs.declared.statement.Lval.{Lval};
ghost use Rattle.vod_grammar.specs.Form.{behind, limit_read, separated};
ghost use Rattle.vod_grammar.specs.Read.{first, passes, repeat};
ghost use Rattle.vod_grammar.specs.State.{left, Gives, GivesAs, IsOfSource};
ghost use Rattle.vod_grammar.specs.Words.{is_word};
ghost use Rattle.vod_grammar.specs.declared.word.Word.TheVariants.{Comma};
ghost use Rattle.vod_statement.specs.LeftSideForm.{named, range_end, ranged, joined, lval_form, starts_lval};

use sqlite_items::Items;
use vod_expr::ParseFault;
use vod_grammar::{Reader, Word};
use vod_tree::{Expr, Ident, Lval, LvalKind, let_go};

/// A left side: a name, with a select or without one, or a concatenation of left sides. No more of them are nested than there
/// are tokens. What its form reads, `left_sides_are_exact` says: exactly the left sides (`IsLval`).
pub fn left_side(reader: Reader<'_>, at: &mut usize) -> Result<Lval, ParseFault>
    requires { IsOfSource reader }
    ensures { Gives result (left reader.entry at.new) ((lval_form (length reader.entry.tokens.now)).read (left reader.entry at.old)) }
{
    nested(reader, at, reader.tokens.len())
}

/// Whether a token comes next that begins a left side.
#[tactic(auto, using(crate::proofs::Starts::lval_next))]
pub(crate) fn is_left_side(reader: Reader<'_>, at: usize) -> bool
    requires { IsOfSource reader }
    ensures { result ≡ passes starts_lval (first (left reader.entry at) None) }
{
    reader.is_next(at, Word::OpenBrace) || reader.is_name(at)
}

// A left side in which fewer concatenations than this are nested.
#[cycle(left_side)]
#[tactic(auto, unfolding(crate::specs::LeftSideForm::lval_form))]
fn nested(reader: Reader<'_>, at: &mut usize, depth: usize) -> Result<Lval, ParseFault>
    requires { IsOfSource reader }
    ensures { Gives result (left reader.entry at.new) ((lval_form depth).read (left reader.entry at.old)) }
{
    if depth == 0 {
        return refused(reader, *at);
    }
    match reader.takes(at, Word::OpenBrace) {
        Some(place) => concatenation(reader, at, place, depth - 1),
        None => named(reader, at),
    }
}

// Why no left side is read that would be nested too deep.
#[tactic(auto, using(crate::specs::LimitLaws::limited, crate::specs::LimitLaws::unlimited))]
fn refused(reader: Reader<'_>, at: usize) -> Result<Lval, ParseFault>
    requires { IsOfSource reader }
    ensures { Gives result [] (limit_read starts_lval (left reader.entry at)) }
{
    if is_left_side(reader, at) {
        return Err(ParseFault::Statement(reader.place(at)));
    }
    Err(reader.fault(at))
}

// Behind `{`: left sides and `}`.
#[cycle(left_side)]
fn concatenation(
    reader: Reader<'_>,
    at: &mut usize,
    place: u32,
    depth: usize,
) -> Result<Lval, ParseFault>
    requires { IsOfSource reader }
    ensures { Gives result (left reader.entry at.new) ((joined (lval_form depth) place).read (left reader.entry at.old)) }
{
    let parts = left_sides(reader, at, depth)?;
    reader.word(at, Word::CloseBrace)?;
    let kind = LvalKind::Concat(parts);
    Ok(Lval { place, kind })
}

#[cycle(left_side)]
fn left_sides(reader: Reader<'_>, at: &mut usize, depth: usize) -> Result<Items<Lval>, ParseFault>
    requires { IsOfSource reader }
    ensures { Gives result (left reader.entry at.new) ((separated (lval_form depth)).read (left reader.entry at.old)) }
{
    let mut parts = Items::new(reader.alloc);
    parts.push(nested(reader, at, depth)?)?;
    more_left_sides(reader, at, depth, &mut parts)?;
    Ok(parts)
}

// Each further one behind its `,`.
#[cycle(left_side)]
fn more_left_sides(
    reader: Reader<'_>,
    at: &mut usize,
    depth: usize,
    parts: &mut Items<Lval>,
) -> Result<(), ParseFault>
    requires { IsOfSource reader }
    ensures { GivesAs (λ _. parts.new) result (left reader.entry at.new)
        (repeat (is_word Comma) (behind Comma (lval_form depth)).read parts.old (left reader.entry at.old)) }
{
    for _ in 0..reader.remaining(*at) {
        let Some(_) = reader.takes(at, Word::Comma) else {
            return Ok(());
        };
        parts.push(nested(reader, at, depth)?)?;
    }
    Ok(())
}

// A name, with a select or without one.
fn named(reader: Reader<'_>, at: &mut usize) -> Result<Lval, ParseFault>
    requires { IsOfSource reader }
    ensures { Gives result (left reader.entry at.new) (named.read (left reader.entry at.old)) }
{
    let name = reader.name(at)?;
    let Some(_) = reader.takes(at, Word::OpenBracket) else {
        let place = name.place;
        let kind = LvalKind::Name(name);
        return Ok(Lval { place, kind });
    };
    let first = reader.expression(at)?;
    ranged(reader, at, name, first)
}

// Behind the name and the first expression of a select.
fn ranged(reader: Reader<'_>, at: &mut usize, name: Ident, first: Expr) -> Result<Lval, ParseFault>
    requires { IsOfSource reader }
    ensures { Gives result (left reader.entry at.new) ((ranged name first).read (left reader.entry at.old)) }
{
    let Some(_) = reader.takes(at, Word::Colon) else {
        return match reader.word(at, Word::CloseBracket) {
            Ok(_) => {
                let place = name.place;
                let kind = LvalKind::Index(name, first);
                Ok(Lval { place, kind })
            }
            Err(fault) => {
                let_go(first);
                Err(fault)
            }
        };
    };
    match reader.expression(at) {
        Ok(second) => range_end(reader, at, name, first, second),
        Err(fault) => {
            let_go(first);
            Err(fault)
        }
    }
}

// Behind the name and the expressions of a select.
fn range_end(
    reader: Reader<'_>,
    at: &mut usize,
    name: Ident,
    first: Expr,
    second: Expr,
) -> Result<Lval, ParseFault>
    requires { IsOfSource reader }
    ensures { Gives result (left reader.entry at.new) ((range_end name first second).read (left reader.entry at.old)) }
{
    match reader.word(at, Word::CloseBracket) {
        Ok(_) => {
            let place = name.place;
            let kind = LvalKind::Range(name, first, second);
            Ok(Lval { place, kind })
        }
        Err(fault) => {
            let_go(first);
            let_go(second);
            Err(fault)
        }
    }
}
