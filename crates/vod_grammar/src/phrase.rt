//! Lists of phrases.
ghost use Rattle.std.specs.Prelude.{◌≡◌, List, [], ◌∷◌, IfOk};
ghost use Rattle.vod_expr.specs.Grammar.{Lexeme};
ghost use Rattle.vod_grammar.specs.Read.{Read, separated, repeat, behind, name_read, expression_read};
ghost use Rattle.vod_grammar.specs.State.{left, Gives, GivesAs, IsOfSource};
ghost use Rattle.vod_grammar.specs.Words.{is_word};
ghost use Rattle.vod_grammar.specs.declared.word.Word.TheVariants.{Comma};

use crate::reader::Reader;
use crate::word::Word;
use sqlite_items::Items;
use std::alloc::{AllocError, Global};
use vod_expr::ParseFault;
use vod_tree::{Expr, Ident};

/// A form of phrase that is read from the tokens of a source, by a reading on lists of tokens: what that reads, a law of the crate
/// that has the form says.
pub trait Phrase {
    /// The tree of such a phrase.
    type Node;

    ghost reading: { List Lexeme → Read Self.Node };

    /// Reads one.
    fn read(reader: Reader<'_>, at: &mut usize) -> Result<Self::Node, ParseFault>
        requires { IsOfSource reader }
        ensures { Gives result (left reader.entry at.new) (reading (left reader.entry at.old)) };
}

/// One phrase or more, with `,` between. Where the reading of one is that of a form whose laws hold, `separated_laws` and
/// `commas_of` (`specs/PartLaws`, `specs/ListLaws`) say what its lists are; for names and expressions `lists_are_exact` does.
pub fn separated<P: Phrase>(
    reader: Reader<'_>,
    at: &mut usize,
) -> Result<Items<P::Node>, ParseFault>
where
    P::Node: Drop,
    requires { IsOfSource reader }
    ensures { Gives result (left reader.entry at.new) (separated P.reading (left reader.entry at.old)) }
{
    let first = P::read(reader, at)?;
    let mut nodes = only(reader.alloc, first)?;
    more_separated::<P>(reader, at, &mut nodes)?;
    Ok(nodes)
}

/// A list of one item, without room for more: most lists of a source have no more.
pub fn only<T: Drop>(alloc: Global, item: T) -> Result<Items<T>, AllocError>
    ensures { IfOk result (λ items. items ≡ item ∷ []) }
{
    let mut items = Vec::with_capacity(alloc, 1)?;
    items.push(item)?;
    Ok(Items::from_vec(items))
}

// Each further one behind its `,`.
fn more_separated<P: Phrase>(
    reader: Reader<'_>,
    at: &mut usize,
    nodes: &mut Items<P::Node>,
) -> Result<(), ParseFault>
where
    P::Node: Drop,
    requires { IsOfSource reader }
    ensures { GivesAs (λ _. nodes.new) result (left reader.entry at.new)
        (repeat (is_word Comma) (behind Comma P.reading) nodes.old (left reader.entry at.old)) }
{
    for _ in 0..reader.remaining(*at) {
        let Some(_) = reader.takes(at, Word::Comma) else {
            return Ok(());
        };
        nodes.push(P::read(reader, at)?)?;
    }
    Ok(())
}

// A name.
pub(crate) struct NamePhrase {}

impl Phrase for NamePhrase {
    type Node = Ident;

    ghost use Rattle.vod_grammar.specs.Read.{name_read};

    ghost reading = { name_read };

    fn read(reader: Reader<'_>, at: &mut usize) -> Result<Ident, ParseFault> {
        reader.name(at)
    }
}

// An expression.
pub(crate) struct ExpressionPhrase {}

impl Phrase for ExpressionPhrase {
    type Node = Expr;

    ghost use Rattle.vod_grammar.specs.Read.{expression_read};

    ghost reading = { expression_read };

    fn read(reader: Reader<'_>, at: &mut usize) -> Result<Expr, ParseFault> {
        reader.expression(at)
    }
}

/// One name or more, with `,` between: `lists_are_exact` says which tokens these are.
pub fn names(reader: Reader<'_>, at: &mut usize) -> Result<Items<Ident>, ParseFault>
    requires { IsOfSource reader }
    ensures { Gives result (left reader.entry at.new) (separated name_read (left reader.entry at.old)) }
{
    separated::<NamePhrase>(reader, at)
}

/// One expression or more, with `,` between: `lists_are_exact` says which tokens these are.
pub fn expressions(reader: Reader<'_>, at: &mut usize) -> Result<Items<Expr>, ParseFault>
    requires { IsOfSource reader }
    ensures { Gives result (left reader.entry at.new) (separated expression_read (left reader.entry at.old)) }
{
    separated::<ExpressionPhrase>(reader, at)
}
