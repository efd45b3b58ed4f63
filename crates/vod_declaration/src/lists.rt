//! Parts behind others.
ghost use Rattle.std.specs.Prelude.{[], ◌∷◌};
ghost use Rattle.vod_grammar.specs.Read.{behind, bind, give, name_read, repeat, separated, word_read};
ghost use Rattle.vod_grammar.specs.State.{left, Gives, GivesAs, IsOfSource};
ghost use Rattle.vod_grammar.specs.Words.{is_word};
ghost use Rattle.vod_grammar.specs.declared.word.Word.TheVariants.{CloseParen, Comma, Semicolon};

use sqlite_items::Items;
use vod_expr::ParseFault;
use vod_grammar::{Phrase, Reader, Word, names, separated};
use vod_tree::Ident;

// Parts with `,` between, and `;`.
pub(crate) fn listed<P: Phrase>(
    reader: Reader<'_>,
    at: &mut usize,
) -> Result<Items<P::Node>, ParseFault>
where
    P::Node: Drop,
    requires { IsOfSource reader }
    ensures { Gives result (left reader.entry at.new)
        (bind (separated P.reading) (λ nodes. bind (word_read Semicolon) (λ _. give nodes)) (left reader.entry at.old)) }
{
    let nodes = separated::<P>(reader, at)?;
    reader.word(at, Word::Semicolon)?;
    Ok(nodes)
}

// Names with `,` between, and `;`.
pub(crate) fn listed_names(reader: Reader<'_>, at: &mut usize) -> Result<Items<Ident>, ParseFault>
    requires { IsOfSource reader }
    ensures { Gives result (left reader.entry at.new)
        (bind (separated name_read) (λ names. bind (word_read Semicolon) (λ _. give names)) (left reader.entry at.old)) }
{
    let names = names(reader, at)?;
    reader.word(at, Word::Semicolon)?;
    Ok(names)
}

// Behind a first part: each further one behind its `,`, and `)`.
pub(crate) fn enclosed<P: Phrase>(
    reader: Reader<'_>,
    at: &mut usize,
    first: P::Node,
) -> Result<Items<P::Node>, ParseFault>
where
    P::Node: Drop,
    requires { IsOfSource reader }
    ensures { Gives result (left reader.entry at.new)
        (bind (repeat (is_word Comma) (behind Comma P.reading) (first ∷ [])) (λ nodes. bind (word_read CloseParen) (λ _. give nodes)) (left reader.entry at.old)) }
{
    let mut nodes = Items::new(reader.alloc);
    nodes.push(first)?;
    further::<P>(reader, at, &mut nodes)?;
    reader.word(at, Word::CloseParen)?;
    Ok(nodes)
}

// Each further part behind its `,`.
fn further<P: Phrase>(
    reader: Reader<'_>,
    at: &mut usize,
    nodes: &mut Items<P::Node>,
) -> Result<(), ParseFault>
where
    P::Node: Drop,
    requires { IsOfSource reader }
    ensures { GivesAs (λ _. nodes.new) result (left reader.entry at.new)
        (repeat (is_word Comma) (behind Comma P.reading) nodes.old (left reader.entry at.old)) }
{
    for _ in 0..reader.remaining(*at) {
        let Some(_) = reader.takes(at, Word::Comma) else {
            return Ok(());
        };
        nodes.push(P::read(reader, at)?)?;
    }
    Ok(())
}
