//! Names of blocks, read from the tokens of a source.
ghost use Rattle.vod_grammar.specs.State.{left, Gives, IsOfSource};
ghost use Rattle.vod_statement.specs.Label.{label_form};

use vod_expr::ParseFault;
use vod_grammar::{Reader, Word};
use vod_tree::Ident;

/// The name of a block, behind its `begin`: `: NAME` or nothing. What its form reads, `block_names_are_exact` says: exactly that
/// (`IsLabel`).
pub fn block_name(reader: Reader<'_>, at: &mut usize) -> Result<Option<Ident>, ParseFault>
    requires { IsOfSource reader }
    ensures { Gives result (left reader.entry at.new) (label_form.read (left reader.entry at.old)) }
{
    let Some(_) = reader.takes(at, Word::Colon) else {
        return Ok(None);
    };
    let name = reader.name(at)?;
    Ok(Some(name))
}
