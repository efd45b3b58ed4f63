//! Modules and sources, read from the tokens of a source.
ghost use Rattle.std.specs.Prelude.{◌≡◌, None, length};
ghost use Rattle.vod_grammar.specs.Read.{first, passes, repeat};
ghost use Rattle.vod_grammar.specs.State.{left, Gives, GivesAs, IsOfSource};
ghost use Rattle.vod_parse.specs.Modules.{capped};
ghost use Rattle.vod_parse.specs.ModulesForm.{any, enclosed_items, header_form, module_form, part_form, source_form};

use crate::items::items;
use sqlite_items::Items;
use vod_declaration::{parameter_ports, ports};
use vod_directive::directive;
use vod_expr::ParseFault;
use vod_grammar::{Reader, Word};
use vod_tree::{Item, Module, ParameterPort, SourceItem, Tree, let_go};

// Directives and modules up to the end.
pub(crate) fn source(reader: Reader<'_>, at: &mut usize) -> Result<Tree, ParseFault>
    requires { IsOfSource reader }
    ensures { Gives result (left reader.entry at.new) ((source_form (length reader.entry.tokens.now)).read (left reader.entry at.old)) }
{
    let mut items = Items::new(reader.alloc);
    more_parts(reader, at, &mut items)?;
    Ok(Tree { items })
}

// Each further one.
fn more_parts(
    reader: Reader<'_>,
    at: &mut usize,
    parts: &mut Items<SourceItem>,
) -> Result<(), ParseFault>
    requires { IsOfSource reader }
    ensures { GivesAs (λ _. parts.new) result (left reader.entry at.new)
        (repeat any (part_form (length reader.entry.tokens.now)).read parts.old (left reader.entry at.old)) }
{
    for _ in 0..reader.remaining(*at) {
        if !is_left(reader, *at) {
            return Ok(());
        }
        parts.push(part(reader, at)?)?;
    }
    Ok(())
}

// Whether a token is left.
fn is_left(reader: Reader<'_>, at: usize) -> bool
    ensures { result ≡ passes any (first (left reader.entry at) None) }
{
    match reader.tokens.get(at) {
        Some(_) => true,
        None => false,
    }
}

// A module where its word comes next, or else a directive.
#[tactic(auto, unfolding(crate::specs::ModulesForm::part_form))]
fn part(reader: Reader<'_>, at: &mut usize) -> Result<SourceItem, ParseFault>
    requires { IsOfSource reader }
    ensures { Gives result (left reader.entry at.new) ((part_form (length reader.entry.tokens.now)).read (left reader.entry at.old)) }
{
    if reader.is_next(*at, Word::Module) {
        return Ok(SourceItem::Module(module(reader, at)?));
    }
    Ok(SourceItem::Directive(directive(reader, at)?))
}

fn module(reader: Reader<'_>, at: &mut usize) -> Result<Module, ParseFault>
    requires { IsOfSource reader }
    ensures { Gives result (left reader.entry at.new) ((module_form (length reader.entry.tokens.now)).read (left reader.entry at.old)) }
{
    let from = reader.remaining(*at);
    let place = reader.word(at, Word::Module)?;
    let name = reader.name(at)?;
    let parameters = header(reader, at)?;
    let ports = ports(reader, at)?;
    match body(reader, at) {
        Ok(items) => {
            let tokens = capped(from.saturating_sub(reader.remaining(*at)));
            Ok(Module {
                place,
                name,
                parameters,
                ports,
                items,
                tokens,
            })
        }
        Err(fault) => {
            let_go(parameters);
            let_go(ports);
            Err(fault)
        }
    }
}

// Behind the ports: `;`, items and `endmodule`.
fn body(reader: Reader<'_>, at: &mut usize) -> Result<Items<Item>, ParseFault>
    requires { IsOfSource reader }
    ensures { Gives result (left reader.entry at.new) ((enclosed_items (length reader.entry.tokens.now)).read (left reader.entry at.old)) }
{
    reader.word(at, Word::Semicolon)?;
    let items = items(reader, at)?;
    reader.word(at, Word::Endmodule)?;
    Ok(items)
}

// `#` and parameters, or nothing.
fn header(reader: Reader<'_>, at: &mut usize) -> Result<Option<Items<ParameterPort>>, ParseFault>
    requires { IsOfSource reader }
    ensures { Gives result (left reader.entry at.new) (header_form.read (left reader.entry at.old)) }
{
    match reader.takes(at, Word::Hash) {
        Some(_) => Ok(Some(parameter_ports(reader, at)?)),
        None => Ok(None),
    }
}

// A number of tokens, as far as 32 bits can say.
fn capped(count: usize) -> u32
    ensures { result ≡ capped count }
{
    u32::try_from(count).unwrap_or(u32::MAX)
}
