//! Items of modules, read from the tokens of a source.
ghost use Rattle.std.specs.Prelude.{length};
ghost use Rattle.vod_grammar.specs.Read.{repeat};
ghost use Rattle.vod_grammar.specs.State.{left, Gives, GivesAs, IsOfSource};
ghost use Rattle.vod_grammar.specs.Words.{is_other};
ghost use Rattle.vod_grammar.specs.declared.word.Word.TheVariants.{Endmodule};
ghost use Rattle.vod_parse.specs.ItemsForm.{behavior_form, gate_or, item_form, items_form, kind_form, process_form};

use crate::functions::function;
use crate::processes::{always, assignments};
use sqlite_items::{Boxed, Items};
use vod_declaration::{declaration, is_declaration};
use vod_expr::ParseFault;
use vod_grammar::{Reader, Word};
use vod_initial::initial_statement;
use vod_instance::{gate, instances, is_gate};
use vod_tree::{Item, ItemKind};

// Items up to `endmodule`, which is left, or up to the end.
pub(crate) fn items(reader: Reader<'_>, at: &mut usize) -> Result<Items<Item>, ParseFault>
    requires { IsOfSource reader }
    ensures { Gives result (left reader.entry at.new) ((items_form (length reader.entry.tokens.now)).read (left reader.entry at.old)) }
{
    let mut items = Items::new(reader.alloc);
    more_items(reader, at, &mut items)?;
    Ok(items)
}

// Each further one.
fn more_items(reader: Reader<'_>, at: &mut usize, items: &mut Items<Item>) -> Result<(), ParseFault>
    requires { IsOfSource reader }
    ensures { GivesAs (λ _. items.new) result (left reader.entry at.new)
        (repeat (is_other Endmodule) (item_form (length reader.entry.tokens.now)).read items.old (left reader.entry at.old)) }
{
    for _ in 0..reader.remaining(*at) {
        if !reader.is_other(*at, Word::Endmodule) {
            return Ok(());
        }
        items.push(item(reader, at)?)?;
    }
    Ok(())
}

// An item, with its place.
#[tactic(auto, unfolding(crate::specs::ItemsForm::item_form))]
fn item(reader: Reader<'_>, at: &mut usize) -> Result<Item, ParseFault>
    requires { IsOfSource reader }
    ensures { Gives result (left reader.entry at.new) ((item_form (length reader.entry.tokens.now)).read (left reader.entry at.old)) }
{
    let place = reader.place(*at);
    let kind = kind(reader, at)?;
    Ok(Item { place, kind })
}

// A declaration, or another item.
fn kind(reader: Reader<'_>, at: &mut usize) -> Result<ItemKind, ParseFault>
    requires { IsOfSource reader }
    ensures { Gives result (left reader.entry at.new) ((kind_form (length reader.entry.tokens.now)).read (left reader.entry at.old)) }
{
    if is_declaration(reader, *at) {
        return declaration(reader, at);
    }
    gate_or_other(reader, at)
}

// Gates, or another item.
fn gate_or_other(reader: Reader<'_>, at: &mut usize) -> Result<ItemKind, ParseFault>
    requires { IsOfSource reader }
    ensures { Gives result (left reader.entry at.new) ((gate_or (behavior_form (length reader.entry.tokens.now))).read (left reader.entry at.old)) }
{
    if is_gate(reader, *at) {
        return Ok(ItemKind::Gate(gate(reader, at)?));
    }
    behavior(reader, at)
}

// Continuous assignments or a function, or another item.
fn behavior(reader: Reader<'_>, at: &mut usize) -> Result<ItemKind, ParseFault>
    requires { IsOfSource reader }
    ensures { Gives result (left reader.entry at.new) ((behavior_form (length reader.entry.tokens.now)).read (left reader.entry at.old)) }
{
    match reader.takes(at, Word::Assign) {
        Some(_) => Ok(ItemKind::Assign(assignments(reader, at)?)),
        None => match reader.takes(at, Word::Function) {
            Some(place) => {
                let function = function(reader, at, place)?;
                let function = Boxed::new(reader.alloc, function)?;
                Ok(ItemKind::Function(function))
            }
            None => process(reader, at),
        },
    }
}

// `initial` or `always`, or instances.
fn process(reader: Reader<'_>, at: &mut usize) -> Result<ItemKind, ParseFault>
    requires { IsOfSource reader }
    ensures { Gives result (left reader.entry at.new) ((process_form (length reader.entry.tokens.now)).read (left reader.entry at.old)) }
{
    match reader.takes(at, Word::Initial) {
        Some(_) => {
            let initial = initial_statement(reader, at)?;
            let initial = Boxed::new(reader.alloc, initial)?;
            Ok(ItemKind::Initial(initial))
        }
        None => match reader.takes(at, Word::Always) {
            Some(place) => {
                let always = always(reader, at, place)?;
                let always = Boxed::new(reader.alloc, always)?;
                Ok(ItemKind::Always(always))
            }
            None => Ok(ItemKind::Instances(instances(reader, at)?)),
        },
    }
}
