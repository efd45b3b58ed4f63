//! Event controls, `always` and continuous assignments, read from the tokens of a source.
ghost use Rattle.std.specs.Prelude.{length};
ghost use Rattle.vod_grammar.specs.Form.{behind};
ghost use Rattle.vod_grammar.specs.Read.{repeat};
ghost use Rattle.vod_grammar.specs.State.{left, Gives, GivesAs, IsOfSource};
ghost use Rattle.vod_grammar.specs.Words.{is_word};
ghost use Rattle.vod_grammar.specs.declared.word.Word.TheVariants.{Comma};
ghost use Rattle.vod_parse.specs.ProcessesForm.{always_form, assign_form, assignment_form, event_behind, event_form, second_behind, second_form, value_form};

use sqlite_items::Items;
use vod_expr::ParseFault;
use vod_grammar::{Reader, Word, only};
use vod_statement::{Context, left_side, statement};
use vod_tree::{Always, Assignment, Edge, Event, Lval, SecondEvent, Separator, let_go};

// Behind `always` at this place: its events and its statement.
pub(crate) fn always(reader: Reader<'_>, at: &mut usize, place: u32) -> Result<Always, ParseFault>
    requires { IsOfSource reader }
    ensures { Gives result (left reader.entry at.new) ((always_form (length reader.entry.tokens.now) place).read (left reader.entry at.old)) }
{
    reader.word(at, Word::EventControl)?;
    reader.word(at, Word::OpenParen)?;
    let event = event(reader, at)?;
    let second = second_event(reader, at)?;
    reader.word(at, Word::CloseParen)?;
    let body = statement(reader, at, Context::Always)?;
    Ok(Always {
        place,
        event,
        second,
        body,
    })
}

// An edge and a name.
fn event(reader: Reader<'_>, at: &mut usize) -> Result<Event, ParseFault>
    requires { IsOfSource reader }
    ensures { Gives result (left reader.entry at.new) (event_form.read (left reader.entry at.old)) }
{
    match reader.takes(at, Word::Posedge) {
        Some(place) => event_behind(reader, at, place, Edge::Posedge),
        None => {
            let place = reader.word(at, Word::Negedge)?;
            event_behind(reader, at, place, Edge::Negedge)
        }
    }
}

// Behind an edge: a name.
fn event_behind(
    reader: Reader<'_>,
    at: &mut usize,
    place: u32,
    edge: Edge,
) -> Result<Event, ParseFault>
    requires { IsOfSource reader }
    ensures { Gives result (left reader.entry at.new) ((event_behind place edge).read (left reader.entry at.old)) }
{
    let name = reader.name(at)?;
    Ok(Event { place, edge, name })
}

// `or` or `,` and an event, or nothing.
fn second_event(reader: Reader<'_>, at: &mut usize) -> Result<Option<SecondEvent>, ParseFault>
    requires { IsOfSource reader }
    ensures { Gives result (left reader.entry at.new) (second_form.read (left reader.entry at.old)) }
{
    match reader.takes(at, Word::Or) {
        Some(_) => second_behind(reader, at, Separator::Or),
        None => match reader.takes(at, Word::Comma) {
            Some(_) => second_behind(reader, at, Separator::Comma),
            None => Ok(None),
        },
    }
}

// Behind `or` or `,`: an event.
fn second_behind(
    reader: Reader<'_>,
    at: &mut usize,
    separator: Separator,
) -> Result<Option<SecondEvent>, ParseFault>
    requires { IsOfSource reader }
    ensures { Gives result (left reader.entry at.new) ((second_behind separator).read (left reader.entry at.old)) }
{
    let event = event(reader, at)?;
    Ok(Some(SecondEvent { separator, event }))
}

// Behind `assign`: one assignment or more, with `,` between, and `;`.
pub(crate) fn assignments(
    reader: Reader<'_>,
    at: &mut usize,
) -> Result<Items<Assignment>, ParseFault>
    requires { IsOfSource reader }
    ensures { Gives result (left reader.entry at.new) ((assign_form (length reader.entry.tokens.now)).read (left reader.entry at.old)) }
{
    let first = assignment(reader, at)?;
    let mut assignments = only(reader.alloc, first)?;
    more_assignments(reader, at, &mut assignments)?;
    reader.word(at, Word::Semicolon)?;
    Ok(assignments)
}

// Each further one behind its `,`.
fn more_assignments(
    reader: Reader<'_>,
    at: &mut usize,
    assignments: &mut Items<Assignment>,
) -> Result<(), ParseFault>
    requires { IsOfSource reader }
    ensures { GivesAs (λ _. assignments.new) result (left reader.entry at.new)
        (repeat (is_word Comma) (behind Comma (assignment_form (length reader.entry.tokens.now))).read assignments.old (left reader.entry at.old)) }
{
    for _ in 0..reader.remaining(*at) {
        let Some(_) = reader.takes(at, Word::Comma) else {
            return Ok(());
        };
        assignments.push(assignment(reader, at)?)?;
    }
    Ok(())
}

// A left side, `=` and a value.
fn assignment(reader: Reader<'_>, at: &mut usize) -> Result<Assignment, ParseFault>
    requires { IsOfSource reader }
    ensures { Gives result (left reader.entry at.new) ((assignment_form (length reader.entry.tokens.now)).read (left reader.entry at.old)) }
{
    let target = left_side(reader, at)?;
    assigned(reader, at, target)
}

// Behind a left side: `=` and a value.
fn assigned(reader: Reader<'_>, at: &mut usize, target: Lval) -> Result<Assignment, ParseFault>
    requires { IsOfSource reader }
    ensures { Gives result (left reader.entry at.new) ((value_form target).read (left reader.entry at.old)) }
{
    if let Err(fault) = reader.word(at, Word::Equals) {
        let_go(target);
        return Err(fault);
    }
    match reader.expression(at) {
        Ok(value) => Ok(Assignment { target, value }),
        Err(fault) => {
            let_go(target);
            Err(fault)
        }
    }
}
