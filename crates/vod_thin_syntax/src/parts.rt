//! Ports, items and the whole module, read token by token.
ghost use Rattle.std.specs.Prelude.{◌≡◌, ◌&&◌, [], map, All, IfOk, OnOk};
ghost use Rattle.vod_token.specs.Span.{LiesIn};
ghost use Rattle.vod_thin_syntax.specs.Lies.{IsRange, PortLies, ItemLies, ModuleLies};
ghost use Rattle.vod_thin_syntax.specs.View.{name_of, port_of, item_of, marks_in, module_of};
ghost use Rattle.vod_thin_syntax.specs.Reader.{direction_read, port_read, next_port_read, more_ports, ports_read, digit_read, scan_read, value_read, wire_read, register_read, assign_read, clock_read, always_read, item_read, items_read, module_read, may_end, is_next};
ghost use Rattle.vod_thin_syntax.specs.State.{left, Gives};
ghost use Rattle.vod_thin_syntax.specs.declared.words.Word.TheVariants.{Semicolon};

use crate::reader::{Reader, Stop};
use crate::scan::{Head, Scan};
use crate::syntax::{Direction, Item, Module, Port, Span};
use crate::words::Word;
use std::alloc::Global;
use vod_token::Token;

/// A whole module.
#[tactic(auto, unfolding(crate::specs::Reader::module_read))]
pub(crate) fn module(reader: Reader<'_>, at: &mut u32, alloc: Global) -> Result<Module, Stop>
    ensures gives { Gives (module_of reader.entry.source.now reader.entry.tokens.now) result (left reader.entry at.new) (module_read (left reader.entry at.old)) }
    ensures lies { IfOk result (ModuleLies reader.entry.source.now reader.entry.tokens.now) }
{
    reader.word(at, Word::Module)?;
    let name = reader.name(at)?;
    reader.word(at, Word::Open)?;
    let ports = ports(reader, at, alloc)?;
    reader.word(at, Word::Semicolon)?;
    let items = items(reader, at, alloc)?;
    Ok(Module { name, ports, items })
}

// Ports, up to their `)`.
fn ports(reader: Reader<'_>, at: &mut u32, alloc: Global) -> Result<Vec<Port>, Stop>
    ensures gives { Gives (λ ports. map (port_of reader.entry.source.now) ports.items) result (left reader.entry at.new) (ports_read (left reader.entry at.old)) }
    ensures lies { IfOk result (λ ports. All (PortLies reader.entry.source.now) ports.items) }
{
    let mut ports = Vec::new(alloc);
    ports.push(port(reader, at)?)?;
    more_ports(reader, at, &mut ports)?;
    Ok(ports)
}

fn more_ports(reader: Reader<'_>, at: &mut u32, ports: &mut Vec<Port>) -> Result<(), Stop>
    requires { All (PortLies reader.source.now) ports.old.items }
    ensures gives { Gives (λ _. map (port_of reader.entry.source.now) ports.new.items) result (left reader.entry at.new)
        (more_ports (map (port_of reader.entry.source.now) ports.old.items) (left reader.entry at.old)) }
    ensures lies { OnOk result (All (PortLies reader.entry.source.now) ports.new.items) }
{
    while !reader.takes(at, Word::Close) {
        let port = next_port(reader, at)?;
        ports.push(port)?;
    }
    Ok(())
}

fn next_port(reader: Reader<'_>, at: &mut u32) -> Result<Port, Stop>
    ensures gives { Gives (port_of reader.entry.source.now) result (left reader.entry at.new) (next_port_read (left reader.entry at.old)) }
    ensures lies { IfOk result (PortLies reader.entry.source.now) }
{
    reader.word(at, Word::Comma)?;
    let port = port(reader, at)?;
    Ok(port)
}

fn port(reader: Reader<'_>, at: &mut u32) -> Result<Port, Stop>
    ensures gives { Gives (port_of reader.entry.source.now) result (left reader.entry at.new) (port_read (left reader.entry at.old)) }
    ensures lies { IfOk result (PortLies reader.entry.source.now) }
{
    let direction = direction(reader, at)?;
    let name = reader.name(at)?;
    Ok(Port { direction, name })
}

fn direction(reader: Reader<'_>, at: &mut u32) -> Result<Direction, Stop>
    ensures { Gives (λ direction. direction) result (left reader.entry at.new) (direction_read (left reader.entry at.old)) }
{
    if reader.takes(at, Word::Input) {
        Ok(Direction::Input)
    } else if reader.takes(at, Word::Output) {
        Ok(Direction::Output)
    } else {
        Err(Stop::Refused)
    }
}

// Items, up to `endmodule`.
fn items(reader: Reader<'_>, at: &mut u32, alloc: Global) -> Result<Vec<Item>, Stop>
    ensures gives { Gives (λ items. map (item_of reader.entry.source.now reader.entry.tokens.now) items.items) result (left reader.entry at.new) (items_read [] (left reader.entry at.old)) }
    ensures lies { IfOk result (λ items. All (ItemLies reader.entry.source.now reader.entry.tokens.now) items.items) }
{
    let mut items = Vec::new(alloc);
    while !reader.takes(at, Word::Endmodule) {
        let item = item(reader, at)?;
        items.push(item)?;
    }
    Ok(items)
}

#[tactic(auto, unfolding(crate::specs::Reader::item_read))]
fn item(reader: Reader<'_>, at: &mut u32) -> Result<Item, Stop>
    ensures gives { Gives (item_of reader.entry.source.now reader.entry.tokens.now) result (left reader.entry at.new) (item_read (left reader.entry at.old)) }
    ensures lies { IfOk result (ItemLies reader.entry.source.now reader.entry.tokens.now) }
{
    if reader.takes(at, Word::Wire) {
        wire(reader, at)
    } else if reader.takes(at, Word::Reg) {
        register(reader, at)
    } else if reader.takes(at, Word::Assign) {
        assign(reader, at)
    } else if reader.takes(at, Word::Always) {
        always(reader, at)
    } else {
        Err(Stop::Refused)
    }
}

fn wire(reader: Reader<'_>, at: &mut u32) -> Result<Item, Stop>
    ensures gives { Gives (item_of reader.entry.source.now reader.entry.tokens.now) result (left reader.entry at.new) (wire_read (left reader.entry at.old)) }
    ensures lies { IfOk result (ItemLies reader.entry.source.now reader.entry.tokens.now) }
{
    let name = reader.name(at)?;
    reader.word(at, Word::Semicolon)?;
    Ok(Item::Wire { name })
}

fn register(reader: Reader<'_>, at: &mut u32) -> Result<Item, Stop>
    ensures gives { Gives (item_of reader.entry.source.now reader.entry.tokens.now) result (left reader.entry at.new) (register_read (left reader.entry at.old)) }
    ensures lies { IfOk result (ItemLies reader.entry.source.now reader.entry.tokens.now) }
{
    let name = reader.name(at)?;
    reader.word(at, Word::Equals)?;
    let initial = digit(reader, at)?;
    reader.word(at, Word::Semicolon)?;
    Ok(Item::Register { name, initial })
}

fn digit(reader: Reader<'_>, at: &mut u32) -> Result<bool, Stop>
    ensures { Gives (λ digit. digit) result (left reader.entry at.new) (digit_read (left reader.entry at.old)) }
{
    if reader.takes(at, Word::Zero) {
        Ok(false)
    } else if reader.takes(at, Word::One) {
        Ok(true)
    } else {
        Err(Stop::Refused)
    }
}

fn assign(reader: Reader<'_>, at: &mut u32) -> Result<Item, Stop>
    ensures gives { Gives (item_of reader.entry.source.now reader.entry.tokens.now) result (left reader.entry at.new) (assign_read (left reader.entry at.old)) }
    ensures lies { IfOk result (ItemLies reader.entry.source.now reader.entry.tokens.now) }
{
    let target = reader.name(at)?;
    reader.word(at, Word::Equals)?;
    let value = value(reader, at)?;
    Ok(Item::Assign { target, value })
}

fn always(reader: Reader<'_>, at: &mut u32) -> Result<Item, Stop>
    ensures gives { Gives (item_of reader.entry.source.now reader.entry.tokens.now) result (left reader.entry at.new) (always_read (left reader.entry at.old)) }
    ensures lies { IfOk result (ItemLies reader.entry.source.now reader.entry.tokens.now) }
{
    let clock = clock(reader, at)?;
    let register = reader.name(at)?;
    reader.word(at, Word::Nonblocking)?;
    let value = value(reader, at)?;
    Ok(Item::Always {
        clock,
        register,
        value,
    })
}

// `@(posedge CLOCK)`
fn clock(reader: Reader<'_>, at: &mut u32) -> Result<Token, Stop>
    ensures gives { Gives (name_of reader.entry.source.now) result (left reader.entry at.new) (clock_read (left reader.entry at.old)) }
    ensures lies { IfOk result (LiesIn reader.entry.source.now) }
{
    reader.word(at, Word::Event)?;
    reader.word(at, Word::Open)?;
    reader.word(at, Word::Posedge)?;
    let clock = reader.name(at)?;
    reader.word(at, Word::Close)?;
    Ok(clock)
}

// The tokens of a right side, up to its `;`.
#[tactic(auto, unfolding(crate::specs::Reader::value_read))]
fn value(reader: Reader<'_>, at: &mut u32) -> Result<Span, Stop>
    ensures gives { Gives (marks_in reader.entry.source.now reader.entry.tokens.now) result (left reader.entry at.new) (value_read (left reader.entry at.old)) }
    ensures lies { IfOk result (IsRange reader.entry.tokens.now) }
{
    let from = *at;
    let mut scan = Scan {
        head: Head::Operand,
        depth: 0,
    };
    while !ends(reader, *at, scan) {
        scan = reader.scan(at, scan)?;
    }
    let to = *at;
    reader.pass(at);
    Ok(Span { from, to })
}

// Whether a right side ends here.
fn ends(reader: Reader<'_>, at: u32, scan: Scan) -> bool
    ensures { result ≡ (is_next Semicolon (left reader.entry at) && may_end scan) }
{
    reader.is_next(at, Word::Semicolon) && scan.may_end()
}
