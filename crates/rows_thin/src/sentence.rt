//! Sentences: the module's name, its ports (`<` an input, `>` an output) and its items, by their tokens.
ghost use Rattle.std.specs.Prelude.{◌≤◌, ◌^◌, length};

use rows_text::Page;
use std::alloc::Global;
use vod_thin_syntax::{Direction, Item, Module, Port, Sentence, Span, SyntaxFault, read_sentence};
use vod_token::Token;

/// The sentence of a source, and its first place past a limit.
pub fn show_sentence(alloc: Global, page: &mut Page, source: &[u8])
    requires { length source.now ≤ 2 ^ 20 }
{
    match &read_sentence(alloc, source, false) {
        Ok(sentence) => show_parts(page, source, sentence),
        Err(SyntaxFault::At(place)) => page.placed("At", u64::from(*place)),
        Err(SyntaxFault::Memory) => page.word("Memory"),
    }
}

fn show_parts(page: &mut Page, source: &[u8], sentence: &Sentence) {
    show_module(page, source, sentence.tokens.as_slice(), &sentence.module);
    if let Some(place) = sentence.limit {
        page.placed("past a limit at", u64::from(place));
    }
}

fn show_module(page: &mut Page, source: &[u8], tokens: &[Token], module: &Module) {
    page.put(" ");
    show_text(page, source, module.name);
    for port in &module.ports {
        show_port(page, source, *port);
    }
    for item in &module.items {
        page.put(" ");
        show_item(page, source, tokens, *item);
    }
}

/// The spelling of a token.
fn show_text(page: &mut Page, source: &[u8], token: Token) {
    match source.get(token.start as usize..token.end as usize) {
        Some(bytes) => page.put_bytes(bytes),
        None => page.put("?"),
    }
}

fn show_port(page: &mut Page, source: &[u8], port: Port) {
    match port.direction {
        Direction::Input => page.put(" <"),
        Direction::Output => page.put(" >"),
    }
    show_text(page, source, port.name);
}

fn show_item(page: &mut Page, source: &[u8], tokens: &[Token], item: Item) {
    match item {
        Item::Wire { name } => show_text(page, source, name),
        Item::Register { name, initial } => {
            show_text(page, source, name);
            page.put(if initial { "=1" } else { "=0" });
        }
        Item::Assign { target, value } => {
            show_text(page, source, target);
            page.put("=");
            show_range(page, source, tokens, value);
        }
        Item::Always {
            clock,
            register,
            value,
        } => {
            show_text(page, source, clock);
            page.put(":");
            show_text(page, source, register);
            page.put("=");
            show_range(page, source, tokens, value);
        }
    }
}

/// The tokens of a range, one behind the other.
fn show_range(page: &mut Page, source: &[u8], tokens: &[Token], span: Span) {
    for (number, token) in tokens.iter().enumerate() {
        if span.from as usize <= number && number < span.to as usize {
            show_text(page, source, *token);
        }
    }
}
