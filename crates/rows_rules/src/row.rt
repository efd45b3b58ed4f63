//! A row: a question, and the source of which it is asked.
ghost use Rattle.std.specs.Prelude.{◌≤◌, length};

use rows_text::{Page, unescaped};
use std::alloc::{AllocError, Global};
use vod_connections::first_name_fault;
use vod_counts::{Limit, first_limit};
use vod_declared::first_declaration_fault;
use vod_modules::{Modules, ModulesFault, modules_of};
use vod_names::Memory;
use vod_parse::read_source;
use vod_token::tokens;
use vod_tree::Tree;

/// The most bytes of a source.
const MOST_BYTES: usize = 1_048_576;

/// What is asked of a source.
#[derive(Clone, Copy)]
enum Question {
    Modules,
    Declared,
    Limits,
    Names,
}

fn question_of(word: &str) -> Option<Question> {
    match word {
        "modules" => Some(Question::Modules),
        "declared" => Some(Question::Declared),
        "limits" => Some(Question::Limits),
        "names" => Some(Question::Names),
        _ => None,
    }
}

/// A row with its answer; a comment and an empty row as they are.
pub fn answered(alloc: Global, row: &str) -> Result<String, AllocError> {
    let text = String::from_str(alloc, row)?;
    if row.is_empty() || row.starts_with('#') {
        return Ok(text);
    }
    let mut page = Page::new(text);
    page.put(" ->");
    answer(alloc, &mut page, row)?;
    page.finish()
}

fn answer(alloc: Global, page: &mut Page, row: &str) -> Result<(), AllocError> {
    let (word, text) = row.split_once(' ').unwrap_or((row, ""));
    let Some(question) = question_of(word) else {
        page.word("unknown row");
        return Ok(());
    };
    let source = unescaped(alloc, text.as_bytes())?;
    if source.len() > MOST_BYTES {
        page.word("longer than 1,048,576 bytes");
        return Ok(());
    }
    show_source(alloc, page, question, source.as_slice());
    Ok(())
}

fn show_source(alloc: Global, page: &mut Page, question: Question, source: &[u8])
    requires { length source.now ≤ 1048576 }
{
    let Ok(tokens) = tokens(alloc, source) else {
        return page.word("no tokens");
    };
    match read_source(alloc, source, tokens.as_slice()) {
        Ok(tree) => show(alloc, page, question, &tree),
        Err(_) => page.word("refused"),
    }
}

fn show(alloc: Global, page: &mut Page, question: Question, tree: &Tree) {
    match question {
        Question::Modules => show_modules(page, tree, &modules_of(alloc, tree)),
        Question::Declared => show_fault(page, &first_declaration_fault(alloc, tree)),
        Question::Names => show_fault(page, &first_name_fault(alloc, tree)),
        Question::Limits => show_limits(alloc, page, tree),
    }
}

fn show_fault(page: &mut Page, fault: &Result<Option<u32>, Memory>) {
    match fault {
        Ok(Some(place)) => page.placed("At", u64::from(*place)),
        Ok(None) => page.word("fine"),
        Err(memory) => page.shown(memory),
    }
}

fn show_modules(page: &mut Page, tree: &Tree, modules: &Result<Modules<'_>, ModulesFault>) {
    match modules {
        Ok(modules) => show_top(page, tree, modules.top.place),
        Err(ModulesFault::At(place)) => page.placed("At", u64::from(*place)),
        Err(ModulesFault::Memory) => page.word("there was no memory"),
    }
}

fn show_limits(alloc: Global, page: &mut Page, tree: &Tree) {
    match modules_of(alloc, tree) {
        Ok(modules) => show_limit(page, first_limit(alloc, tree, &modules)),
        Err(ModulesFault::At(place)) => page.placed("At", u64::from(place)),
        Err(ModulesFault::Memory) => page.word("there was no memory"),
    }
}

fn show_limit(page: &mut Page, limit: Result<Option<Limit>, Memory>) {
    page.word(match limit {
        Ok(Some(Limit::Modules)) => "limit Modules",
        Ok(Some(Limit::Instances)) => "limit Instances",
        Ok(Some(Limit::Signals)) => "limit Signals",
        Ok(Some(Limit::Inputs)) => "limit Inputs",
        Ok(Some(Limit::Tokens)) => "limit Tokens",
        Ok(None) => "fine",
        Err(_) => "there was no memory",
    });
}

/// The name of the module at a place.
fn show_top(page: &mut Page, tree: &Tree, place: u32) {
    page.word("top ");
    for part in tree.items.as_slice() {
        if let vod_tree::SourceItem::Module(module) = part
            && module.name.place == place
        {
            page.put_bytes(module.name.name.as_slice());
        }
    }
}
