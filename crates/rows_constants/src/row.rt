//! A row: what parameters are set to, and a source.
ghost use Rattle.std.specs.Prelude.{◌≤◌, length};

use crate::declared::show_module;
use rows_text::{Page, unescaped};
use std::alloc::{AllocError, Global};
use vod_bits::Bits;
use vod_constants::Given;
use vod_parse::read_source;
use vod_token::tokens;
use vod_tree::SourceItem;
use vod_width::types::Constant;

/// The most bytes of a source.
const MOST_BYTES: usize = 1_048_576;

/// A row with its answer; a comment and an empty row as they are.
pub fn answered(alloc: Global, row: &str) -> Result<String, AllocError> {
    let text = String::from_str(alloc, row)?;
    if row.is_empty() || row.starts_with('#') {
        return Ok(text);
    }
    let mut page = Page::new(text);
    page.put(" ->");
    answer(alloc, &mut page, row)?;
    page.finish()
}

fn answer(alloc: Global, page: &mut Page, row: &str) -> Result<(), AllocError> {
    let (word, text) = row.split_once(' ').unwrap_or((row, ""));
    let Some(given) = given_of(word) else {
        page.word("unknown row");
        return Ok(());
    };
    let source = unescaped(alloc, text.as_bytes())?;
    if source.len() > MOST_BYTES {
        page.word("longer than 1,048,576 bytes");
        return Ok(());
    }
    show_source(alloc, page, &given, source.as_slice())
}

/// What a word sets parameters to: `own` nothing, `open` a value that couldn't be formed, `u:200` and `s:200` that number in 8 bits.
fn given_of(word: &str) -> Option<Given> {
    match word {
        "own" => Some(Given::Default),
        "open" => Some(Given::Open),
        _ => {
            let (sign, digits) = word.split_once(':')?;
            let word = digits.parse::<u8>().ok()?;
            let value = Bits {
                width: 8,
                word: u64::from(word),
            };
            Some(Given::Value(Constant {
                value,
                signed: sign == "s",
            }))
        }
    }
}

fn show_source(
    alloc: Global,
    page: &mut Page,
    given: &Given,
    source: &[u8],
) -> Result<(), AllocError>
    requires { length source.now ≤ 1048576 }
{
    let Ok(tokens) = tokens(alloc, source) else {
        page.word("no tokens");
        return Ok(());
    };
    let Ok(tree) = read_source(alloc, source, tokens.as_slice()) else {
        page.word("refused");
        return Ok(());
    };
    for part in tree.items.as_slice() {
        if let SourceItem::Module(module) = part {
            show_module(alloc, page, given, module)?;
        }
    }
    Ok(())
}
