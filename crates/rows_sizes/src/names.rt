//! What names stand for. Each word of a `declare` row is a name and what it is, with `:` between the parts:
//! - `NAME:unsigned:LEAST:DIGITS` and `NAME:signed:LEAST:DIGITS`: a vector, the index of its lowest bit, and its value;
//! - `NAME:bit:DIGIT`: a net without a range, and its value;
//! - `NAME:parameter:DIGITS` and `NAME:signed_parameter:DIGITS`: a constant;
//! - `NAME:ram:LEAST:DIGITS:..`: a memory, its least index, and its words from there on;
//! - `NAME:function:WIDTH:INPUT` and `NAME:function_of_signed:WIDTH:INPUT`: a function that gives its input, the widths of its
//!   result and its input;
//! - `NAME:open_net`, `NAME:open_parameter`, `NAME:open_ram` and `NAME:open_function`: a name whose size, range or value couldn't be
//!   formed.
//!
//! Names behind `{` hide those before it, up to the next `}`, which takes them off again.
use crate::functions::{copy, inputs};
use rows_digits::{named, value, width};
use sqlite_items::Items;
use std::alloc::{AllocError, Global};
use vod_design::{Function, Named, Size, Variable};
use vod_four::Four;
use vod_width::{Callee, Declared, Decls, Vector, WordArray};

/// What a name is said to be.
#[derive(Clone, Copy)]
enum Sort {
    Vector(bool),
    Bit,
    Parameter(bool),
    Ram,
    Function(bool),
    Open(vod_width::Sort),
}

const SORTS: [(&str, Sort); 12] = [
    ("unsigned", Sort::Vector(false)),
    ("signed", Sort::Vector(true)),
    ("bit", Sort::Bit),
    ("parameter", Sort::Parameter(false)),
    ("signed_parameter", Sort::Parameter(true)),
    ("ram", Sort::Ram),
    ("function", Sort::Function(false)),
    ("function_of_signed", Sort::Function(true)),
    ("open_net", Sort::Open(vod_width::Sort::Net)),
    ("open_parameter", Sort::Open(vod_width::Sort::Constant)),
    ("open_ram", Sort::Open(vod_width::Sort::Ram)),
    ("open_function", Sort::Open(vod_width::Sort::Function)),
];

/// What the values of names are.
#[derive(Drop)]
pub struct World {
    pub functions: Items<Function>,
    pub signals: Items<Four>,
    pub rams: Items<Items<Four>>,
}

impl World {
    pub fn new(alloc: Global) -> World {
        World {
            functions: Items::new(alloc),
            signals: Items::new(alloc),
            rams: Items::new(alloc),
        }
    }
}

/// The number of the next one behind so many.
fn next(count: usize) -> u32 {
    u32::try_from(count).unwrap_or(u32::MAX)
}

/// Says what a name stands for; false where it isn't new and may not hide another.
fn add<'s>(
    decls: &mut Decls<'s>,
    name: &'s str,
    declared: Declared,
    hides: bool,
) -> Result<bool, AllocError> {
    let bytes = name.as_bytes();
    if !hides && decls.get(bytes).is_some() {
        return Ok(false);
    }
    decls.add(bytes, declared)?;
    Ok(true)
}

/// A signal with this value.
fn signal(world: &mut World, value: Four) -> Result<Named, AllocError> {
    let n = next(world.signals.len());
    world.signals.push(value)?;
    Ok(Named::Variable(Variable::Signal(n)))
}

fn vector(
    world: &mut World,
    signed: bool,
    ranged: bool,
    least: &str,
    digits: &str,
) -> Result<Option<Declared>, AllocError> {
    let (Ok(lsb), Some(value)) = (least.parse(), value(digits)) else {
        return Ok(None);
    };
    let name = signal(world, value)?;
    Ok(Some(Declared::Vector(Vector {
        name,
        width: width(value),
        signed,
        lsb,
        ranged,
    })))
}

fn parameter(signed: bool, digits: &str) -> Option<Declared> {
    let value = value(digits)?;
    Some(Declared::Vector(Vector {
        name: Named::Constant(value.known()?),
        width: width(value),
        signed,
        lsb: 0,
        ranged: true,
    }))
}

/// The values of words.
fn words(alloc: Global, digits: &[&str]) -> Result<Items<Four>, AllocError> {
    let mut words = Items::new(alloc);
    for word in digits {
        if let Some(value) = value(word) {
            words.push(value)?;
        }
    }
    Ok(words)
}

fn ram(
    alloc: Global,
    world: &mut World,
    least: &str,
    digits: &[&str],
) -> Result<Option<Declared>, AllocError> {
    let words = words(alloc, digits)?;
    let Some(first) = words.as_slice().first().copied() else {
        return Ok(None);
    };
    let Ok(low) = least.parse::<u16>() else {
        return Ok(None);
    };
    let count = u16::try_from(words.len()).unwrap_or(u16::MAX);
    let number = next(world.rams.len());
    world.rams.push(words)?;
    Ok(Some(Declared::Ram(WordArray {
        number,
        width: width(first),
        low,
        high: low.saturating_add(count.saturating_sub(1)),
    })))
}

fn function(
    alloc: Global,
    world: &mut World,
    signed: bool,
    output: &str,
    input: &str,
) -> Result<Option<Declared>, AllocError> {
    let (Ok(output), Ok(input)) = (output.parse(), input.parse()) else {
        return Ok(None);
    };
    let input = Size {
        width: input,
        signed,
    };
    let number = next(world.functions.len());
    world.functions.push(copy(alloc, output, input)?)?;
    let inputs = inputs(alloc, input)?;
    Ok(Some(Declared::Function(Callee {
        number,
        width: output,
        signed: false,
        inputs,
    })))
}

/// What a name is by the parts behind its sort.
fn sorted(
    alloc: Global,
    world: &mut World,
    sort: Sort,
    parts: &[&str],
) -> Result<Option<Declared>, AllocError> {
    match (sort, parts) {
        (Sort::Vector(signed), [least, digits]) => vector(world, signed, true, least, digits),
        (Sort::Bit, [digit]) => vector(world, false, false, "0", digit),
        (Sort::Parameter(signed), [digits]) => Ok(parameter(signed, digits)),
        (Sort::Ram, [least, digits @ ..]) => ram(alloc, world, least, digits),
        (Sort::Function(signed), [output, input]) => function(alloc, world, signed, output, input),
        (Sort::Open(sort), []) => Ok(Some(Declared::Open(sort))),
        _ => Ok(None),
    }
}

/// Declares the name of a word; false where the word isn't of the form.
fn declare<'s>(
    alloc: Global,
    world: &mut World,
    decls: &mut Decls<'s>,
    word: &'s str,
    hides: bool,
) -> Result<bool, AllocError> {
    let parts: Vec<&'s str> = word.split(':').collect(alloc)?;
    let [name, sort, rest @ ..] = parts.as_slice() else {
        return Ok(false);
    };
    let Some(sort) = named(sort, &SORTS) else {
        return Ok(false);
    };
    match sorted(alloc, world, sort, rest)? {
        Some(declared) => add(decls, name, declared, hides),
        None => Ok(false),
    }
}

/// Declares the names of a row, and answers how many there are.
pub fn declare_all<'s>(
    alloc: Global,
    world: &mut World,
    decls: &mut Decls<'s>,
    names: &'s str,
) -> Result<usize, AllocError> {
    let mut count: usize = 0;
    let mut outer: Option<usize> = None;
    for word in names.split_whitespace() {
        if word == "{" {
            outer = Some(decls.len());
        } else if word == "}" {
            decls.truncate(outer.unwrap_or(0));
            outer = None;
        } else if declare(alloc, world, decls, word, outer.is_some())? {
            count = count.saturating_add(1);
        }
    }
    Ok(count)
}
