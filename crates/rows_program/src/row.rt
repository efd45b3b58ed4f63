use rows_text::number_at;

/// A line of the rows.
pub enum Row<'a> {
    /// A comment, or an empty line.
    Text,
    /// The source of the design.
    Design(&'a str),
    /// The script.
    Script(&'a str),
    /// The bytes that the device holds.
    Device(&'a str),
    /// A byte of the device is turned by a mask.
    Turn { place: u64, mask: u64 },
    /// The calls of an object that fail in the next call.
    Fails(Object, &'a str),
    /// The device does nothing after so many calls, in the next call.
    Crash(u64),
    /// A call with these words.
    Call(&'a str),
    /// What a crash may have left of the device behind the last call.
    Left(u64),
}

/// What a call is handed.
#[derive(Clone, Copy)]
pub enum Object {
    Design,
    Script,
    Device,
    Out,
    Err,
}

fn object_of(word: &str) -> Option<Object> {
    for (name, object) in [
        ("design", Object::Design),
        ("script", Object::Script),
        ("device", Object::Device),
        ("out", Object::Out),
        ("err", Object::Err),
    ] {
        if name == word {
            return Some(object);
        }
    }
    None
}

/// The first word of a line, and what stands behind the space.
fn split(line: &str) -> (&str, &str) {
    line.split_once(' ').unwrap_or((line, ""))
}

fn fails_of(text: &str) -> Option<Row<'_>> {
    let (word, numbers) = split(text);
    match object_of(word) {
        Some(object) => Some(Row::Fails(object, numbers)),
        None => None,
    }
}

fn turn_of(text: &str) -> Row<'_> {
    let (place, behind) = number_at(text.as_bytes());
    let (mask, _) = number_at(behind);
    Row::Turn { place, mask }
}

/// What the first word of a row names.
#[derive(Clone, Copy)]
enum Word {
    Design,
    Script,
    Device,
    Turn,
    Fails,
    Crash,
    Call,
    Left,
}

fn word_of(text: &str) -> Option<Word> {
    for (name, word) in [
        ("design", Word::Design),
        ("script", Word::Script),
        ("device", Word::Device),
        ("turn", Word::Turn),
        ("fails", Word::Fails),
        ("crash", Word::Crash),
        ("call", Word::Call),
        ("left", Word::Left),
    ] {
        if name == text {
            return Some(word);
        }
    }
    None
}

/// The row that a line is.
pub fn row_of(line: &str) -> Option<Row<'_>> {
    if line.is_empty() || line.starts_with('#') {
        return Some(Row::Text);
    }
    let (first, rest) = split(line);
    match word_of(first)? {
        Word::Design => Some(Row::Design(rest)),
        Word::Script => Some(Row::Script(rest)),
        Word::Device => Some(Row::Device(rest)),
        Word::Turn => Some(turn_of(rest)),
        Word::Fails => fails_of(rest),
        Word::Crash => Some(Row::Crash(number_at(rest.as_bytes()).0)),
        Word::Call => Some(Row::Call(rest)),
        Word::Left => Some(Row::Left(number_at(rest.as_bytes()).0)),
    }
}
