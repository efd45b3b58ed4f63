//! Gates, read from the tokens of a source.
ghost use Rattle.std.specs.Prelude.{◌≡◌, None};
ghost use Rattle.vod_grammar.specs.Read.{first, passes};
ghost use Rattle.vod_grammar.specs.State.{left, Gives, IsOfSource};
ghost use Rattle.vod_instance.specs.Gates.{gate_word};
ghost use Rattle.vod_instance.specs.GatesForm.{gate_form, kind_form, named_terminals, starts_gate, terminals_behind};
ghost use Rattle.vod_instance.specs.WordChoice.{is_one_of, word_read};

use vod_expr::ParseFault;
use vod_grammar::{Phrase, Reader, Word, expressions, separated};
use vod_tree::{Gate, GateKind, GateTerminals, Ident};

const KINDS: [GateKind; 8] = [
    GateKind::And,
    GateKind::Nand,
    GateKind::Or,
    GateKind::Nor,
    GateKind::Xor,
    GateKind::Xnor,
    GateKind::Buf,
    GateKind::Not,
];

/// Whether a token comes next that begins gates: the word of a kind of gate, as `gates_are_exact` says (`starts`, `word`).
pub fn is_gate(reader: Reader<'_>, at: usize) -> bool
    requires { IsOfSource reader }
    ensures { result ≡ passes starts_gate (first (left reader.entry at) None) }
{
    begins_one(reader, at, &KINDS)
}

/// Gates of one kind: its word, each gate's name or none with its terminals in parentheses, and `;`. What its form reads,
/// `gates_are_exact` says: exactly the gates (`IsGate`).
pub fn gate(reader: Reader<'_>, at: &mut usize) -> Result<Gate, ParseFault>
    requires { IsOfSource reader }
    ensures { Gives result (left reader.entry at.new) (gate_form.read (left reader.entry at.old)) }
{
    let kind = gate_kind(reader, at)?;
    let gates = separated::<TerminalsPhrase>(reader, at)?;
    reader.word(at, Word::Semicolon)?;
    Ok(Gate { kind, gates })
}

// The word of a kind of gate.
#[tactic(auto, using(crate::proofs::GateWords::kind_read))]
fn gate_kind(reader: Reader<'_>, at: &mut usize) -> Result<GateKind, ParseFault>
    requires { IsOfSource reader }
    ensures { Gives result (left reader.entry at.new) (kind_form.read (left reader.entry at.old)) }
{
    first_kind(reader, at, &KINDS)
}

// Whether the word of one of these kinds comes next.
fn begins_one(reader: Reader<'_>, at: usize, kinds: &[GateKind]) -> bool
    requires { IsOfSource reader }
    ensures { result ≡ passes (is_one_of gate_word kinds.now) (first (left reader.entry at) None) }
{
    for kind in kinds {
        if reader.is_next(at, gate_word(*kind)) {
            return true;
        }
    }
    false
}

// The first of these kinds whose word comes next, as which it is read.
fn first_kind(
    reader: Reader<'_>,
    at: &mut usize,
    kinds: &[GateKind],
) -> Result<GateKind, ParseFault>
    requires { IsOfSource reader }
    ensures { Gives result (left reader.entry at.new) (word_read gate_word kinds.now (left reader.entry at.old)) }
{
    for kind in kinds {
        if let Some(_) = reader.takes(at, gate_word(*kind)) {
            return Ok(*kind);
        }
    }
    Err(reader.fault(*at))
}

fn gate_word(kind: GateKind) -> Word
    ensures { result ≡ gate_word kind }
{
    match kind {
        GateKind::And => Word::And,
        GateKind::Nand => Word::Nand,
        GateKind::Or => Word::Or,
        GateKind::Nor => Word::Nor,
        GateKind::Xor => Word::Xor,
        GateKind::Xnor => Word::Xnor,
        GateKind::Buf => Word::Buf,
        GateKind::Not => Word::Not,
    }
}

// A gate: a name or none, and its terminals.
struct TerminalsPhrase {}

impl Phrase for TerminalsPhrase {
    type Node = GateTerminals;

    ghost use Rattle.vod_instance.specs.GatesForm.{terminals_form};

    ghost reading = { terminals_form.read };

    fn read(reader: Reader<'_>, at: &mut usize) -> Result<GateTerminals, ParseFault> {
        match reader.takes(at, Word::OpenParen) {
            Some(place) => terminals_behind(reader, at, place, None),
            None => named_terminals(reader, at),
        }
    }
}

fn named_terminals(reader: Reader<'_>, at: &mut usize) -> Result<GateTerminals, ParseFault>
    requires { IsOfSource reader }
    ensures { Gives result (left reader.entry at.new) (named_terminals.read (left reader.entry at.old)) }
{
    let name = reader.name(at)?;
    reader.word(at, Word::OpenParen)?;
    let place = name.place;
    terminals_behind(reader, at, place, Some(name))
}

// Behind `(`: terminals and `)`.
fn terminals_behind(
    reader: Reader<'_>,
    at: &mut usize,
    place: u32,
    name: Option<Ident>,
) -> Result<GateTerminals, ParseFault>
    requires { IsOfSource reader }
    ensures { Gives result (left reader.entry at.new) ((terminals_behind place name).read (left reader.entry at.old)) }
{
    let terminals = expressions(reader, at)?;
    reader.word(at, Word::CloseParen)?;
    Ok(GateTerminals {
        place,
        name,
        terminals,
    })
}
