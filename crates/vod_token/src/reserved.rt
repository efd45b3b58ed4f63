//! The reserved words.

ghost use Rattle.std.specs.Prelude.{◌≡◌};
ghost use Rattle.std.specs.Ordering.{nat_cmp};
ghost use Rattle.std.specs.Cmp.Lexicographic.{slice_cmp};
ghost use Rattle.std.specs.List.Sorted.{IsBinarySearchResult, IsSearchInRange};
ghost use Rattle.std.specs.Prelude.{map, length, IsTrue};
ghost use Rattle.vod_token.specs.Word.{is_reserved, is_among, rises};

use crate::spellings;
use std::cmp::Ordering;

// The reserved words in rising order (IEEE 1364-2005, Annex B).
const RESERVED: [&str; 124] = [
    spellings::ALWAYS,
    spellings::AND,
    spellings::ASSIGN,
    spellings::AUTOMATIC,
    spellings::BEGIN,
    spellings::BUF,
    "bufif0",
    "bufif1",
    spellings::CASE,
    "casex",
    "casez",
    "cell",
    "cmos",
    "config",
    "deassign",
    spellings::DEFAULT,
    "defparam",
    "design",
    "disable",
    "edge",
    spellings::ELSE,
    spellings::END,
    spellings::ENDCASE,
    "endconfig",
    spellings::ENDFUNCTION,
    "endgenerate",
    spellings::ENDMODULE,
    "endprimitive",
    "endspecify",
    "endtable",
    "endtask",
    "event",
    spellings::FOR,
    "force",
    "forever",
    "fork",
    spellings::FUNCTION,
    "generate",
    "genvar",
    "highz0",
    "highz1",
    spellings::IF,
    "ifnone",
    "incdir",
    "include",
    spellings::INITIAL,
    "inout",
    spellings::INPUT,
    "instance",
    spellings::INTEGER,
    "join",
    "large",
    "liblist",
    "library",
    spellings::LOCALPARAM,
    "macromodule",
    "medium",
    spellings::MODULE,
    spellings::NAND,
    spellings::NEGEDGE,
    "nmos",
    spellings::NOR,
    "noshowcancelled",
    spellings::NOT,
    "notif0",
    "notif1",
    spellings::OR,
    spellings::OUTPUT,
    spellings::PARAMETER,
    "pmos",
    spellings::POSEDGE,
    "primitive",
    "pull0",
    "pull1",
    "pulldown",
    "pullup",
    "pulsestyle_ondetect",
    "pulsestyle_onevent",
    "rcmos",
    "real",
    "realtime",
    spellings::REG,
    "release",
    "repeat",
    "rnmos",
    "rpmos",
    "rtran",
    "rtranif0",
    "rtranif1",
    "scalared",
    "showcancelled",
    spellings::SIGNED,
    "small",
    "specify",
    "specparam",
    "strong0",
    "strong1",
    "supply0",
    "supply1",
    "table",
    "task",
    "time",
    "tran",
    "tranif0",
    "tranif1",
    "tri",
    "tri0",
    "tri1",
    "triand",
    "trior",
    "trireg",
    "unsigned",
    "use",
    "uwire",
    "vectored",
    "wait",
    "wand",
    "weak0",
    "weak1",
    "while",
    spellings::WIRE,
    "wor",
    spellings::XNOR,
    spellings::XOR,
];

// Whether the word is reserved.
#[tactic(auto, unfolding(crate::specs::Word::reserved_words))]
pub(crate) fn is_reserved(word: &[u8]) -> bool
    ensures { result ≡ is_reserved word.now }
{
    is_listed(&RESERVED, word)
}

// Whether the word is in a table that rises.
fn is_listed(table: &[&str], word: &[u8]) -> bool
    requires { IsTrue (rises (map (λ w. w.now) table.now)) }
    ensures { result ≡ is_among (map (λ w. w.now) table.now) word.now }
{
    search(table, word).is_ok()
}

// The place of the word in the table, or the one where it would stand, by halves.
fn search(table: &[&str], word: &[u8]) -> Result<usize, usize>
    ensures range { IsSearchInRange result (length table.now) }
    ensures answer { IsBinarySearchResult (λ w. slice_cmp nat_cmp w.now word.now) table.now result }
{
    table.binary_search_by(|entry| order(entry, word))
}

fn order(entry: &str, word: &[u8]) -> Ordering
    ensures { result ≡ slice_cmp nat_cmp entry.now word.now }
{
    entry.as_bytes().cmp(word)
}
