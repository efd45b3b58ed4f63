//! The phases of a command: the bytes of a source, its design, and the vectors of a script.
ghost use Rattle.std.specs.List.Sorted.{IsStrictlyIncreasing};
ghost use Rattle.std.specs.Prelude.{◌≡◌, ◌<◌, ◌≤◌, ◌^◌, ℕ, List, [], All, Err, take, nat_lt, length, false, IsTrue, IfOk, IfErr};
ghost use Rattle.vod_io.specs.Told.{Told, Tells};
ghost use Rattle.vod_io.specs.Faults.{Rose};
ghost use Rattle.vod_thin_design.specs.Names.{HasPlainNames};
ghost use Rattle.vod_thin_design.specs.Vectors.{assigned};
ghost use Rattle.vod_thin_script.specs.Script.{IsScript, IsRefused};
ghost use Rattle.vod_program.specs.Sources.{IsSource, IsRefusedSource, IsOtherSource, IsUnrecordable};
ghost use Rattle.vod_program.specs.Phases.{fault_within, Fails};
ghost use Rattle.vod_program.specs.declared.status.Part.TheVariants as part;

use crate::status::{Fault, Part};
use std::alloc::Global;
use vod_io::{FillFault, Filled, Source, fill};
use vod_thin::{ThinFault, read_thin};
use vod_thin_design::Design;
use vod_thin_script::{History, ScriptFault, read_script};

/// The most bytes of a design and of a script.
const MOST_BYTES: usize = 1_048_576;

/// The most vectors that are recorded: with one more an image is due.
const MOST_RECORDED: usize = 4_095;

impl From<FillFault> for Fault {
    ghost use Rattle.vod_program.specs.Phases.{fill_fault};

    ghost from_gives = { λ fault given. given ≡ fill_fault fault };

    fn from(fault: FillFault) -> Fault {
        match fault {
            FillFault::Read => Fault::Read,
            FillFault::Memory => Fault::Memory,
        }
    }
}

impl From<ScriptFault> for Fault {
    ghost use Rattle.vod_program.specs.Phases.{script_fault};

    ghost from_gives = { λ fault given. given ≡ script_fault fault };

    fn from(fault: ScriptFault) -> Fault {
        match fault {
            ScriptFault::Refused { line } => Fault::NotYet(Part::Script, line),
            ScriptFault::Memory => Fault::Memory,
        }
    }
}

impl From<ThinFault> for Fault {
    ghost use Rattle.vod_program.specs.Phases.{thin_fault};

    ghost from_gives = { λ fault given. given ≡ thin_fault fault };

    fn from(fault: ThinFault) -> Fault {
        match fault {
            ThinFault::At(place) => Fault::NotYet(Part::Design, u64::from(place)),
            ThinFault::Memory => Fault::Memory,
        }
    }
}

/// A fault of a script of which no more than so many lines are read.
fn fault_within(fault: Fault, lines: u64) -> Fault
    ensures { result ≡ fault_within fault lines }
{
    match fault {
        Fault::NotYet(part, line) => Fault::NotYet(part, line.min(lines)),
        fault => fault,
    }
}

/// A source and its design.
#[derive(Drop)]
pub struct Reading {
    pub source: Vec<u8>,
    pub design: Design,
}

/// The first 1,048,576 bytes of a source, and whether there are more.
fn bytes_of<S: Source>(alloc: Global, source: &mut S) -> Result<Filled, FillFault>
    ensures few { IfOk result (λ filled. length filled.bytes.items ≤ 2 ^ 20) }
    ensures full { IfOk result (λ filled. IsTrue filled.more → length filled.bytes.items ≡ 2 ^ 20) }
    ensures front { IfOk result (λ filled. Tells (S.left source.old) (λ text. filled.bytes.items ≡ take (2 ^ 20) text)) }
    ensures more { IfOk result (λ filled. Tells (S.left source.old) (λ text. filled.more ≡ nat_lt (2 ^ 20) (length text))) }
    ensures end { IfOk result (λ filled. filled.more ≡ false → Told (S.left source.new) []) }
    ensures counted { S.faults source.old ≤ S.faults source.new }
    ensures caused { result ≡ Err FillFault.Read → Rose (S.faults source.old) (S.faults source.new) }
{
    let filled = fill(alloc, source, MOST_BYTES)?;
    Ok(filled)
}

/// The vectors of a script.
pub fn vectors_of<'d, S: Source>(
    alloc: Global,
    design: &'d Design,
    script: &mut S,
) -> Result<History<'d>, Fault>
    requires { HasPlainNames design.now }
    ensures design { IfOk result (λ past. past.design ≡ design.now) }
    ensures vectors { IfOk result (λ past. Tells (S.left script.old) (λ text. IsScript design.now text past.vectors)) }
    ensures rises { IfOk result (λ past. All (λ v. IsStrictlyIncreasing (assigned v.moves)) past.vectors) }
    ensures end { IfOk result (λ _. Told (S.left script.new) []) }
    ensures refused { IfErr result (λ fault. Fails part.Script fault (λ line. Tells (S.left script.old) (λ text. IsRefused design.now text line))) }
    ensures counted { S.faults script.old ≤ S.faults script.new }
    ensures caused { result ≡ Err Fault.Read → Rose (S.faults script.old) (S.faults script.new) }
{
    let text = bytes_of(alloc, script)?;
    if text.more {
        return Err(Fault::NotYet(Part::Script, 0));
    }
    let past = read_script(alloc, design, text.bytes.as_slice())?;
    Ok(past)
}

/// The vectors of a script that is recorded, of which there are at most 4,095.
pub fn recordable_of<'d, S: Source>(
    alloc: Global,
    design: &'d Design,
    script: &mut S,
) -> Result<History<'d>, Fault>
    requires { HasPlainNames design.now }
    ensures design { IfOk result (λ past. past.design ≡ design.now) }
    ensures vectors { IfOk result (λ past. Tells (S.left script.old) (λ text. IsScript design.now text past.vectors)) }
    ensures few { IfOk result (λ past. length past.vectors < 4096) }
    ensures rises { IfOk result (λ past. All (λ v. IsStrictlyIncreasing (assigned v.moves)) past.vectors) }
    ensures end { IfOk result (λ _. Told (S.left script.new) []) }
    ensures refused { IfErr result (λ fault. Fails part.Script fault (λ line. Tells (S.left script.old) (λ text. IsUnrecordable design.now text line))) }
    ensures counted { S.faults script.old ≤ S.faults script.new }
    ensures caused { result ≡ Err Fault.Read → Rose (S.faults script.old) (S.faults script.new) }
{
    let past = match vectors_of(alloc, design, script) {
        Ok(past) => past,
        Err(fault) => return Err(fault_within(fault, MOST_RECORDED as u64 + 1)),
    };
    if past.vectors().len() > MOST_RECORDED {
        return Err(Fault::NotYet(Part::Script, MOST_RECORDED as u64 + 1));
    }
    Ok(past)
}

/// The design of a source that a log holds. It is refused at 0.
pub fn held_design(alloc: Global, source: &[u8]) -> Result<Design, Fault>
    ensures source { IfOk result (IsSource source.now) }
    ensures plain { IfOk result HasPlainNames }
    ensures refused { IfErr result (λ fault. Fails part.Log fault (λ at. (at ≡ 0) × IsOtherSource source.now)) }
    ensures unread { result ≡ Err Fault.Read → ⊥ }
{
    if source.len() > MOST_BYTES {
        return Err(Fault::NotYet(Part::Log, 0));
    }
    match read_thin(alloc, source, false) {
        Ok(design) => Ok(design),
        Err(ThinFault::At(_)) => Err(Fault::NotYet(Part::Log, 0)),
        Err(ThinFault::Memory) => Err(Fault::Memory),
    }
}

/// The source of a design, read to its end, and its design.
pub fn reading_of<D: Source>(alloc: Global, source: &mut D) -> Result<Reading, Fault>
    ensures told { IfOk result (λ reading. Told (D.left source.old) reading.source.items) }
    ensures source { IfOk result (λ reading. IsSource reading.source.items reading.design) }
    ensures plain { IfOk result (λ reading. HasPlainNames reading.design) }
    ensures refused { IfErr result (λ fault. Fails part.Design fault (λ place. Tells (D.left source.old) (λ text. IsRefusedSource text place))) }
    ensures counted { D.faults source.old ≤ D.faults source.new }
    ensures caused { result ≡ Err Fault.Read → Rose (D.faults source.old) (D.faults source.new) }
{
    let text = bytes_of(alloc, source)?;
    let design = read_thin(alloc, text.bytes.as_slice(), text.more)?;
    Ok(Reading {
        source: text.bytes,
        design,
    })
}
