//! The registers of a module.
ghost use Rattle.std.specs.Prelude.{◌≡◌, ◌++◌, [], map, IfOk, OnOk};
ghost use Rattle.vod_names.specs.Entries.{shown};
ghost use Rattle.vod_uses.specs.Registers.{is_reg, register_after, registers_after};

use std::alloc::Global;
use vod_declared::is_repeated;
use vod_names::{Entry, Kind, Memory, Names};

/// The registers among declarations.
pub(crate) fn registers_of<'s>(alloc: Global, entries: &[Entry<'s>]) -> Result<Names<'s>, Memory>
    ensures { IfOk result (λ names. names ≡ registers_after [] (map shown entries.now)) }
{
    let mut seen: Names<'s> = Names::new(alloc);
    let mut registers: Names<'s> = Names::new(alloc);
    for entry in entries {
        add_register(&mut registers, &seen, entry)?;
        seen.add(entry.name, entry.declaration)?;
    }
    Ok(registers)
}

// Adds a declaration that makes a register.
fn add_register<'s>(
    registers: &mut Names<'s>,
    seen: &Names<'s>,
    entry: &Entry<'s>,
) -> Result<(), Memory>
    ensures { OnOk result (registers.new ≡ registers.old ++ register_after seen.now (shown entry.now)) }
{
    let repeated = is_repeated(seen.last_of(entry.name), entry.declaration);
    if is_reg(entry.declaration.kind) && !repeated {
        registers.add(entry.name, entry.declaration)?;
    }
    Ok(())
}

fn is_reg(kind: Kind) -> bool
    ensures { result ≡ is_reg kind }
{
    match kind {
        Kind::OutputReg | Kind::Reg => true,
        _ => false,
    }
}
