//! Designs in which nothing is driven: each net is an input, and each register begins with 0.
ghost use Rattle.std.specs.Prelude.{◌≡◌, ◌≤◌, ◌<◌, ◌^◌, ◌++◌, true, false, All, IsTrue, length, map, IfOk, OnOk, IfSome};
ghost use Rattle.vod_bits.specs.declared.TheConstants.{WIDTH};
ghost use Rattle.vod_design.specs.Flat.{IsFlat, ParentFits};
ghost use Rattle.vod_design.specs.Netlist.{width_in};
ghost use Rattle.rows_idle.specs.Idle.{alike, if_it, numbers, input_of, clamped, initial_of, idle, SignalIsFine, ParentsFit, IsFine};

use std::alloc::{AllocError, Global};
use vod_bits::Bits;
use vod_design::{
    Assigns, Class, Design, Draft, Drivers, Initial, InitialAssign, InitialTarget, Input, Origins,
    Precision, Scope, Signal,
};

fn alike(a: bool, b: bool) -> bool
    ensures { result ≡ alike a b }
{
    if a { b } else { !b }
}

// Adds a number where a test holds.
fn add_if(test: bool, number: u32, list: &mut Vec<u32>) -> Result<(), AllocError>
    ensures { OnOk result (list.new.items ≡ list.old.items ++ if_it test number) }
{
    if test {
        list.push(number)?;
    }
    Ok(())
}

/// The numbers of the registers, or of the nets.
fn numbers(alloc: Global, signals: &[Signal], registers: bool) -> Result<Vec<u32>, AllocError>
    requires { length signals.now < 2 ^ 32 }
    ensures { IfOk result (λ v. v.items ≡ numbers registers 0 signals.now) }
{
    let mut list = Vec::new(alloc);
    for (n, signal) in signals.iter().enumerate() {
        add_if(alike(registers, signal.register), n as u32, &mut list)?;
    }
    Ok(list)
}

fn inputs(alloc: Global, nets: &[u32]) -> Result<Vec<Input>, AllocError>
    ensures { IfOk result (λ v. v.items ≡ map input_of nets.now) }
{
    let mut list = Vec::with_capacity(alloc, nets.len())?;
    for net in nets {
        list.push(Input {
            signal: *net,
            class: Class::Data,
        })?;
    }
    Ok(list)
}

/// The width of a signal.
fn width_at(signals: &[Signal], n: u32) -> u8
    ensures is { result ≡ clamped (width_in signals.now n) }
    ensures some { 1 ≤ result }
    ensures few { result ≤ WIDTH }
{
    let width = match signals.get(n as usize) {
        Some(signal) => signal.width,
        None => 0,
    };
    width.max(1).min(64)
}

fn initial(alloc: Global, signals: &[Signal], register: u32) -> Result<Initial, AllocError>
    ensures { IfOk result (λ i. i ≡ initial_of signals.now register) }
{
    let width = width_at(signals, register);
    let mut assigns = Vec::with_capacity(alloc, 1)?;
    assigns.push(InitialAssign {
        target: InitialTarget::Register(register),
        value: Bits { width, word: 0 },
    })?;
    Ok(Initial {
        assigns: Assigns::new(assigns),
    })
}

fn initials(
    alloc: Global,
    signals: &[Signal],
    registers: &[u32],
) -> Result<Vec<Initial>, AllocError>
    ensures { IfOk result (λ v. v.items ≡ map (initial_of signals.now) registers.now) }
{
    let mut list = Vec::with_capacity(alloc, registers.len())?;
    for register in registers {
        list.push(initial(alloc, signals, *register)?)?;
    }
    Ok(list)
}

fn signal_is_fine(signal: &Signal, scopes: usize) -> bool
    ensures { IsTrue result → SignalIsFine scopes signal.now }
{
    if signal.scope as usize >= scopes {
        return false;
    }
    if signal.width == 0 || signal.width > 64 {
        return false;
    }
    u32::from(signal.lsb) + u32::from(signal.width) <= 65536
}

fn signals_are_fine(signals: &[Signal], scopes: usize) -> bool
    ensures { IsTrue result → All (SignalIsFine scopes) signals.now }
{
    for signal in signals {
        if !signal_is_fine(signal, scopes) {
            return false;
        }
    }
    true
}

fn parent_fits(n: usize, scope: &Scope) -> bool
    ensures { IsTrue result → ParentFits n scope.now.parent }
{
    match scope.parent {
        None => n == 0,
        Some(parent) => (parent as usize) < n,
    }
}

fn parents_fit(scopes: &[Scope]) -> bool
    ensures { IsTrue result → ParentsFit 0 scopes.now }
{
    for (n, scope) in scopes.iter().enumerate() {
        if !parent_fits(n, scope) {
            return false;
        }
    }
    true
}

fn is_fine(signals: &[Signal], scopes: &[Scope]) -> bool
    ensures { IsTrue result → IsFine signals.now scopes.now }
{
    if scopes.is_empty() || scopes.len() > 4096 {
        return false;
    }
    if signals.len() > 16384 {
        return false;
    }
    if !signals_are_fine(signals, scopes.len()) {
        return false;
    }
    parents_fit(scopes)
}

fn origins(alloc: Global) -> Origins {
    Origins {
        signals: Vec::new(alloc),
        memories: Vec::new(alloc),
        functions: Vec::new(alloc),
        blocks: Vec::new(alloc),
        drivers: Vec::new(alloc),
    }
}

// The inputs: all nets.
fn net_inputs(alloc: Global, signals: &[Signal]) -> Result<Vec<Input>, AllocError>
    requires { length signals.now < 2 ^ 32 }
    ensures { IfOk result (λ v. v.items ≡ map input_of (numbers false 0 signals.now)) }
{
    let nets = numbers(alloc, signals, false)?;
    inputs(alloc, nets.as_slice())
}

// The initial values of all registers.
fn register_initials(alloc: Global, signals: &[Signal]) -> Result<Vec<Initial>, AllocError>
    requires { length signals.now < 2 ^ 32 }
    ensures { IfOk result (λ v. v.items ≡ map (initial_of signals.now) (numbers true 0 signals.now)) }
{
    let registers = numbers(alloc, signals, true)?;
    initials(alloc, signals, registers.as_slice())
}

fn made(
    alloc: Global,
    signals: Vec<Signal>,
    scopes: Vec<Scope>,
    inputs: Vec<Input>,
    initials: Vec<Initial>,
    precision: Precision,
) -> Design
    requires fine { IsFine signals.items scopes.items }
    requires few { length inputs.items ≤ 1024 }
    requires inputs { inputs.items ≡ map input_of (numbers false 0 signals.items) }
    requires initials { initials.items ≡ map (initial_of signals.items) (numbers true 0 signals.items) }
{
    let draft = Draft {
        signals,
        inputs,
        drivers: Vec::new(alloc),
        blocks: Vec::new(alloc),
        memories: Vec::new(alloc),
        initials,
        scopes,
        functions: Vec::new(alloc),
        precision,
        origins: origins(alloc),
    };
    Design::of(draft, Drivers::new(Vec::new(alloc)))
}

/// The design of these signals and instances, or none where they break a rule.
pub fn design(
    alloc: Global,
    signals: Vec<Signal>,
    scopes: Vec<Scope>,
    precision: Precision,
) -> Result<Option<Design>, AllocError> {
    if !is_fine(signals.as_slice(), scopes.as_slice()) {
        return Ok(None);
    }
    let inputs = net_inputs(alloc, signals.as_slice())?;
    if inputs.len() > 1024 {
        return Ok(None);
    }
    let initials = register_initials(alloc, signals.as_slice())?;
    Ok(Some(made(alloc, signals, scopes, inputs, initials, precision)))
}
