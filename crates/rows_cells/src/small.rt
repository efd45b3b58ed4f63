//! A small design, made by hand: a register that keeps its value, a net that shows it, a word of a memory that begins with 1, and a
//! function that gives what it takes.
ghost use Rattle.std.specs.Prelude.{◌≡◌, ◌∷◌, [], IfOk};
ghost use Rattle.vod_bits.specs.Bit.{bit_if};
ghost use Rattle.rows_cells.specs.Small.{signal, whole, copy, initial_of, signals, inputs, drivers, blocks, memories, initials, scopes, functions, precision, small};

use sqlite_items::Items;
use std::alloc::{AllocError, Global};
use vod_bits::Bits;
use vod_design::{
    Assigns, Block, Body, Class, Design, Draft, Driver, DriverForm, Drivers, Edge, Function,
    Initial, InitialAssign, InitialTarget, Input, Locals, Name, Named, Origins, Part, PartTarget,
    Place, Places, Precision, Ram, Scope, Signal, Size, SizedExpr, SizedKind, Statement, Unit,
    Variable,
};

/// A list of one.
fn one<T: Drop>(alloc: Global, item: T) -> Result<Vec<T>, AllocError>
    ensures { IfOk result (λ v. v.items ≡ item ∷ []) }
{
    let mut list = Vec::with_capacity(alloc, 1)?;
    list.push(item)?;
    Ok(list)
}

fn name(alloc: Global, text: &str) -> Result<Name, AllocError>
    ensures { IfOk result (λ n. n ≡ text.now) }
{
    let bytes = text.as_bytes().to_vec(alloc)?;
    Ok(Name::new(bytes))
}

fn signal(alloc: Global, text: &str, register: bool) -> Result<Signal, AllocError>
    ensures { IfOk result (λ s. s ≡ signal text.now register) }
{
    let name = name(alloc, text)?;
    Ok(Signal {
        name,
        scope: 0,
        width: 1,
        lsb: 0,
        ranged: false,
        register,
    })
}

/// The clock `clk`, the net `q` and the register `r`.
fn signals(alloc: Global) -> Result<Vec<Signal>, AllocError>
    ensures { IfOk result (λ v. v.items ≡ signals) }
{
    let mut list = Vec::with_capacity(alloc, 3)?;
    list.push(signal(alloc, "clk", false)?)?;
    list.push(signal(alloc, "q", false)?)?;
    list.push(signal(alloc, "r", true)?)?;
    Ok(list)
}

fn inputs(alloc: Global) -> Result<Vec<Input>, AllocError>
    ensures { IfOk result (λ v. v.items ≡ inputs) }
{
    one(
        alloc,
        Input {
            signal: 0,
            class: Class::Clock,
        },
    )
}

/// The whole of a variable of one bit.
fn whole(variable: Variable) -> SizedExpr
    ensures { result ≡ whole variable }
{
    SizedExpr {
        place: 0,
        width: 1,
        signed: false,
        kind: SizedKind::Name(Named::Variable(variable)),
    }
}

fn drivers(alloc: Global) -> Result<Vec<Driver>, AllocError>
    ensures { IfOk result (λ v. v.items ≡ drivers) }
{
    let bits = one(alloc, Place { signal: 1, bit: 0 })?;
    one(
        alloc,
        Driver {
            target: Places::new(bits),
            value: whole(Variable::Signal(2)),
            place: 0,
        },
    )
}

/// One variable takes the value of another.
fn copy(alloc: Global, from: Variable, to: Variable) -> Result<Body, AllocError>
    ensures { IfOk result (λ b. b ≡ copy from to) }
{
    let mut parts = Items::new(alloc);
    parts.push(Part {
        place: 0,
        low: 0,
        width: 1,
        target: PartTarget::Bits(to, 0),
    })?;
    Ok(Body::new(Statement::Assign(parts, whole(from))))
}

fn blocks(alloc: Global) -> Result<Vec<Block>, AllocError>
    ensures { IfOk result (λ v. v.items ≡ blocks) }
{
    let body = copy(alloc, Variable::Signal(2), Variable::Signal(2))?;
    one(
        alloc,
        Block {
            clock: Edge {
                signal: 0,
                rising: true,
            },
            reset: None,
            body,
        },
    )
}

fn memories(alloc: Global) -> Result<Vec<Ram>, AllocError>
    ensures { IfOk result (λ v. v.items ≡ memories) }
{
    let name = name(alloc, "m")?;
    one(
        alloc,
        Ram {
            name,
            scope: 0,
            width: 1,
            low: 0,
            words: 1,
        },
    )
}

fn initial(alloc: Global, target: InitialTarget, value: bool) -> Result<Initial, AllocError>
    ensures { IfOk result (λ i. i ≡ initial_of target (bit_if value)) }
{
    let assigns = one(
        alloc,
        InitialAssign {
            target,
            value: Bits::bit(value),
        },
    )?;
    Ok(Initial {
        assigns: Assigns::new(assigns),
    })
}

fn initials(alloc: Global) -> Result<Vec<Initial>, AllocError>
    ensures { IfOk result (λ v. v.items ≡ initials) }
{
    let mut list = Vec::with_capacity(alloc, 2)?;
    list.push(initial(alloc, InitialTarget::Register(2), false)?)?;
    list.push(initial(alloc, InitialTarget::Word(0, 0), true)?)?;
    Ok(list)
}

fn scopes(alloc: Global) -> Result<Vec<Scope>, AllocError>
    ensures { IfOk result (λ v. v.items ≡ scopes) }
{
    let name = name(alloc, "t")?;
    one(alloc, Scope { name, parent: None })
}

fn functions(alloc: Global) -> Result<Vec<Function>, AllocError>
    ensures { IfOk result (λ v. v.items ≡ functions) }
{
    let size = Size {
        width: 1,
        signed: false,
    };
    let inputs = one(alloc, size)?;
    let body = copy(alloc, Variable::Local(0), Variable::Local(1))?;
    one(
        alloc,
        Function {
            scope: 0,
            width: 1,
            signed: false,
            inputs: Locals::new(inputs),
            locals: Locals::new(Vec::new(alloc)),
            body,
        },
    )
}

/// Where its parts stand in a source.
fn origins(alloc: Global) -> Result<Origins, AllocError> {
    let signals = Vec::from_slice(alloc, &[16, 28, 35])?;
    let memories = one(alloc, 46)?;
    let functions = one(alloc, 60)?;
    let blocks = one(alloc, 80)?;
    let drivers = one(alloc, DriverForm::Assign)?;
    Ok(Origins {
        signals,
        memories,
        functions,
        blocks,
        drivers,
    })
}

/// The design as it is before it is judged.
pub fn draft(alloc: Global) -> Result<Draft, AllocError>
    ensures { IfOk result (λ d. d.netlist ≡ small) }
{
    let signals = signals(alloc)?;
    let inputs = inputs(alloc)?;
    let memories = memories(alloc)?;
    let initials = initials(alloc)?;
    let scopes = scopes(alloc)?;
    let origins = origins(alloc)?;
    let drivers = drivers(alloc)?;
    let blocks = blocks(alloc)?;
    let functions = functions(alloc)?;
    let precision = Precision {
        count: 1,
        unit: Unit::Ns,
    };
    Ok(Draft {
        signals,
        inputs,
        drivers,
        blocks,
        memories,
        initials,
        scopes,
        functions,
        precision,
        origins,
    })
}

/// The design.
pub fn design(alloc: Global) -> Result<Design, AllocError>
    ensures { IfOk result (λ d. d.netlist ≡ small) }
{
    let ranked = one(alloc, 0)?;
    let draft = draft(alloc)?;
    Ok(Design::of(draft, Drivers::new(ranked)))
}
