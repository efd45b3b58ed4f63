//! The parts of a design as lines.

use std::io::{self, ErrorKind};
use vod_design::{
    Block, Class, Design, Driver, Edge, Function, Image, Initial, InitialTarget, Input, Memory,
    Named, PartTarget, Ram, Scope, Signal, SizedExpr, SizedKind, Statement, Unit, Variable,
};

/// Prints the bytes of a name.
fn name(rt: &impl Print, bytes: &[u8]) -> io::Result<()> {
    for byte in bytes {
        print!(rt; "{}", char::from(*byte))?;
    }
    Ok(())
}

fn signal(rt: &impl Print, signal: &Signal) -> io::Result<()> {
    rt.print("signal ")?;
    name(rt, signal.name.as_slice())?;
    println!(rt;
        " scope {} width {} lsb {} ranged {} register {}",
        signal.scope, signal.width, signal.lsb, signal.ranged, signal.register
    )
}

fn class(class: Class) -> &'static str {
    match class {
        Class::Clock => "clock",
        Class::Reset => "reset",
        Class::Data => "data",
    }
}

fn input(rt: &impl Print, input: &Input) -> io::Result<()> {
    println!(rt; "input {} {}", input.signal, class(input.class))
}

fn variable(rt: &impl Print, variable: Variable) -> io::Result<()> {
    match variable {
        Variable::Signal(n) => print!(rt; " signal {n}"),
        Variable::Local(n) => print!(rt; " local {n}"),
    }
}

/// Prints an expression that is a name.
fn expr(rt: &impl Print, e: &SizedExpr) -> io::Result<()> {
    match &e.kind {
        SizedKind::Name(Named::Variable(x)) => variable(rt, *x),
        _ => rt.print(" no variable"),
    }
}

/// Prints a statement that is an assignment to whole variables.
fn body(rt: &impl Print, statement: &Statement) -> io::Result<()> {
    let Statement::Assign(parts, right) = statement else {
        return rt.println(" no assignment");
    };
    for part in parts.as_slice() {
        match &part.target {
            PartTarget::Bits(x, low) => {
                variable(rt, *x)?;
                print!(rt; "[{low}+{}]", part.width)?;
            }
            _ => rt.print(" no variable")?,
        }
    }
    rt.print(" takes")?;
    expr(rt, right)?;
    rt.println("")
}

fn driver(rt: &impl Print, driver: &Driver) -> io::Result<()> {
    rt.print("driver")?;
    for place in driver.target.as_slice() {
        print!(rt; " {}[{}]", place.signal, place.bit)?;
    }
    rt.print(" takes")?;
    expr(rt, &driver.value)?;
    println!(rt; " width {} place {}", driver.value.width, driver.place)
}

fn edge(edge: Edge) -> &'static str {
    if edge.rising { "rising" } else { "falling" }
}

fn block(rt: &impl Print, block: &Block) -> io::Result<()> {
    print!(rt; "block {} {}", block.clock.signal, edge(block.clock))?;
    match block.reset {
        None => rt.print(" without reset:")?,
        Some(reset) => print!(rt; " reset {} {}:", reset.signal, edge(reset))?,
    }
    body(rt, block.body.statement())
}

fn memory(rt: &impl Print, memory: &Ram) -> io::Result<()> {
    rt.print("memory ")?;
    name(rt, memory.name.as_slice())?;
    println!(rt;
        " scope {} width {} low {} words {}",
        memory.scope, memory.width, memory.low, memory.words
    )
}

fn initial(rt: &impl Print, initial: &Initial) -> io::Result<()> {
    rt.print("initial")?;
    for assign in initial.assigns.as_slice() {
        match assign.target {
            InitialTarget::Register(signal) => print!(rt; " register {signal}")?,
            InitialTarget::Word(memory, place) => print!(rt; " word {memory} {place}")?,
        }
        print!(rt; " {}", assign.value.number())?;
    }
    rt.println("")
}

fn scope(rt: &impl Print, scope: &Scope) -> io::Result<()> {
    rt.print("scope ")?;
    name(rt, scope.name.as_slice())?;
    match scope.parent {
        None => rt.println(" at the top"),
        Some(parent) => println!(rt; " in {parent}"),
    }
}

fn function(rt: &impl Print, function: &Function) -> io::Result<()> {
    print!(rt;
        "function scope {} width {} signed {} inputs {} locals {}:",
        function.scope,
        function.width,
        function.signed,
        function.inputs.as_slice().len(),
        function.locals.as_slice().len()
    )?;
    body(rt, function.body.statement())
}

fn unit(unit: Unit) -> &'static str {
    match unit {
        Unit::S => "s",
        Unit::Ms => "ms",
        Unit::Us => "us",
        Unit::Ns => "ns",
        Unit::Ps => "ps",
        Unit::Fs => "fs",
    }
}

/// Prints numbers behind a word.
fn numbers(rt: &impl Print, word: &str, list: &[u64]) -> io::Result<()> {
    rt.print(word)?;
    for number in list {
        print!(rt; " {number}")?;
    }
    rt.println("")
}

/// Prints the ranks of drivers.
fn ranks(rt: &impl Print, word: &str, list: &[u32]) -> io::Result<()> {
    rt.print(word)?;
    for number in list {
        print!(rt; " {number}")?;
    }
    rt.println("")
}

fn image(rt: &impl Print, design: &Design, image: &Image) -> io::Result<()> {
    numbers(rt, "registers", image.regs.as_slice())?;
    numbers(rt, "words", image.words.as_slice())?;
    numbers(rt, "given", image.given.as_slice())?;
    rt.print("edges")?;
    for value in image.edges.as_slice() {
        print!(rt; " {value}")?;
    }
    println!(rt; " fits {}", image.fit(design))
}

/// Prints the parts of a state.
fn parts(rt: &impl Print, design: &Design) -> io::Result<()> {
    for part in design.signals() {
        signal(rt, part)?;
    }
    for part in design.inputs() {
        input(rt, part)?;
    }
    for part in design.memories() {
        memory(rt, part)?;
    }
    for part in design.scopes() {
        scope(rt, part)?;
    }
    Ok(())
}

/// Prints the parts that do something.
fn acts(rt: &impl Print, design: &Design) -> io::Result<()> {
    for part in design.drivers() {
        driver(rt, part)?;
    }
    for part in design.blocks() {
        block(rt, part)?;
    }
    for part in design.initials() {
        initial(rt, part)?;
    }
    for part in design.functions() {
        function(rt, part)?;
    }
    let precision = design.precision();
    println!(rt; "precision {} {}", precision.count, unit(precision.unit))
}

/// Prints a design, the order of its drivers, and images of it.
pub fn design(rt: &(impl Print + AllocGlobal), design: &Design) -> io::Result<()> {
    parts(rt, design)?;
    acts(rt, design)?;
    ranks(rt, "ranked", design.ranked())?;
    let places = design.ranks(rt.alloc())?;
    ranks(rt, "ranks", places.as_slice())?;
    match Image::blank(rt.alloc(), design) {
        Ok(blank) => image(rt, design, &blank),
        Err(Memory) => Err(ErrorKind::OutOfMemory.into()),
    }
}
