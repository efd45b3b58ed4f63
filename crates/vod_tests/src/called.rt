//! A call of a function, whose statements are made by hand.
ghost use Rattle.std.specs.Prelude.{◌≤◌, IfOk, vec_len};
ghost use Rattle.vod_eval.specs.Room.{room_of};

use sqlite_items::{Boxed, Items};
use std::alloc::{AllocError, Global};
use std::test::Fail;
use vod_bits::Bits;
use vod_design::{
    BinaryOp, Body, Function, Locals, Named, Part, PartTarget, Size, SizedExpr, SizedKind,
    Statement, Variable,
};
use vod_eval::{Lists, call_rooms, expr_room, value_of};
use vod_four::Four;

fn sized(width: u8, kind: SizedKind) -> SizedExpr {
    SizedExpr {
        place: 0,
        width,
        signed: false,
        kind,
    }
}

fn number(value: Bits) -> SizedExpr {
    sized(value.width, SizedKind::Number(value))
}

fn named(variable: Variable) -> SizedExpr {
    sized(4, SizedKind::Name(Named::Variable(variable)))
}

// The sum of the argument and 1.
fn sum(alloc: Global) -> Result<SizedExpr, AllocError> {
    let argument = Boxed::new(alloc, named(Variable::Local(0)))?;
    let one = match Boxed::new(alloc, number(Bits { width: 4, word: 1 })) {
        Ok(one) => one,
        Err(_) => return Err(AllocError),
    };
    Ok(sized(4, SizedKind::Binary(BinaryOp::Add, argument, one)))
}

// Adds the statement that gives so many bits of a target a value.
fn assign(
    alloc: Global,
    statements: &mut Items<Statement>,
    target: PartTarget,
    width: u8,
    value: SizedExpr,
) -> Result<(), AllocError> {
    let part = Part {
        place: 0,
        low: 0,
        width,
        target,
    };
    let mut parts = Items::new(alloc);
    parts.push(part)?;
    statements.push(Statement::Assign(parts, value))?;
    Ok(())
}

// `t = x + 1; f = t; f[x] = 0;`
fn assign_all(alloc: Global, statements: &mut Items<Statement>) -> Result<(), AllocError> {
    let (t, f) = (Variable::Local(1), Variable::Local(2));
    assign(alloc, statements, PartTarget::Bits(t, 0), 4, sum(alloc)?)?;
    assign(alloc, statements, PartTarget::Bits(f, 0), 4, named(t))?;
    let bit = PartTarget::Index(f, 0, named(Variable::Local(0)));
    assign(
        alloc,
        statements,
        bit,
        1,
        number(Bits { width: 1, word: 0 }),
    )
}

fn body(alloc: Global) -> Result<Body, AllocError> {
    let mut statements = Items::new(alloc);
    match assign_all(alloc, &mut statements) {
        Ok(()) => Ok(Body::new(Statement::Begin(statements))),
        Err(error) => Err(error),
    }
}

// One of four bits.
fn four_bits(alloc: Global) -> Result<Locals, AllocError> {
    let size = Size {
        width: 4,
        signed: false,
    };
    Ok(Locals::new(Vec::from_slice(alloc, &[size])?))
}

// The function f(x) of four bits, with a local t.
fn function(alloc: Global) -> Result<Function, AllocError> {
    let (inputs, locals) = (four_bits(alloc)?, four_bits(alloc)?);
    Ok(Function {
        scope: 0,
        width: 4,
        signed: false,
        inputs,
        locals,
        body: body(alloc)?,
    })
}

// Room for the value of a call.
fn room(alloc: Global, functions: &[Function], e: &SizedExpr) -> Result<Vec<Four>, AllocError>
    ensures { IfOk result (λ v. room_of functions.now e.now ≤ vec_len v) }
{
    let rooms = call_rooms(alloc, functions)?;
    let count = expr_room(&rooms, e);
    let mut room = Vec::new(alloc);
    for _ in 0..count {
        room.push(UNKNOWN)?;
    }
    Ok(room)
}

// Four unknown bits.
const UNKNOWN: Four = Four {
    width: 4,
    ones: 0,
    unks: 15,
};

// The value of a call of the function with the one signal.
fn called(alloc: Global, functions: &[Function], argument: Four) -> Result<Four, AllocError> {
    let mut arguments = Items::new(alloc);
    arguments.push(named(Variable::Signal(0)))?;
    let call = sized(4, SizedKind::Call(0, arguments));
    let mut room = match room(alloc, functions, &call) {
        Ok(room) => room,
        Err(error) => return Err(error),
    };
    let tables = Lists {
        signals: &[argument],
        memories: &[],
    };
    Ok(value_of(functions, &tables, &call, &mut room))
}

#[test]
fn a_call_runs_its_statements(rt: HostRuntime) -> Result<(), Fail> {
    let functions = [function(rt.alloc())?];
    // f(2) is 3, whose bit 2 is 0; f(1) is 2 without its bit 1; an unknown index changes nothing.
    for (argument, value) in [
        (
            Four::of(Bits { width: 4, word: 2 }),
            Four::of(Bits { width: 4, word: 3 }),
        ),
        (
            Four::of(Bits { width: 4, word: 1 }),
            Four::of(Bits { width: 4, word: 0 }),
        ),
        (UNKNOWN, UNKNOWN),
    ] {
        let given = called(rt.alloc(), &functions, argument)?;
        assert!(rt;
            given.ones == value.ones && given.unks == value.unks,
            "{}",
            value.ones
        );
    }
    Ok(())
}
