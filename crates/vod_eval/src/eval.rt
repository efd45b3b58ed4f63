//! Expressions, calls and statements.
ghost use Rattle.std.specs.Prelude.{◌≡◌, ◌+◌, ◌≤◌, map, flat_map, take, drop, length, [], ◌∷◌, ◌++◌, MatchOption, Some, None, option_map, option_and_then, slice_get, slice_set};
ghost use Rattle.vod_bits.specs.Bit.{is_1};
ghost use Rattle.vod_four.specs.Four.{truth_bit, choose_bits};
ghost use Rattle.vod_design.specs.Values.{at_size, value_at};
ghost use Rattle.vod_design.specs.Run.{eval, in_turn, entered, frame_of, first_branch, has_label, numbered, item_taken, assigned, written, target_of, replace_bits};
ghost use Rattle.vod_design.specs.Eval.{fold_inputs};
ghost use Rattle.vod_eval.specs.Pieces.{bits_of_option, lowest, gate_start, gate_table};
ghost use Rattle.vod_eval.specs.Room.{room_of, expr_room, statement_room, labels_room, most, staged};
ghost use Rattle.vod_eval.specs.Scenes.{seen, operand, with_signs, input_bits, unknown_of, run_in, index_in, part_room, rooms, calls_of, operand_in, bits_in, input_in, bits_at};

use crate::bits::{
    at_size, bit_at_place, filled, index_place, joined, repeated, replaced, select, unknown,
};
use crate::labels::case_size;
use crate::ops;
use crate::scene::{Scene, callable, named, word};
use crate::table::Tables;
use sqlite_items::at;
use vod_bits::Word;
use vod_design::{
    CaseItem, Function, GateOp, Part, PartTarget, Size, SizedExpr, SizedKind, Statement, Target,
    Variable,
};
use vod_value::Value;

/// The value of an expression, given the functions of the design and the tables of the values of its signals and memory words. Of
/// a `?:` whose test is known the branch taken is evaluated alone. The room is for the variables of the functions that are called.
#[tactic(auto, unfolding(crate::specs::Room::room_of, vod_design::specs::Run::eval))]
pub fn value_of<V: Value, T: Tables<V>>(
    functions: &[Function],
    tables: &T,
    expr: &SizedExpr,
    room: &mut [V],
) -> V
    requires { room_of functions.now expr.now ≤ length room.old }
    ensures { V.bits result ≡ eval V.fill functions.now (T.values tables.now) [] expr.now }
{
    let scene = Scene {
        functions,
        limit: functions.len(),
        tables,
        in_function: false,
    };
    value(&scene, &[], expr, room)
}

// The value of an expression at its size and sign.
#[cycle(eval)]
pub fn value<V: Value, T: Tables<V>>(
    scene: &Scene<'_, T>,
    frame: &[V],
    e: &SizedExpr,
    room: &mut [V],
) -> V
    requires { expr_room (rooms scene.now) e.now ≤ length room.old }
    ensures { V.bits result ≡ bits_in (seen V.fill T.values scene.now) (map V.bits frame.now) e.now }
{
    at_size(unsized_value(scene, frame, e, room), e.width, e.signed)
}

// The value of an expression before it takes its size: what is wider loses upper bits then.
#[cycle(eval)]
fn unsized_value<V: Value, T: Tables<V>>(
    scene: &Scene<'_, T>,
    frame: &[V],
    e: &SizedExpr,
    room: &mut [V],
) -> V
    requires { expr_room (rooms scene.now) e.now ≤ length room.old }
    ensures { at_size e.now.width e.now.signed (V.bits result) ≡ bits_in (seen V.fill T.values scene.now) (map V.bits frame.now) e.now }
{
    let (width, signed) = (e.width, e.signed);
    match &e.kind {
        SizedKind::Number(bits) => V::of(*bits),
        SizedKind::Name(name) => named(scene, frame, *name),
        SizedKind::Select(name, low, count) => select(named(scene, frame, *name), *low, *count),
        SizedKind::Index(name, least, index) => {
            let index = value(scene, frame, index.get(), room);
            bit_at_place(named(scene, frame, *name), index_place(*least, index))
        }
        SizedKind::Word(memory, place) => word(scene, *memory, Some(Word::from(*place))),
        SizedKind::WordIndex(memory, least, index) => {
            let index = value(scene, frame, index.get(), room);
            word(scene, *memory, index_place(*least, index))
        }
        SizedKind::Unary(op, a) => {
            let a = value(scene, frame, a.get(), room);
            ops::unary(*op, at_size(a, width, signed))
        }
        SizedKind::Binary(op, a, b) => {
            let a = value(scene, frame, a.get(), room);
            let b = value(scene, frame, b.get(), room);
            ops::binary(*op, at_size(a, width, signed), at_size(b, width, signed))
        }
        SizedKind::Comparison(op, a, b) => {
            let one = value(scene, frame, a.get(), room);
            let other = value(scene, frame, b.get(), room);
            ops::compared(*op, one, a.get().signed, other, b.get().signed)
        }
        SizedKind::LogicalNot(a) => value(scene, frame, a.get(), room).logic_not(),
        SizedKind::Logical(op, a, b) => {
            let a = value(scene, frame, a.get(), room);
            let b = value(scene, frame, b.get(), room);
            ops::logical(*op, a, b)
        }
        SizedKind::Reduction(op, a) => {
            let a = value(scene, frame, a.get(), room);
            ops::reduction(*op, a)
        }
        SizedKind::Shift(op, a, amount) => {
            let a = value(scene, frame, a.get(), room);
            let amount = value(scene, frame, amount.get(), room);
            ops::shifted(*op, signed, amount, at_size(a, width, signed))
        }
        SizedKind::Conditional(test, a, b) => {
            let test = value(scene, frame, test.get(), room);
            chosen(
                scene,
                frame,
                test,
                a.get(),
                b.get(),
                Size { width, signed },
                room,
            )
        }
        SizedKind::Concat(parts) => filled(concat(scene, frame, parts.as_slice(), room)),
        SizedKind::Replicate(count, a) => {
            let a = value(scene, frame, a.get(), room);
            filled(repeated(*count, a))
        }
        SizedKind::Call(n, arguments) => {
            call(scene, frame, *n as usize, arguments.as_slice(), room)
        }
        SizedKind::Gate(op, inputs) => {
            ops::gate_output(*op, folded(scene, frame, *op, inputs.as_slice(), room))
        }
    }
}

// What a `?:` gives at its size, by its test: the branch taken, or where the test isn't known what both have in common.
#[cycle(eval)]
fn chosen<V: Value, T: Tables<V>>(
    scene: &Scene<'_, T>,
    frame: &[V],
    test: V,
    a: &SizedExpr,
    b: &SizedExpr,
    size: Size,
    room: &mut [V],
) -> V
    requires a { expr_room (rooms scene.now) a.now ≤ length room.old }
    requires b { expr_room (rooms scene.now) b.now ≤ length room.old }
    ensures { V.bits result ≡ choose_bits (truth_bit (V.bits test)) (bits_at (seen V.fill T.values scene.now) (map V.bits frame.now) size a.now) (bits_at (seen V.fill T.values scene.now) (map V.bits frame.now) size b.now) }
{
    match test.truth() {
        Some(true) => at_size(value(scene, frame, a, room), size.width, size.signed),
        Some(false) => at_size(value(scene, frame, b, room), size.width, size.signed),
        None => {
            let a = value(scene, frame, a, room);
            let b = value(scene, frame, b, room);
            test.choose(
                at_size(a, size.width, size.signed),
                at_size(b, size.width, size.signed),
            )
        }
    }
}

// The parts of a concatenation one behind the other.
#[cycle(eval)]
fn concat<V: Value, T: Tables<V>>(
    scene: &Scene<'_, T>,
    frame: &[V],
    parts: &[SizedExpr],
    room: &mut [V],
) -> Option<V>
    requires { most (map (expr_room (rooms scene.now)) parts.now) ≤ length room.old }
    ensures { bits_of_option (option_map V.bits result) ≡ lowest (flat_map (bits_in (seen V.fill T.values scene.now) (map V.bits frame.now)) parts.now) }
{
    let mut bits = None;
    for part in parts {
        bits = Some(joined(bits, value(scene, frame, part, room)));
    }
    bits
}

// The table of a gate folded over its inputs, of one bit each.
#[cycle(eval)]
fn folded<V: Value, T: Tables<V>>(
    scene: &Scene<'_, T>,
    frame: &[V],
    op: GateOp,
    inputs: &[SizedExpr],
    room: &mut [V],
) -> V
    requires { most (map (expr_room (rooms scene.now)) inputs.now) ≤ length room.old }
    ensures { V.bits result ≡ fold_inputs (gate_table op) (gate_start V.fill op) (flat_map (input_in (seen V.fill T.values scene.now) (map V.bits frame.now)) inputs.now) ∷ [] }
{
    let mut so_far = ops::gate_start(op);
    for input in inputs {
        let input = value(scene, frame, input, room);
        so_far = ops::gate_table(op, so_far, at_size(input, 1, false));
    }
    so_far
}

// The value of a call of the function of a number.
#[cycle(eval)]
fn call<V: Value, T: Tables<V>>(
    scene: &Scene<'_, T>,
    frame: &[V],
    n: usize,
    arguments: &[SizedExpr],
    room: &mut [V],
) -> V
    requires arguments { staged (map (expr_room (rooms scene.now)) arguments.now) ≤ length room.old }
    requires function { rooms scene.now n ≤ length room.old }
    ensures { V.bits result ≡ calls_of (seen V.fill T.values scene.now) n (map (operand_in (seen V.fill T.values scene.now) (map V.bits frame.now)) arguments.now) }
{
    let Some(function) = callable(scene, n) else {
        return V::nothing();
    };
    values(scene, frame, arguments, room);
    enter(function, arguments, room);
    let result = function.inputs.as_slice().len() + function.locals.as_slice().len();
    let (variables, rest) = room.split_at_mut(result + 1);
    let inner = Scene {
        functions: scene.functions,
        limit: n,
        tables: scene.tables,
        in_function: true,
    };
    run(&inner, function.body.statement(), variables, rest);
    variables[result]
}

// Puts the values of expressions into the front of the room.
#[cycle(eval)]
fn values<V: Value, T: Tables<V>>(
    scene: &Scene<'_, T>,
    frame: &[V],
    exprs: &[SizedExpr],
    room: &mut [V],
)
    requires { staged (map (expr_room (rooms scene.now)) exprs.now) ≤ length room.old }
    ensures { take (length exprs.now) (map V.bits room.new) ≡ map (bits_in (seen V.fill T.values scene.now) (map V.bits frame.now)) exprs.now }
{
    for (i, expr) in exprs.iter().enumerate() {
        room[i] = value(scene, frame, expr, &mut room[i..]);
    }
}

// Makes of the values of a call's arguments the function's variables as it is entered.
fn enter<V: Value>(function: &Function, arguments: &[SizedExpr], room: &mut [V])
    requires arguments { length arguments.now ≤ length room.old }
    requires variables { length function.now.inputs + length function.now.locals + 1 ≤ length room.old }
    ensures { take (length function.now.inputs + length function.now.locals + 1) (map V.bits room.new) ≡ frame_of V.fill function.now (with_signs (take (length arguments.now) (map V.bits room.old)) arguments.now) }
{
    let inputs = function.inputs.as_slice();
    let locals = function.locals.as_slice();
    take_arguments(inputs, arguments, room);
    clear(locals, &mut room[inputs.len()..]);
    room[inputs.len() + locals.len()] = unknown(function.width);
}

// Assigns the values of arguments to inputs.
fn take_arguments<V: Value>(inputs: &[Size], arguments: &[SizedExpr], room: &mut [V])
    requires arguments { length arguments.now ≤ length room.old }
    requires inputs { length inputs.now ≤ length room.old }
    ensures { map V.bits room.new ≡ entered V.fill inputs.now (with_signs (take (length arguments.now) (map V.bits room.old)) arguments.now) ++ drop (length inputs.now) (map V.bits room.old) }
{
    for (i, input) in inputs.iter().enumerate() {
        room[i] = input_value(input, room[i], at(arguments, i));
    }
}

// The value of an input, given the value of its argument.
fn input_value<V: Value>(input: &Size, value: V, argument: Option<&SizedExpr>) -> V
    ensures { V.bits result ≡ input_bits V.fill input.now (option_map (λ e. operand (V.bits value) e.now.signed) argument.entry) }
{
    match argument {
        Some(argument) => at_size(value, input.width, argument.signed),
        None => unknown(input.width),
    }
}

// Starts locals at x.
fn clear<V: Value>(locals: &[Size], variables: &mut [V])
    requires { length locals.now ≤ length variables.old }
    ensures { map V.bits variables.new ≡ map (unknown_of V.fill) locals.now ++ drop (length locals.now) (map V.bits variables.old) }
{
    for (i, local) in locals.iter().enumerate() {
        variables[i] = unknown(local.width);
    }
}

// Runs a statement of a function over its variables.
#[cycle(eval)]
fn run<V: Value, T: Tables<V>>(
    scene: &Scene<'_, T>,
    statement: &Statement,
    frame: &mut [V],
    room: &mut [V],
)
    requires { statement_room (rooms scene.now) statement.now ≤ length room.old }
    ensures { map V.bits frame.new ≡ run_in (seen V.fill T.values scene.now) statement.now (map V.bits frame.old) }
{
    match statement {
        Statement::Assign(parts, right) => {
            let right = value(scene, frame, right, room);
            indices(scene, frame, parts.as_slice(), room);
            assign(parts.as_slice(), right, frame, room);
        }
        Statement::If(test, taken, other) => {
            let test = value(scene, frame, test, room);
            if is_true(test) {
                run(scene, taken.get(), frame, room);
            } else {
                run(scene, other.get(), frame, room);
            }
        }
        Statement::Case(tested, items, otherwise) => {
            let items = items.as_slice();
            let taken = item_taken(scene, frame, tested, items, room);
            match item_at(items, taken) {
                Some(item) => run(scene, &item.body, frame, room),
                None => run(scene, otherwise.get(), frame, room),
            }
        }
        Statement::Begin(statements) => run_all(scene, statements.as_slice(), frame, room),
        Statement::Empty => {}
    }
}

// Runs statements one after the other.
#[cycle(eval)]
fn run_all<V: Value, T: Tables<V>>(
    scene: &Scene<'_, T>,
    statements: &[Statement],
    frame: &mut [V],
    room: &mut [V],
)
    requires { most (map (statement_room (rooms scene.now)) statements.now) ≤ length room.old }
    ensures { map V.bits frame.new ≡ in_turn (map (run_in (seen V.fill T.values scene.now)) statements.now) (map V.bits frame.old) }
{
    for statement in statements {
        run(scene, statement, frame, room);
    }
}

// Whether a value counts as true.
pub fn is_true<V: Value>(value: V) -> bool
    ensures { result ≡ is_1 (truth_bit (V.bits value)) }
{
    match value.truth() {
        Some(truth) => truth,
        None => false,
    }
}

// The item that a `case` takes, by its number: none where that is the last branch.
#[cycle(eval)]
pub fn item_taken<V: Value, T: Tables<V>>(
    scene: &Scene<'_, T>,
    frame: &[V],
    tested: &SizedExpr,
    items: &[CaseItem],
    room: &mut [V],
) -> Option<usize>
    requires tested { expr_room (rooms scene.now) tested.now ≤ length room.old }
    requires items { most (map (labels_room (rooms scene.now)) items.now) ≤ length room.old }
    ensures { result ≡ item_taken (operand_in (seen V.fill T.values scene.now) (map V.bits frame.now)) tested.now items.now }
{
    let size = case_size(tested, items);
    let tested = value(scene, frame, tested, room);
    first_item(scene, size, tested, items, frame, room)
}

// The first item with a label that is equal to the value at the size of the `case`, by its number.
#[cycle(eval)]
fn first_item<V: Value, T: Tables<V>>(
    scene: &Scene<'_, T>,
    size: Size,
    tested: V,
    items: &[CaseItem],
    frame: &[V],
    room: &mut [V],
) -> Option<usize>
    requires { most (map (labels_room (rooms scene.now)) items.now) ≤ length room.old }
    ensures { result ≡ first_branch (bits_at (seen V.fill T.values scene.now) (map V.bits frame.now) size) (at_size size.width size.signed (V.bits tested)) (numbered 0 items.now) None }
{
    for (i, item) in items.iter().enumerate() {
        if has_label(scene, size, tested, item.labels.as_slice(), frame, room) {
            return Some(i);
        }
    }
    None
}

// The item of a number, where there is one.
fn item_at(items: &[CaseItem], number: Option<usize>) -> Option<&CaseItem>
    ensures { MatchOption result (option_and_then (slice_get items.now) number ≡ None) (λ item. option_and_then (slice_get items.now) number ≡ Some item.now) }
{
    match number {
        Some(n) => items.get(n),
        None => None,
    }
}

// Whether a label is equal to the value at a size, x and z included.
#[cycle(eval)]
fn has_label<V: Value, T: Tables<V>>(
    scene: &Scene<'_, T>,
    size: Size,
    tested: V,
    labels: &[SizedExpr],
    frame: &[V],
    room: &mut [V],
) -> bool
    requires { most (map (expr_room (rooms scene.now)) labels.now) ≤ length room.old }
    ensures { result ≡ has_label (bits_at (seen V.fill T.values scene.now) (map V.bits frame.now) size) (at_size size.width size.signed (V.bits tested)) labels.now }
{
    for label in labels {
        let other = value(scene, frame, label, room);
        if ops::is_identical(size, tested, other) {
            return true;
        }
    }
    false
}

// Puts the indices of the parts of a left side into the front of the room.
#[cycle(eval)]
fn indices<V: Value, T: Tables<V>>(
    scene: &Scene<'_, T>,
    frame: &[V],
    parts: &[Part],
    room: &mut [V],
)
    requires { staged (map (part_room scene.now) parts.now) ≤ length room.old }
    ensures { take (length parts.now) (map V.bits room.new) ≡ map (index_in (seen V.fill T.values scene.now) (map V.bits frame.now)) parts.now }
{
    for (i, part) in parts.iter().enumerate() {
        room[i] = part_index(scene, frame, part, &mut room[i..]);
    }
}

// The index of a part of a left side, x where it has none.
#[cycle(eval)]
pub fn part_index<V: Value, T: Tables<V>>(
    scene: &Scene<'_, T>,
    frame: &[V],
    part: &Part,
    room: &mut [V],
) -> V
    requires { part_room scene.now part.now ≤ length room.old }
    ensures { V.bits result ≡ index_in (seen V.fill T.values scene.now) (map V.bits frame.now) part.now }
{
    match &part.target {
        PartTarget::Bits(_, _) => V::nothing(),
        PartTarget::Index(_, _, index) => value(scene, frame, index, room),
        PartTarget::Word(_, _, index) => value(scene, frame, index, room),
    }
}

// Writes a value to the parts of a left side, from the left, whose indices have these values.
fn assign<V: Value>(parts: &[Part], value: V, frame: &mut [V], indices: &[V])
    requires { length parts.now ≤ length indices.now }
    ensures { map V.bits frame.new ≡ assigned V.fill parts.now (map V.bits indices.now) (V.bits value) (map V.bits frame.old) }
{
    for (i, part) in parts.iter().enumerate() {
        let bits = select(value, part.low, part.width);
        write(target_of(part, indices[i]), bits, frame);
    }
}

// The place that a part writes, where its index has this value.
pub fn target_of<V: Value>(part: &Part, index: V) -> Option<Target>
    ensures { result ≡ target_of part.now.target (V.bits index) }
{
    match &part.target {
        PartTarget::Bits(variable, low) => Some(Target::Bits(*variable, Word::from(*low))),
        PartTarget::Index(variable, least, _) => {
            Some(Target::Bits(*variable, index_place(*least, index)?))
        }
        PartTarget::Word(memory, least, _) => {
            Some(Target::Word(*memory, index_place(*least, index)?))
        }
    }
}

// Writes bits to a place, where there is one: a function has no places but those of its own variables.
fn write<V: Value>(target: Option<Target>, bits: V, frame: &mut [V])
    ensures { map V.bits frame.new ≡ written V.fill target (V.bits bits) (map V.bits frame.old) }
{
    if let Some(Target::Bits(Variable::Local(n), low)) = target {
        replace(frame, n as usize, low, bits);
    }
}

// Replaces bits of a value of the frame from a place up.
#[tactic(auto, using(std::proofs::lemmas::List::set_past))]
fn replace<V: Value>(frame: &mut [V], n: usize, low: Word, bits: V)
    ensures { map V.bits frame.new ≡ slice_set (map V.bits frame.old) n (replace_bits low (V.bits bits) (value_at V.fill (map V.bits frame.old) n)) }
{
    if n < frame.len() {
        frame[n] = replaced(frame[n], low, bits);
    }
}
