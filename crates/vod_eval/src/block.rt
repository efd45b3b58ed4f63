//! What the statements of a block ask: which branch is taken, and what an assignment writes where. A block stands in no function.
ghost use Rattle.std.specs.Prelude.{◌≡◌, ◌≤◌, ◌++◌, [], map, drop, length};
ghost use Rattle.vod_bits.specs.Bit.{is_1};
ghost use Rattle.vod_four.specs.Four.{truth_bit};
ghost use Rattle.vod_design.specs.Values.{bounded, select_bits};
ghost use Rattle.vod_design.specs.Run.{eval, item_taken, operand_outside, part_target};
ghost use Rattle.vod_eval.specs.Room.{room_of, items_room, parts_room, index_room};
ghost use Rattle.vod_eval.specs.Scenes.{seen, operand_in, rooms};

use crate::bits::select;
use crate::eval::{is_true, item_taken as item_in, part_index, target_of, value_of};
use crate::scene::Scene;
use crate::table::Tables;
use vod_design::{CaseItem, Function, Part, SizedExpr, Target};
use vod_value::Value;

/// Whether an `if` takes its first branch: its test is true, where one without a truth isn't (9.4).
pub fn is_taken<V: Value, T: Tables<V>>(
    functions: &[Function],
    tables: &T,
    test: &SizedExpr,
    room: &mut [V],
) -> bool
    requires { room_of functions.now test.now ≤ length room.old }
    ensures { result ≡ is_1 (truth_bit (eval V.fill functions.now (T.values tables.now) [] test.now)) }
{
    is_true(value_of(functions, tables, test, room))
}

/// The item that a `case` takes, by its number among the items: none where it takes its last branch (9.5).
#[tactic(auto, unfolding(crate::specs::Room::room_of, crate::specs::Room::items_room))]
pub fn item_taken<V: Value, T: Tables<V>>(
    functions: &[Function],
    tables: &T,
    tested: &SizedExpr,
    items: &[CaseItem],
    room: &mut [V],
) -> Option<usize>
    requires tested { room_of functions.now tested.now ≤ length room.old }
    requires items { items_room functions.now items.now ≤ length room.old }
    ensures { result ≡ item_taken (operand_outside V.fill functions.now (T.values tables.now)) tested.now items.now }
{
    let scene = Scene {
        functions,
        limit: functions.len(),
        tables,
        in_function: false,
    };
    item_in(&scene, &[], tested, items, room)
}

/// Resolves the parts of a left side: puts the place that each of them writes into the list, none where its index has a bit of x
/// or z or is below the least one. What stands behind is left as it was (5.2.1, 9.2.1).
pub fn resolve<V: Value, T: Tables<V>>(
    functions: &[Function],
    tables: &T,
    parts: &[Part],
    targets: &mut [Option<Target>],
    room: &mut [V],
)
    requires targets { length parts.now ≤ length targets.old }
    requires room { parts_room functions.now parts.now ≤ length room.old }
    ensures { targets.new ≡ map (part_target V.fill (operand_outside V.fill functions.now (T.values tables.now))) parts.now ++ drop (length parts.now) targets.old }
{
    let scene = Scene {
        functions,
        limit: functions.len(),
        tables,
        in_function: false,
    };
    for (i, part) in parts.iter().enumerate() {
        targets[i] = target_in(&scene, part, room);
    }
}

// The place that a part writes.
#[tactic(auto, unfolding(crate::specs::Scenes::index_in))]
fn target_in<V: Value, T: Tables<V>>(
    scene: &Scene<'_, T>,
    part: &Part,
    room: &mut [V],
) -> Option<Target>
    requires { index_room (rooms scene.now) part.now.target ≤ length room.old }
    ensures { result ≡ part_target V.fill (operand_in (seen V.fill T.values scene.now) []) part.now }
{
    let index = part_index(scene, &[], part, room);
    target_of(part, index)
}

/// The bits that a part of a left side takes of the value assigned (9.2.1).
pub fn part_value<V: Value>(part: &Part, value: V) -> V
    ensures { V.bits result ≡ select_bits V.fill part.now.low (bounded part.now.width) (V.bits value) }
{
    select(value, part.low, part.width)
}
