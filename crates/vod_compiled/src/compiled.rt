//! Compiled expressions.
ghost use Rattle.std.specs.Prelude.{◌≡◌, ◌≤◌, [], length, IfOk};
ghost use Rattle.vod_design.specs.Run.{eval};
ghost use Rattle.vod_eval.specs.Room.{saturated, room_in};
ghost use Rattle.vod_compiled.specs.Code.{room, room_by};

use crate::compile::{emit, expr_input};
use crate::exec::run;
use crate::flat::{cells_of, is_flat};
use crate::operand::input;
use crate::step::{Input, Step};
use std::alloc::{AllocError, Global};
use std::marker::Model;
use vod_design::{Function, SizedExpr};
use vod_eval::{Tables, expr_room, value_of};
use vod_value::Value;

/// An expression in the form in which it is evaluated, which contracts see as the expression. One that calls a function is
/// evaluated as the tree that it is.
#[derive(Drop)]
pub struct Compiled<'d> {
    expr: &'d SizedExpr,
    flat: bool,
    value: Input,
    steps: Vec<Step>,
}

impl<'d> Model for Compiled<'d> {
    ghost use Rattle.vod_design.specs.declared.sized.SizedExpr.{SizedExpr};

    ghost Value = { SizedExpr };

    ghost use Rattle.vod_design.specs.contracts.sized.SizedExpr as exprs;
    ghost use Rattle.std.specs.Coded.{codes};

    ghost coded = { Prim.hlevel (codes, exprs.the_row.coded) };

    ghost use Rattle.std.specs.Prelude.{◌≡◌};
    ghost use Rattle.vod_compiled.specs.Code.{coded as code, steps_of, is_flat};

    ghost view = { λ c. c.expr.now };

    ghost invariant = { λ c. (c.flat ≡ is_flat c.expr.now) × (c.value ≡ (code c.expr.now).input 0) × (c.steps.items ≡ steps_of c.expr.now) };
}

impl<'d> Compiled<'d> {
    /// An expression, compiled; its value may take at most `usize::MAX` cells.
    pub fn of(alloc: Global, expr: &'d SizedExpr) -> Result<Compiled<'d>, AllocError>
        ensures { IfOk result (λ c. c ≡ expr.now) }
    {
        let mut steps = Vec::new(alloc);
        emit(&mut steps, expr, 0)?;
        steps.reverse();
        Ok(Compiled {
            expr,
            flat: is_flat(expr),
            value: expr_input(expr, 0),
            steps,
        })
    }

    /// How many cells the value takes, given the room that calls of the functions take (`vod_eval::call_rooms`): that, or
    /// `usize::MAX` where it is more.
    pub fn room(&self, rooms: &[usize]) -> usize
        ensures { result ≡ saturated (room_by (room_in rooms.now) self.now) }
    {
        if self.flat {
            cells_of(self.expr)
        } else {
            expr_room(rooms, self.expr)
        }
    }

    /// The value, given the functions of the design and the tables of the values of its signals and memory words. The cells are
    /// for what it takes on the way.
    #[tactic(auto, unfolding(vod_eval::specs::Room::room_of))]
    pub fn value<V: Value, T: Tables<V>>(
        &self,
        functions: &[Function],
        tables: &T,
        cells: &mut [V],
    ) -> V
        requires { room functions.now self.now ≤ length cells.old }
        ensures { V.bits result ≡ eval V.fill functions.now (T.values tables.now) [] self.now }
    {
        if self.flat {
            run(tables, &self.steps, cells);
            input(tables, cells, &self.value)
        } else {
            value_of(functions, tables, self.expr, cells)
        }
    }
}
