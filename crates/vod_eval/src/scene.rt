//! What expressions are evaluated over.
ghost use Rattle.std.specs.Prelude.{◌≡◌, map, MatchOption, Some, None, option_map};
ghost use Rattle.vod_design.specs.Values.{bounded, variable_bits, named_bits, word_or_x, word_at};
ghost use Rattle.vod_eval.specs.Scenes.{seen, callable_in, scene_values};

use crate::bits::unknown;
use crate::table::{Tables, value_at};
use vod_bits::Word;
use vod_design::{Function, Named, NamedMemory, Variable};
use vod_value::Value;

// What an expression is evaluated over: the functions, of which those before the limit may be called, and the tables. In a
// function's body no signal and no memory word has a value.
#[derive(Drop)]
pub struct Scene<'v, T> {
    pub functions: &'v [Function],
    pub limit: usize,
    pub tables: &'v T,
    pub in_function: bool,
}

// The value of a signal.
fn signal<V: Value, T: Tables<V>>(scene: &Scene<'_, T>, n: u32) -> V
    ensures { V.bits result ≡ (scene_values (seen V.fill T.values scene.now)).signal n }
{
    if scene.in_function {
        V::nothing()
    } else {
        scene.tables.signal(n)
    }
}

// The value of a variable.
fn variable<V: Value, T: Tables<V>>(scene: &Scene<'_, T>, frame: &[V], variable: Variable) -> V
    ensures { V.bits result ≡ variable_bits V.fill (scene_values (seen V.fill T.values scene.now)) (map V.bits frame.now) variable }
{
    match variable {
        Variable::Signal(n) => signal(scene, n),
        Variable::Local(n) => value_at(frame, n as usize),
    }
}

// The value of a name.
pub fn named<V: Value, T: Tables<V>>(scene: &Scene<'_, T>, frame: &[V], name: Named) -> V
    ensures { V.bits result ≡ named_bits V.fill (scene_values (seen V.fill T.values scene.now)) (map V.bits frame.now) name }
{
    match name {
        Named::Variable(x) => variable(scene, frame, x),
        Named::Constant(bits) => V::of(bits),
    }
}

// A word of a memory at a place, where there is one.
fn word_at<V: Value, T: Tables<V>>(
    scene: &Scene<'_, T>,
    memory: u32,
    place: Option<Word>,
) -> Option<V>
    ensures { option_map V.bits result ≡ word_at (scene_values (seen V.fill T.values scene.now)) memory place }
{
    let place = place?;
    if scene.in_function {
        None
    } else {
        scene.tables.word(memory, place)
    }
}

// A memory word, none of its bits there where there is no such word.
pub fn word<V: Value, T: Tables<V>>(
    scene: &Scene<'_, T>,
    memory: NamedMemory,
    place: Option<Word>,
) -> V
    ensures { V.bits result ≡ word_or_x V.fill (bounded memory.width) (word_at (scene_values (seen V.fill T.values scene.now)) memory.number place) }
{
    match word_at(scene, memory.number, place) {
        Some(value) => value,
        None => unknown(memory.width),
    }
}

// The function of a number, where it may be called.
pub fn callable<'v, T>(scene: &Scene<'v, T>, n: usize) -> Option<&'v Function>
    ensures { MatchOption result (callable_in scene.now n ≡ None) (λ f. callable_in scene.now n ≡ Some f.now) }
{
    if n < scene.limit {
        scene.functions.get(n)
    } else {
        None
    }
}
