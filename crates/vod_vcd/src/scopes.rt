// The scopes of a header, one after another: each with its variables, and behind them the scopes of its children
// (IEEE 1364-2005, 18.2.3). Steps that are left are kept in a list, so no call stands in another for a scope within a scope.
ghost use Rattle.std.specs.Prelude.{◌≡◌, ◌<◌, ◌≤◌, ◌++◌, [], ◌∷◌, length, All, AllPairs, IfOk, OnOk, vec_len, slice_index_or};
ghost use Rattle.std.specs.List.{enumerate_from, flat_map};
ghost use Rattle.vod_design.specs.Flat.{IsFlat};
ghost use Rattle.vod_fanout.specs.FanOut.{fan_out};
ghost use Rattle.vod_vcd.specs.Header.{scope_text, scope_line, name_of, var_line, signals_of, children_of};
ghost use Rattle.vod_vcd.specs.Scopes.{signal_feeds, child_feed, child_feeds, AreMembers, var_line_at, step_text, steps_text, StepFits};

use crate::header::{add_scope, add_variable};
use std::alloc::{AllocError, Global};
use vod_design::{Design, Scope, Signal};
use vod_fanout::{FanOut, Feed};

// What is to be written: an instance with all within it, or the end of one.
#[derive(Clone, Copy)]
enum Step {
    Enter(u32),
    Leave,
}

// The signals and the children of each instance.
#[derive(Drop)]
struct Members {
    signals: FanOut,
    children: FanOut,
}

// Which instance each signal is of.
fn signal_feeds(alloc: Global, signals: &[Signal]) -> Result<Vec<Feed>, AllocError>
    requires { length signals.now ≤ 16384 }
    ensures { IfOk result (λ feeds. feeds.items ≡ signal_feeds (enumerate_from 0 signals.now)) }
{
    let mut feeds = Vec::with_capacity(alloc, signals.len())?;
    for (number, signal) in signals.iter().enumerate() {
        feeds.push(Feed {
            source: signal.scope,
            reader: number as u32,
        })?;
    }
    Ok(feeds)
}

// Adds an instance to its parent.
fn add_child(feeds: &mut Vec<Feed>, number: u32, parent: Option<u32>) -> Result<(), AllocError>
    ensures { OnOk result (feeds.new.items ≡ feeds.old.items ++ child_feed number parent) }
{
    if let Some(parent) = parent {
        feeds.push(Feed {
            source: parent,
            reader: number,
        })?;
    }
    Ok(())
}

// Which parent each instance has.
fn child_feeds(alloc: Global, scopes: &[Scope]) -> Result<Vec<Feed>, AllocError>
    requires { length scopes.now ≤ 4096 }
    ensures { IfOk result (λ feeds. feeds.items ≡ child_feeds (enumerate_from 0 scopes.now)) }
{
    let mut feeds = Vec::with_capacity(alloc, scopes.len())?;
    for (number, scope) in scopes.iter().enumerate() {
        add_child(&mut feeds, number as u32, scope.parent)?;
    }
    Ok(feeds)
}

// The signals of each instance.
fn signals_by_scope(alloc: Global, design: &Design) -> Result<FanOut, AllocError>
    requires { IsFlat design.now.netlist }
    ensures { IfOk result (λ t. t ≡ fan_out (length design.now.netlist.scopes) (signal_feeds (enumerate_from 0 design.now.netlist.signals))) }
{
    let feeds = signal_feeds(alloc, design.signals())?;
    FanOut::new(alloc, design.scopes().len() as u32, feeds.as_slice())
}

// The children of each instance.
fn children_by_scope(alloc: Global, design: &Design) -> Result<FanOut, AllocError>
    requires { IsFlat design.now.netlist }
    ensures { IfOk result (λ t. t ≡ fan_out (length design.now.netlist.scopes) (child_feeds (enumerate_from 0 design.now.netlist.scopes))) }
{
    let feeds = child_feeds(alloc, design.scopes())?;
    FanOut::new(alloc, design.scopes().len() as u32, feeds.as_slice())
}

fn members_of(alloc: Global, design: &Design) -> Result<Members, AllocError>
    requires { IsFlat design.now.netlist }
    ensures { IfOk result (λ members. AreMembers design.now.netlist members) }
{
    let signals = signals_by_scope(alloc, design)?;
    let children = children_by_scope(alloc, design)?;
    Ok(Members { signals, children })
}

// Adds the lines of some signals.
fn add_variables(text: &mut Vec<u8>, signals: &[Signal], numbers: &[u32]) -> Result<(), AllocError>
    requires inside { All (λ n. n < length signals.now) numbers.now }
    requires few { length signals.now ≤ 16384 }
    ensures { OnOk result (text.new.items ≡ text.old.items ++ flat_map (var_line_at signals.now) numbers.now) }
{
    for number in numbers {
        add_variable(text, *number as usize, &signals[*number as usize])?;
    }
    Ok(())
}

// Leaves some instances to be written, in their order.
fn push_children(design: &Design, steps: &mut Vec<Step>, children: &[u32]) -> Result<(), AllocError>
    requires inside { All (λ n. n < length design.now.netlist.scopes) children.now }
    requires fit { All (StepFits design.now.netlist) steps.old.items }
    ensures text { OnOk result (steps_text design.now.netlist steps.new.items
        ≡ flat_map (scope_text design.now.netlist (length design.now.netlist.scopes)) children.now ++ steps_text design.now.netlist steps.old.items) }
    ensures fit { OnOk result (All (StepFits design.now.netlist) steps.new.items) }
{
    let mut left = children.len();
    while left > 0 {
        left -= 1;
        steps.push(Step::Enter(children[left]))?;
    }
    Ok(())
}

// Adds the lines of an instance, and leaves its children and its end to be written.
fn enter(
    text: &mut Vec<u8>,
    steps: &mut Vec<Step>,
    design: &Design,
    members: &Members,
    number: u32,
) -> Result<(), AllocError>
    requires flat { IsFlat design.now.netlist }
    requires members { AreMembers design.now.netlist members.now }
    requires inside { number < length design.now.netlist.scopes }
    requires fit { All (StepFits design.now.netlist) steps.old.items }
    ensures text { OnOk result (text.new.items ++ steps_text design.now.netlist steps.new.items
        ≡ text.old.items ++ scope_text design.now.netlist (length design.now.netlist.scopes) number ++ steps_text design.now.netlist steps.old.items) }
    ensures more { OnOk result (vec_len text.old < vec_len text.new) }
    ensures fit { OnOk result (All (StepFits design.now.netlist) steps.new.items) }
{
    add_scope(text, design.scopes()[number as usize].name.as_slice())?;
    add_variables(text, design.signals(), members.signals.of(number))?;
    steps.push(Step::Leave)?;
    push_children(design, steps, members.children.of(number))?;
    Ok(())
}

// Takes a step.
fn take_step(
    text: &mut Vec<u8>,
    steps: &mut Vec<Step>,
    design: &Design,
    members: &Members,
    step: Step,
) -> Result<(), AllocError>
    requires flat { IsFlat design.now.netlist }
    requires members { AreMembers design.now.netlist members.now }
    requires step { StepFits design.now.netlist step }
    requires fit { All (StepFits design.now.netlist) steps.old.items }
    ensures text { OnOk result (text.new.items ++ steps_text design.now.netlist steps.new.items
        ≡ text.old.items ++ step_text design.now.netlist step ++ steps_text design.now.netlist steps.old.items) }
    ensures more { OnOk result (vec_len text.old < vec_len text.new) }
    ensures fit { OnOk result (All (StepFits design.now.netlist) steps.new.items) }
{
    match step {
        Step::Enter(number) => enter(text, steps, design, members, number)?,
        Step::Leave => text.extend_from_slice(b"$upscope $end\n")?,
    }
    Ok(())
}

// Takes steps until none is left.
fn take_steps(
    text: &mut Vec<u8>,
    steps: &mut Vec<Step>,
    design: &Design,
    members: &Members,
) -> Result<(), AllocError>
    requires flat { IsFlat design.now.netlist }
    requires members { AreMembers design.now.netlist members.now }
    requires fit { All (StepFits design.now.netlist) steps.old.items }
    ensures { OnOk result (text.new.items ≡ text.old.items ++ steps_text design.now.netlist steps.old.items) }
{
    while let Some(step) = steps.pop() {
        take_step(text, steps, design, members, step)?;
    }
    Ok(())
}

/// Adds the lines of the top and of all instances within it.
pub fn add_scopes(alloc: Global, text: &mut Vec<u8>, design: &Design) -> Result<(), AllocError>
    ensures { OnOk result (text.new.items ≡ text.old.items ++ scope_text design.now.netlist (length design.now.netlist.scopes) 0) }
{
    design.keeps_rules();
    let members = members_of(alloc, design)?;
    let mut steps = vec![in alloc; Step::Enter(0)]?;
    take_steps(text, &mut steps, design, &members)
}
