//! The parts of concatenations, and the arguments of calls.
ghost use Rattle.std.specs.Prelude.{◌≡◌, ◌+◌, ◌*◌, ◌&&◌, List, [], Some, None, Ok, true, if◌then◌else◌, min, max, nat_lt, slice_get, IfOk};
ghost use Rattle.std.specs.Option.{option_copied};
ghost use Rattle.vod_operand.specs.Operands.{Looked as Found};
ghost use Rattle.vod_width.specs.Sizes.{or_zero, look_concat, look_replicate};
ghost use Rattle.vod_width.specs.Calls.{called_of, open_called_of, width_of};
ghost use Rattle.vod_operand.specs.Found.{Sees, SeesAs, Saw};
ghost use Rattle.vod_width.specs.View.{SeesKind, SeesParts, IsNumbered, with_tree_of, concat_tree_of, replicate_tree_of, inputs_of, call_tree_of, fault_of_trees};

use crate::decls::{Declared, Sort};
use crate::limit::{Limit, Numbered, own_number_within};
use crate::select::{capped, left_open, misused};
use sqlite_items::{Boxed, Items};
use std::alloc::{AllocError, Global};
use vod_bits::{WIDTH, Word};
use vod_design::{Size, SizedExpr, SizedKind};
use vod_operand::{Fault, Looked, WIDE, both_hold, fit, sooner, unplaced, unsized_node};
use vod_tree::let_go;

// Parts, each at its own size: the sum of their widths, whether all have a width and whether all are constant, and their trees or the
// first fault.
#[derive(Drop)]
pub struct Parts {
    pub width: u8,
    pub sized: bool,
    pub constant: bool,
    pub trees: Result<Items<SizedExpr>, Fault>,
}

// No parts.
pub(crate) fn no_parts(alloc: Global) -> Parts
    ensures { SeesParts result [] }
{
    Parts {
        width: 0,
        sized: true,
        constant: true,
        trees: Ok(Items::new(alloc)),
    }
}

// The sum of two widths, as far as it counts.
pub(crate) fn wider(a: u8, b: u8) -> u8
    ensures { result ≡ min (a + b) 65 }
{
    a.saturating_add(b).min(WIDE)
}

// A tree behind others, or the sooner fault.
pub(crate) fn with_tree(
    trees: Result<Items<SizedExpr>, Fault>,
    tree: Result<SizedExpr, Fault>,
) -> Result<Result<Items<SizedExpr>, Fault>, AllocError>
    ensures { IfOk result (λ r. r ≡ with_tree_of trees tree) }
{
    match trees {
        Ok(mut trees) => match tree {
            Ok(tree) => {
                trees.push(tree)?;
                Ok(Ok(trees))
            }
            Err(g) => Ok(Err(g)),
        },
        Err(f) => match tree {
            Ok(_) => Ok(Err(f)),
            Err(g) => Ok(Err(sooner(f, g))),
        },
    }
}

// A part behind others.
pub(crate) fn with_part(parts: Parts, x: Looked) -> Result<Parts, AllocError>
    ensures { IfOk result (λ r. (r.width ≡ min (parts.width + x.width) 65) × (r.sized ≡ (parts.sized && nat_lt 0 x.width)) × (r.constant ≡ (parts.constant && x.constant)) × (r.trees ≡ with_tree_of parts.trees x.tree)) }
{
    let trees = with_tree(parts.trees, x.tree)?;
    Ok(Parts {
        width: wider(parts.width, x.width),
        sized: both_hold(parts.sized, x.width > 0),
        constant: both_hold(parts.constant, x.constant),
        trees,
    })
}

// The sum of the widths of the parts, where all have one.
fn total(parts: &Parts) -> u8
    ensures { result ≡ (if parts.now.sized then parts.now.width else 0) }
{
    if parts.sized { parts.width } else { 0 }
}

// The tree of a concatenation.
pub(crate) fn concat_tree(trees: Result<Items<SizedExpr>, Fault>) -> Result<SizedExpr, Fault>
    ensures { result ≡ concat_tree_of trees }
{
    match trees {
        Ok(trees) => Ok(unsized_node(SizedKind::Concat(trees))),
        Err(f) => Err(f),
    }
}

// `{ }`
pub(crate) fn concat(parts: Parts) -> Looked
    ensures { (ys : List Found) → SeesParts parts ys → Sees result (look_concat ys) }
{
    let width = total(&parts);
    unplaced(width, false, parts.constant, concat_tree(parts.trees))
}

// So many times a width, as far as it counts.
fn times_wide(count: Word, width: u8) -> u8
    ensures { result ≡ min (count * width) 65 }
{
    count
        .saturating_mul(Word::from(width))
        .min(Word::from(WIDE)) as u8
}

// A count in a tree: one past `WIDTH` has too many bits.
fn tree_count(count: Word) -> u8
    ensures { result ≡ min count 64 }
{
    count.min(Word::from(WIDTH)) as u8
}

// The tree of a replication, unless there is a fault.
fn replicate_tree(
    alloc: Global,
    fault: Option<Fault>,
    count: u8,
    place: u32,
    width: u8,
    concat: Result<SizedExpr, Fault>,
) -> Result<Result<SizedExpr, Fault>, AllocError>
    ensures { IfOk result (λ r. r ≡ replicate_tree_of fault count place width concat) }
{
    match fault {
        None => match concat {
            Ok(concat) => {
                let concat = SizedExpr {
                    place,
                    width,
                    signed: false,
                    kind: concat.kind,
                };
                let concat = Boxed::new(alloc, concat)?;
                Ok(Ok(unsized_node(SizedKind::Replicate(count, concat))))
            }
            Err(g) => Ok(Err(g)),
        },
        Some(f) => match concat {
            Ok(_) => Ok(Err(f)),
            Err(g) => Ok(Err(sooner(f, g))),
        },
    }
}

// `{n{ }}`
pub(crate) fn replicate(
    alloc: Global,
    place: u32,
    count: Looked,
    parts: Parts,
) -> Result<Looked, AllocError>
    ensures { IfOk result (λ c. (x : Found) (ys : List Found) → Saw count x → SeesParts parts ys → SeesKind c (look_replicate place x ys)) }
{
    match own_number_within(alloc, Limit::Count, count) {
        Ok(count) => replicated(alloc, place, count, parts),
        Err(e) => {
            let_go(parts);
            Err(e)
        }
    }
}

// The same, where it is known what the count is.
fn replicated(
    alloc: Global,
    place: u32,
    count: Numbered,
    parts: Parts,
) -> Result<Looked, AllocError>
    ensures { IfOk result (λ c. (x : Found) (ys : List Found) → IsNumbered (nat_lt 0) count x → SeesParts parts ys → SeesKind c (look_replicate place x ys)) }
{
    let number = or_zero(count.number);
    let width = total(&parts);
    let constant = both_hold(count.constant, parts.constant);
    let concat = concat_tree(parts.trees);
    let times = tree_count(number);
    let tree = replicate_tree(alloc, count.fault, times, place, width, concat)?;
    Ok(unplaced(times_wide(number, width), false, constant, tree))
}

// A number, or 0.
fn or_zero(number: Option<Word>) -> Word
    ensures { result ≡ or_zero number }
{
    number.unwrap_or(0)
}

// The inputs of what is called.
pub(crate) fn inputs_of<'a>(callee: Option<&'a Declared>) -> &'a [Size]
    ensures { result.now ≡ inputs_of (option_copied callee.entry) }
{
    match callee {
        Some(Declared::Function(f)) => f.inputs.as_slice(),
        Some(Declared::Vector(_)) => &[],
        Some(Declared::Ram(_)) => &[],
        Some(Declared::Open(_)) => &[],
        None => &[],
    }
}

// The width of an input.
fn input_width(inputs: &[Size], at: usize) -> u8
    ensures { result ≡ width_of (slice_get inputs.now at) }
{
    match inputs.get(at) {
        Some(input) => input.width,
        None => 0,
    }
}

// An argument, at the larger size of it and of its input (10.4.3).
pub(crate) fn fit_argument(
    alloc: Global,
    inputs: &[Size],
    at: usize,
    x: Looked,
) -> Result<Looked, AllocError>
    ensures { IfOk result (λ c. (y : Found) → Saw x y → SeesAs c y (y.sized (max (width_of (slice_get inputs.now at)) y.width) y.signed)) }
{
    let width = input_width(inputs, at).max(x.width);
    let signed = x.signed;
    fit(alloc, x, width, signed)
}

// The first fault of the arguments.
fn fault_of_trees(trees: &Result<Items<SizedExpr>, Fault>) -> Option<Fault>
    ensures { result ≡ fault_of_trees trees.now }
{
    match trees {
        Ok(_) => None,
        Err(f) => Some(*f),
    }
}

// The tree of a call.
fn call_tree(number: u32, trees: Result<Items<SizedExpr>, Fault>) -> Result<SizedExpr, Fault>
    ensures { result ≡ call_tree_of number trees }
{
    match trees {
        Ok(trees) => Ok(unsized_node(SizedKind::Call(number, trees))),
        Err(f) => Err(f),
    }
}

// A call of an open name.
fn open_call(place: u32, sort: Sort, beside: Option<Fault>) -> Looked
    ensures { result ≡ open_called_of place sort beside }
{
    match sort {
        Sort::Net => misused(place, beside),
        Sort::Constant => misused(place, beside),
        Sort::Ram => misused(place, beside),
        Sort::Function => left_open(0, false, beside),
    }
}

// A call.
pub(crate) fn call(
    place: u32,
    callee: Option<&Declared>,
    trees: Result<Items<SizedExpr>, Fault>,
) -> Looked
    ensures { result ≡ called_of place (option_copied callee.entry) trees }
{
    match callee {
        Some(Declared::Function(f)) => {
            unplaced(capped(f.width), f.signed, false, call_tree(f.number, trees))
        }
        Some(Declared::Vector(_)) => misused(place, fault_of_trees(&trees)),
        Some(Declared::Ram(_)) => misused(place, fault_of_trees(&trees)),
        Some(Declared::Open(sort)) => open_call(place, *sort, fault_of_trees(&trees)),
        None => misused(place, fault_of_trees(&trees)),
    }
}
