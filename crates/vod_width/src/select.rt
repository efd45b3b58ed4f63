//! Names, and selects of them (5.2.1, 5.2.2).
ghost use Rattle.std.specs.Prelude.{◌≡◌, ◌++◌, min, true, false, Some, IfOk};
ghost use Rattle.std.specs.Option.{option_copied};
ghost use Rattle.vod_width.specs.declared.decls.Declared.TheVariants as stands;
ghost use Rattle.vod_width.specs.Names.{declared};
ghost use Rattle.vod_operand.specs.Operands.{Looked as Found, own, first};
ghost use Rattle.vod_width.specs.Sizes.{memory, misused, selected, in_wrong_order, is_constant, index_faults, open_index, open_range, look_index, look_range};
ghost use Rattle.vod_operand.specs.Found.{Sees, Saw, SeesAs, looked_of};
ghost use Rattle.vod_width.specs.View.{allows, AreBounds, misused_tree, open_tree, named_of, open_named_of, bit_index_tree, word_index_tree};

use crate::decls::{Declared, Decls, Sort, Vector, WordArray};
use crate::limit::{Limit, in_ram, in_vector, number_within};
use crate::number::{above, byte, two_bytes};
use sqlite_items::Boxed;
use std::alloc::{AllocError, Global};
use vod_bits::{Bits, Word};
use vod_design::{Named, NamedMemory, SizedExpr, SizedKind};
use vod_operand::{
    Fault, Looked, WIDE, both_hold, fault_if, fault_of, fit_own, fit_own_pair, join, tree_unless,
    unplaced, unsized_node,
};
use vod_tree::{Ident, let_go};

const NO_BITS: Bits = Bits { width: 1, word: 0 };

// A name that isn't declared or is used as what it isn't, with the first fault of what stands beside it.
pub(crate) fn misused(place: u32, beside: Option<Fault>) -> Looked
    ensures { result ≡ looked_of 0 0 false false (misused_tree place beside) }
{
    let fault = join(Some(Fault::Rule(place)), beside);
    unplaced(
        0,
        false,
        false,
        tree_unless(fault, SizedKind::Number(NO_BITS)),
    )
}

// What hangs on an open name, with the first fault of what stands beside it.
pub(crate) fn left_open(width: u8, constant: bool, beside: Option<Fault>) -> Looked
    ensures { result ≡ looked_of 0 width false constant (open_tree beside) }
{
    let fault = join(beside, Some(Fault::Open));
    unplaced(
        width,
        false,
        constant,
        tree_unless(fault, SizedKind::Number(NO_BITS)),
    )
}

// An open name alone.
fn open_name(place: u32, sort: Sort) -> Looked
    ensures { result ≡ open_named_of place sort }
{
    match sort {
        Sort::Net => left_open(0, false, None),
        Sort::Constant => left_open(0, true, None),
        Sort::Ram => misused(place, None),
        Sort::Function => misused(place, None),
    }
}

pub(crate) fn is_constant(name: Named) -> bool
    ensures { result ≡ is_constant name }
{
    match name {
        Named::Variable(_) => false,
        Named::Constant(_) => true,
    }
}

// A width, as far as it counts.
pub(crate) fn capped(width: u8) -> u8
    ensures { result ≡ min width 65 }
{
    width.min(WIDE)
}

// A name alone.
pub(crate) fn name(place: u32, decls: &Decls, name: &Ident) -> Looked
    ensures { result ≡ named_of place (declared decls.now name.now.name) }
{
    match decls.get(name.name.as_slice()) {
        Some(Declared::Vector(v)) => unplaced(
            capped(v.width),
            v.signed,
            is_constant(v.name),
            Ok(unsized_node(SizedKind::Name(v.name))),
        ),
        Some(Declared::Ram(_)) => misused(place, None),
        Some(Declared::Function(_)) => misused(place, None),
        Some(Declared::Open(sort)) => open_name(place, *sort),
        None => misused(place, None),
    }
}

// The first fault of an index.
fn index_fault(alloc: Global, limit: Limit, i: &Looked) -> Result<Option<Fault>, AllocError>
    ensures { IfOk result (λ f. (y : Found) → SeesAs i.now y (own y) → f ≡ first (index_faults (allows limit) y)) }
{
    if i.constant {
        Ok(number_within(alloc, limit, i)?.fault)
    } else {
        Ok(fault_of(&i.tree))
    }
}

// A bit or word of an open name.
fn index_open(alloc: Global, place: u32, sort: Sort, i: &Looked) -> Result<Looked, AllocError>
    ensures { IfOk result (λ c. (y : Found) → SeesAs i.now y (own y) → Sees c (open_index place sort y)) }
{
    let fault = index_fault(alloc, Limit::SomeRange, i)?;
    match sort {
        Sort::Net => Ok(left_open(1, false, fault)),
        Sort::Constant => Ok(left_open(1, i.constant, fault)),
        Sort::Ram => Ok(left_open(0, false, fault)),
        Sort::Function => Ok(misused(place, fault_of(&i.tree))),
    }
}

// A bit of a vector.
fn index_vector(alloc: Global, v: &Vector, i: Looked) -> Result<Looked, AllocError>
    ensures { IfOk result (λ c. (y : Found) → SeesAs i y (own y) → Sees c (look_index 0 (Some (stands.Vector v.now)) y)) }
{
    if i.constant {
        bit_select(alloc, v, &i)
    } else {
        bit_index(alloc, v, i)
    }
}

// A bit of a vector at a constant index.
fn bit_select(alloc: Global, v: &Vector, i: &Looked) -> Result<Looked, AllocError>
    ensures { IfOk result (λ c. (y : Found) → SeesAs i.now y (own y) → y.constant ≡ true → Sees c (look_index 0 (Some (stands.Vector v.now)) y)) }
{
    let n = number_within(alloc, in_vector(v), i)?;
    let low = byte(above(n.number, v.lsb));
    let tree = tree_unless(n.fault, SizedKind::Select(v.name, low, 1));
    let constant = both_hold(is_constant(v.name), i.constant);
    Ok(unplaced(1, false, constant, tree))
}

// A bit of a vector at an index that is a value.
fn bit_index(alloc: Global, v: &Vector, i: Looked) -> Result<Looked, AllocError>
    ensures { IfOk result (λ c. (y : Found) → SeesAs i y (own y) → y.constant ≡ false → Sees c (look_index 0 (Some (stands.Vector v.now)) y)) }
{
    let constant = both_hold(is_constant(v.name), i.constant);
    let tree = bit_index_tree(alloc, v, i.tree)?;
    Ok(unplaced(1, false, constant, tree))
}

// Its tree.
fn bit_index_tree(
    alloc: Global,
    v: &Vector,
    index: Result<SizedExpr, Fault>,
) -> Result<Result<SizedExpr, Fault>, AllocError>
    ensures { IfOk result (λ r. r ≡ bit_index_tree v.now index) }
{
    match index {
        Ok(index) => {
            let index = Boxed::new(alloc, index)?;
            Ok(Ok(unsized_node(SizedKind::Index(v.name, v.lsb, index))))
        }
        Err(f) => Ok(Err(f)),
    }
}

// A memory as expressions see it.
fn memory(m: &WordArray) -> NamedMemory
    ensures { result ≡ memory m.now }
{
    NamedMemory {
        number: m.number,
        width: m.width,
    }
}

// A word of a memory.
fn index_ram(alloc: Global, m: &WordArray, i: Looked) -> Result<Looked, AllocError>
    ensures { IfOk result (λ c. (y : Found) → SeesAs i y (own y) → Sees c (look_index 0 (Some (stands.Ram m.now)) y)) }
{
    if i.constant {
        word_select(alloc, m, &i)
    } else {
        word_index(alloc, m, i)
    }
}

// A word of a memory at a constant index.
fn word_select(alloc: Global, m: &WordArray, i: &Looked) -> Result<Looked, AllocError>
    ensures { IfOk result (λ c. (y : Found) → SeesAs i.now y (own y) → y.constant ≡ true → Sees c (look_index 0 (Some (stands.Ram m.now)) y)) }
{
    let n = number_within(alloc, in_ram(m), i)?;
    let place = two_bytes(above(n.number, m.low));
    let tree = tree_unless(n.fault, SizedKind::Word(memory(m), place));
    Ok(unplaced(capped(m.width), false, false, tree))
}

// A word of a memory at an index that is a value.
fn word_index(alloc: Global, m: &WordArray, i: Looked) -> Result<Looked, AllocError>
    ensures { IfOk result (λ c. (y : Found) → SeesAs i y (own y) → y.constant ≡ false → Sees c (look_index 0 (Some (stands.Ram m.now)) y)) }
{
    let tree = word_index_tree(alloc, m, i.tree)?;
    Ok(unplaced(capped(m.width), false, false, tree))
}

// Its tree.
fn word_index_tree(
    alloc: Global,
    m: &WordArray,
    index: Result<SizedExpr, Fault>,
) -> Result<Result<SizedExpr, Fault>, AllocError>
    ensures { IfOk result (λ r. r ≡ word_index_tree m.now index) }
{
    match index {
        Ok(index) => {
            let index = Boxed::new(alloc, index)?;
            Ok(Ok(unsized_node(SizedKind::WordIndex(memory(m), m.low, index))))
        }
        Err(f) => Ok(Err(f)),
    }
}

// A bit of a vector, or a word of a memory.
pub(crate) fn index(
    alloc: Global,
    place: u32,
    decls: &Decls,
    name: &Ident,
    i: Looked,
) -> Result<Looked, AllocError>
    ensures { IfOk result (λ c. (y : Found) → Saw i y → Sees c (look_index place (declared decls.now name.now.name) y)) }
{
    let i = fit_own(alloc, i)?;
    index_of(alloc, place, decls.get(name.name.as_slice()), i)
}

// A bit or a word of what a name stands for.
fn index_of(
    alloc: Global,
    place: u32,
    declared: Option<&Declared>,
    i: Looked,
) -> Result<Looked, AllocError>
    ensures { IfOk result (λ c. (y : Found) → SeesAs i y (own y) → Sees c (look_index place (option_copied declared.entry) y)) }
{
    match declared {
        Some(Declared::Vector(v)) => index_vector(alloc, v, i),
        Some(Declared::Ram(m)) => index_ram(alloc, m, i),
        Some(Declared::Open(sort)) => index_open(alloc, place, *sort, &i),
        Some(Declared::Function(_)) => Ok(misused(place, fault_of(&i.tree))),
        None => Ok(misused(place, fault_of(&i.tree))),
    }
}

// How many bits a part select has, as far as they can be counted.
fn selected(msb: Option<Word>, lsb: Option<Word>) -> u8
    ensures { result ≡ min (selected msb lsb) 255 }
{
    match msb {
        None => 0,
        Some(msb) => match lsb {
            None => 0,
            Some(lsb) => {
                if lsb <= msb {
                    byte(msb - lsb).saturating_add(1)
                } else {
                    0
                }
            }
        },
    }
}

// Whether the bounds are in the wrong order.
fn in_wrong_order(msb: Option<Word>, lsb: Option<Word>) -> bool
    ensures { result ≡ in_wrong_order msb lsb }
{
    match msb {
        None => false,
        Some(msb) => match lsb {
            None => false,
            Some(lsb) => msb < lsb,
        },
    }
}

// Two bounds: the numbers that they are inside the range, whether both are constant, and their first fault.
#[derive(Clone, Copy)]
pub struct Bounds {
    pub msb: Option<Word>,
    pub lsb: Option<Word>,
    pub constant: bool,
    pub fault: Option<Fault>,
}

// What two bounds are that have to be within a limit.
fn bounds_within(alloc: Global, limit: Limit, a: &Looked, b: &Looked) -> Result<Bounds, AllocError>
    ensures { IfOk result (λ r. (x y : Found) → SeesAs a.now x (own x) → SeesAs b.now y (own y) → AreBounds (allows limit) r x y) }
{
    let msb = number_within(alloc, limit, a)?;
    let lsb = number_within(alloc, limit, b)?;
    let order = fault_if(in_wrong_order(msb.natural, lsb.natural), a.place);
    Ok(Bounds {
        msb: msb.number,
        lsb: lsb.number,
        constant: both_hold(msb.constant, lsb.constant),
        fault: join(join(msb.fault, lsb.fault), order),
    })
}

// Bits of a vector.
pub(crate) fn range(
    alloc: Global,
    place: u32,
    decls: &Decls,
    name: &Ident,
    a: Looked,
    b: Looked,
) -> Result<Looked, AllocError>
    ensures { IfOk result (λ c. (x y : Found) → Saw a x → Saw b y → Sees c (look_range place (declared decls.now name.now.name) x y)) }
{
    let (a, b) = fit_own_pair(alloc, a, b)?;
    let found = range_of(alloc, place, decls.get(name.name.as_slice()), &a, &b);
    let_go((a, b));
    found
}

// Bits of what a name stands for.
fn range_of(
    alloc: Global,
    place: u32,
    declared: Option<&Declared>,
    a: &Looked,
    b: &Looked,
) -> Result<Looked, AllocError>
    ensures { IfOk result (λ c. (x y : Found) → SeesAs a.now x (own x) → SeesAs b.now y (own y) → Sees c (look_range place (option_copied declared.entry) x y)) }
{
    match declared {
        Some(Declared::Vector(v)) => part_select(alloc, v, a, b),
        Some(Declared::Open(sort)) => range_open(alloc, place, *sort, a, b),
        Some(Declared::Ram(_)) => Ok(misused_bounds(place, a, b)),
        Some(Declared::Function(_)) => Ok(misused_bounds(place, a, b)),
        None => Ok(misused_bounds(place, a, b)),
    }
}

// Two bounds behind a name that stands for no vector.
fn misused_bounds(place: u32, a: &Looked, b: &Looked) -> Looked
    ensures { (x y : Found) → SeesAs a.now x (own x) → SeesAs b.now y (own y) → Sees result (misused place (x.faults ++ y.faults)) }
{
    misused(place, join(fault_of(&a.tree), fault_of(&b.tree)))
}

// Bits of an open name.
fn range_open(
    alloc: Global,
    place: u32,
    sort: Sort,
    a: &Looked,
    b: &Looked,
) -> Result<Looked, AllocError>
    ensures { IfOk result (λ c. (x y : Found) → SeesAs a.now x (own x) → SeesAs b.now y (own y) → Sees c (open_range place sort x y)) }
{
    let bounds = bounds_within(alloc, Limit::SomeRange, a, b)?;
    match sort {
        Sort::Net => Ok(left_open(0, false, bounds.fault)),
        Sort::Constant => Ok(left_open(0, bounds.constant, bounds.fault)),
        Sort::Ram => Ok(misused_bounds(place, a, b)),
        Sort::Function => Ok(misused_bounds(place, a, b)),
    }
}

// Bits of a vector between two bounds.
fn part_select(alloc: Global, v: &Vector, a: &Looked, b: &Looked) -> Result<Looked, AllocError>
    ensures { IfOk result (λ c. (x y : Found) → SeesAs a.now x (own x) → SeesAs b.now y (own y) → Sees c (look_range 0 (Some (stands.Vector v.now)) x y)) }
{
    let bounds = bounds_within(alloc, in_vector(v), a, b)?;
    let count = selected(bounds.msb, bounds.lsb);
    let low = byte(above(bounds.lsb, v.lsb));
    let tree = tree_unless(bounds.fault, SizedKind::Select(v.name, low, count));
    let constant = both_hold(is_constant(v.name), bounds.constant);
    Ok(unplaced(capped(count), false, constant, tree))
}
