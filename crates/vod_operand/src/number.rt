//! The numbers that constant parts stand for.
ghost use Rattle.std.specs.Prelude.{◌≡◌, ◌≤◌, ◌&&◌, not, if◌then◌else◌, true, false, [], Some, None, Ok, IfOk, vec_len};
ghost use Rattle.vod_bits.specs.Bit.{BX, is_1};
ghost use Rattle.vod_bits.specs.Value.{bits_of, number_of, upper_bit, all_known};
ghost use Rattle.vod_design.specs.declared.sized.SizedKind.TheVariants as kind;
ghost use Rattle.vod_design.specs.Values.{bounded, at_size};
ghost use Rattle.vod_design.specs.Run.{eval, nothing};
ghost use Rattle.vod_eval.specs.Room.{room_of};
ghost use Rattle.vod_operand.specs.Operands.{Looked as Found, node, own, known_natural};
ghost use Rattle.vod_operand.specs.Found.{looked_of, SeesAs, natural_of, part_fault_of};

use crate::fault::{Fault, fault_beside, fault_if};
use crate::tree::{Looked, both_hold, unsized_node};
use std::alloc::{AllocError, Global};
use vod_bits::{Bits, WIDTH, Word};
use vod_design::{SizedExpr, SizedKind};
use vod_eval::{Lists, call_rooms, expr_room, value_of};
use vod_four::Four;
use vod_tree::Number;

const EMPTY: Four = Four {
    width: 1,
    ones: 0,
    unks: 0,
};

// The bits of a number of the source (3.5.1).
#[tactic(auto, unfolding(vod_design::specs::Values::at_size))]
fn number_bits(n: Number) -> Bits
    ensures { result ≡ at_size n.size false (bits_of WIDTH n.value) }
{
    let bits = Bits {
        width: WIDTH,
        word: n.value,
    };
    bits.resize(n.size.min(WIDTH).max(1), false)
}

/// A number of the source.
pub fn literal(n: Number) -> Looked
    ensures { result ≡ looked_of 0 (bounded n.size) n.signed true (Ok (node 0 false (kind.Number (at_size n.size false (bits_of WIDTH n.value))))) }
{
    Looked {
        place: 0,
        width: n.size.min(WIDTH).max(1),
        signed: n.signed,
        constant: true,
        tree: Ok(unsized_node(SizedKind::Number(number_bits(n)))),
    }
}

// Room for the value of an expression that calls nothing.
fn room(alloc: Global, e: &SizedExpr) -> Result<Vec<Four>, AllocError>
    ensures { IfOk result (λ v. room_of [] e.now ≤ vec_len v) }
{
    let rooms = call_rooms(alloc, &[])?;
    let count = expr_room(&rooms, e);
    let mut room = Vec::new(alloc);
    for _ in 0..count {
        room.push(EMPTY)?;
    }
    Ok(room)
}

/// The value of an expression that reads nothing.
pub fn value(alloc: Global, e: &SizedExpr) -> Result<Four, AllocError>
    ensures { IfOk result (λ v. v ≡ eval BX [] (nothing BX) [] e.now) }
{
    let mut room = room(alloc, e)?;
    let none = Lists {
        signals: &[],
        memories: &[],
    };
    Ok(value_of(&[], &none, e, &mut room))
}

// The number that a known value stands for.
fn number(bits: Bits) -> Word
    ensures { result ≡ number_of bits }
{
    bits.word
}

// Whether the upper bit is set.
fn is_upper_set(bits: Bits) -> bool
    ensures { result ≡ is_1 (upper_bit bits) }
{
    bits.slice(bits.width - 1, 1).any()
}

// The number of a known value that isn't negative.
fn natural_number(value: Four, signed: bool) -> Option<Word>
    ensures { result ≡ (if all_known value && not (signed && is_1 (upper_bit value)) then Some (number_of value) else None) }
{
    let bits = value.known()?;
    let negative = both_hold(signed, is_upper_set(bits));
    if negative { None } else { Some(number(bits)) }
}

// The number of a constant tree.
fn number_of_tree(
    alloc: Global,
    tree: &SizedExpr,
    constant: bool,
    signed: bool,
) -> Result<Option<Word>, AllocError>
    ensures { IfOk result (λ n. n ≡ natural_of constant signed (eval BX [] (nothing BX) [] tree.now)) }
{
    if !constant {
        return Ok(None);
    }
    let value = value(alloc, tree)?;
    Ok(natural_number(value, signed))
}

/// The number of a part at its own size, where it is constant and nothing in it is at fault.
pub fn natural(alloc: Global, x: &Looked) -> Result<Option<Word>, AllocError>
    ensures { IfOk result (λ n. (y : Found) → SeesAs x.now y (own y) → n ≡ known_natural y) }
{
    match &x.tree {
        Ok(tree) => number_of_tree(alloc, tree, x.constant, x.signed),
        Err(_) => Ok(None),
    }
}

/// The first fault of a part that has to be a number: one inside it, that it isn't constant, or that no number was found.
pub fn part_fault(x: &Looked, found: bool) -> Option<Fault>
    ensures { result ≡ part_fault_of x.now.constant found x.now.place x.now.tree }
{
    match &x.tree {
        Ok(_) => fault_if(!found, x.place),
        Err(f) => Some(fault_beside(*f, x.constant, x.place)),
    }
}
