//! Drivers by the thousand.
use crate::drivers::bits;
use sqlite_items::Items;
use std::alloc::{AllocError, Global};
use vod_bits::WIDTH;
use vod_design::{Driver, Place, Places, SizedExpr, SizedKind};

/// The most drivers that are made.
pub const MOST: u32 = 200_000;

/// The bit of a driver, where each has one.
fn bit(number: u32) -> Place {
    let width = u32::from(WIDTH);
    Place {
        signal: number / width,
        bit: (number % width) as u8,
    }
}

/// A driver of its bit that reads the bits of others.
fn reader(alloc: Global, number: u32, others: &[u32]) -> Result<Driver, AllocError> {
    let mut bit_of = Vec::with_capacity(alloc, 1)?;
    bit_of.push(bit(number))?;
    let target = Places::new(bit_of);
    match parts(alloc, others) {
        Ok(value) => Ok(Driver {
            target,
            value,
            place: 0,
        }),
        Err(error) => Err(error),
    }
}

/// The bits of drivers, joined.
fn parts(alloc: Global, others: &[u32]) -> Result<SizedExpr, AllocError> {
    let mut parts = Items::new(alloc);
    for other in others {
        let at = bit(*other);
        if let Err(error) = parts.push(bits(at.signal, at.bit, 1)) {
            let_go(parts);
            return Err(error);
        }
    }
    Ok(SizedExpr {
        place: 0,
        width: 1,
        signed: false,
        kind: SizedKind::Concat(parts),
    })
}

/// Lets go of a part of a tree.
fn let_go<T: Drop>(_value: T) {}

/// So many drivers, of which each reads the next ones.
pub fn mesh(alloc: Global, count: u32, reach: u32) -> Result<Vec<Driver>, AllocError> {
    let count = count.min(MOST);
    let mut drivers = Vec::with_capacity(alloc, count as usize)?;
    for number in 0..count {
        let mut others = Vec::new(alloc);
        for step in 1..reach.min(MOST) + 1 {
            if number + step < count {
                others.push(number + step)?;
            }
        }
        let driver = reader(alloc, number, others.as_slice())?;
        drivers.push(driver)?;
    }
    Ok(drivers)
}

/// So many drivers, of which each reads the next, and the last the first.
pub fn ring(alloc: Global, count: u32) -> Result<Vec<Driver>, AllocError> {
    let count = count.min(MOST);
    let mut drivers = Vec::with_capacity(alloc, count as usize)?;
    for number in 0..count {
        let other = if number + 1 < count { number + 1 } else { 0 };
        let driver = reader(alloc, number, &[other])?;
        drivers.push(driver)?;
    }
    Ok(drivers)
}
