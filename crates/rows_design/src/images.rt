//! Images of the small design: one that fits, and those nearest to it that don't.

use std::alloc::{AllocError, Global};
use std::io;
use vod_design::{Design, Edges, Image, Words};

/// The lists of an image.
#[derive(Clone, Copy)]
struct Lists {
    regs: &'static [u64],
    words: &'static [u64],
    given: &'static [u64],
    edges: &'static [u8],
}

const IMAGES: [Lists; 9] = [
    Lists {
        regs: &[1],
        words: &[0],
        given: &[],
        edges: &[1],
    },
    Lists {
        regs: &[2],
        words: &[0],
        given: &[],
        edges: &[1],
    },
    Lists {
        regs: &[],
        words: &[0],
        given: &[],
        edges: &[1],
    },
    Lists {
        regs: &[1, 0],
        words: &[0],
        given: &[],
        edges: &[1],
    },
    Lists {
        regs: &[1],
        words: &[2],
        given: &[],
        edges: &[1],
    },
    Lists {
        regs: &[1],
        words: &[],
        given: &[],
        edges: &[1],
    },
    Lists {
        regs: &[1],
        words: &[0],
        given: &[0],
        edges: &[1],
    },
    Lists {
        regs: &[1],
        words: &[0],
        given: &[],
        edges: &[3],
    },
    Lists {
        regs: &[1],
        words: &[0],
        given: &[],
        edges: &[],
    },
];

fn words(alloc: Global, numbers: &[u64]) -> Result<Words, AllocError> {
    let numbers = Vec::from_slice(alloc, numbers)?;
    Ok(Words::new(numbers))
}

fn image(alloc: Global, lists: Lists) -> Result<Image, AllocError> {
    let regs = words(alloc, lists.regs)?;
    let words_held = words(alloc, lists.words)?;
    let given = words(alloc, lists.given)?;
    let edges = Edges::new(Vec::from_slice(alloc, lists.edges)?);
    Ok(Image {
        regs,
        words: words_held,
        given,
        edges,
    })
}

/// Prints for each of the images whether it fits.
pub fn print(rt: &(impl Print + AllocGlobal), design: &Design) -> io::Result<()> {
    rt.print("fit")?;
    for lists in IMAGES {
        let image = image(rt.alloc(), lists)?;
        print!(rt; " {}", image.fit(design))?;
    }
    rt.println("")
}
