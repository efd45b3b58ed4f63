//! The functions of rows: the result of each is its one input, at the result's size.
use sqlite_items::Items;
use std::alloc::{AllocError, Global};
use vod_design::{
    Body, Function, Locals, Named, Part, PartTarget, Size, SizedExpr, SizedKind, Statement,
    Variable,
};

/// The sizes of the inputs of a function of one input.
pub fn inputs(alloc: Global, input: Size) -> Result<Locals, AllocError> {
    Ok(Locals::new(Vec::from_slice(alloc, &[input])?))
}

/// The left side that is the whole result.
fn whole_result(alloc: Global, width: u8) -> Result<Items<Part>, AllocError> {
    let mut parts = Items::new(alloc);
    parts.push(Part {
        place: 0,
        low: 0,
        width,
        target: PartTarget::Bits(Variable::Local(1), 0),
    })?;
    Ok(parts)
}

/// The function whose result has this width and is its input.
pub fn copy(alloc: Global, width: u8, input: Size) -> Result<Function, AllocError> {
    let inputs = inputs(alloc, input)?;
    let parts = whole_result(alloc, width)?;
    let value = SizedExpr {
        place: 0,
        width: width.max(input.width),
        signed: input.signed,
        kind: SizedKind::Name(Named::Variable(Variable::Local(0))),
    };
    Ok(Function {
        scope: 0,
        width,
        signed: false,
        inputs,
        locals: Locals::new(Vec::new(alloc)),
        body: Body::new(Statement::Assign(parts, value)),
    })
}
