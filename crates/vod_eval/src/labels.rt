//! The size at which a `case` compares its value and its labels: the largest of theirs, as signed values only where all are.
ghost use Rattle.std.specs.Prelude.{◌≡◌, ◌∷◌, ◌&&◌};
ghost use Rattle.vod_eval.specs.Sizes.{common, joint, own, labels_of};

use vod_design::{CaseItem, Size, SizedExpr};

// The size of the value and all labels of a `case`.
pub fn case_size(tested: &SizedExpr, items: &[CaseItem]) -> Size
    ensures { result ≡ common (tested.now ∷ labels_of items.now) }
{
    let mut size = own_size(tested);
    for item in items {
        size = with_labels(size, item.labels.as_slice());
    }
    size
}

// A size beside those of labels.
fn with_labels(size: Size, labels: &[SizedExpr]) -> Size
    ensures { result ≡ joint size (common labels.now) }
{
    let mut size = size;
    for label in labels {
        size = joint(size, own_size(label));
    }
    size
}

// The size of one expression.
fn own_size(e: &SizedExpr) -> Size
    ensures { result ≡ own e.now }
{
    Size {
        width: e.width,
        signed: e.signed,
    }
}

// The larger of two sizes, signed only where both are.
fn joint(a: Size, b: Size) -> Size
    ensures { result ≡ joint a b }
{
    Size {
        width: a.width.max(b.width),
        signed: both(a.signed, b.signed),
    }
}

// Whether both hold.
pub fn both(a: bool, b: bool) -> bool
    ensures { result ≡ (a && b) }
{
    a && b
}
