//! Parts of a tree that stand in many others. Each begins with a space.
use rows_text::Page;
use vod_tree::{Ident, Number};

/// A word that is printed where it stands in the source.
pub fn show_flag(page: &mut Page, stands: bool, word: &str) {
    if stands {
        page.word(word);
    }
}

/// The opening of a node, with its kind and its place.
pub fn open_at(page: &mut Page, word: &str, place: u32) {
    page.open(word);
    show_place(page, place);
}

/// A place, behind a point.
pub fn show_place(page: &mut Page, place: u32) {
    page.put(".");
    page.put_shown(&place);
}

/// A name and its place.
pub fn show_ident(page: &mut Page, ident: &Ident) {
    page.put(" ");
    page.put_bytes(ident.name.as_slice());
    show_place(page, ident.place);
}

/// Names and their places.
pub fn show_idents(page: &mut Page, idents: &[Ident]) {
    for ident in idents {
        show_ident(page, ident);
    }
}

/// A number as its size, `'`, `s` where it is signed, its value and its place.
pub fn show_number(page: &mut Page, number: &Number) {
    page.shown(&number.size);
    page.put(if number.signed { "'s" } else { "'" });
    page.put_shown(&number.value);
    show_place(page, number.place);
}
