//! What a name may be used as.
ghost use Rattle.std.specs.Prelude.{◌≡◌};
ghost use Rattle.vod_places.specs.Places.{least};
ghost use Rattle.vod_names.specs.Entries.{has_name};
ghost use Rattle.vod_uses.specs.Uses.{is_signal, is_constant, is_ram, fits, stands_before, misused, is_function_kind, is_function, hides, takes, uncallable};
ghost use Rattle.vod_uses.specs.Visible.{seen, before, within};

use crate::functions::Functions;
use vod_names::{Declaration, Kind, Names};
use vod_places::place_where;
use vod_tree::Ident;

/// The names that a use can mean: an inner list before the names of the module, and of these the ones that are declared before
/// a place. An inner name is a variable of a function or the index of a loop, and stands for a vector.
#[derive(Clone, Copy)]
pub struct Scope<'i, 'a, 's> {
    pub inner: &'i Names<'s>,
    pub outer: &'a Names<'s>,
    /// The registers of the module.
    pub registers: &'a Names<'s>,
    pub functions: &'a Functions<'s>,
    pub limit: u32,
}

impl<'i, 'a, 's> Scope<'i, 'a, 's> {
    /// The same names before another place.
    pub fn before(&self, limit: u32) -> Scope<'i, 'a, 's>
        ensures { seen result ≡ before (seen self.now) limit }
    {
        Scope {
            inner: self.inner,
            outer: self.outer,
            registers: self.registers,
            functions: self.functions,
            limit,
        }
    }

    /// The same names behind other inner ones.
    pub fn within<'j>(&self, inner: &'j Names<'s>) -> Scope<'j, 'a, 's>
        ensures { seen result ≡ within (seen self.now) inner.now }
    {
        Scope {
            inner,
            outer: self.outer,
            registers: self.registers,
            functions: self.functions,
            limit: self.limit,
        }
    }
}

/// What a name is used as.
#[derive(Clone, Copy, PartialEq, Eq)]
pub enum Usage {
    /// It is read whole, or a range of it.
    Value,
    /// It is read at an index.
    Indexed,
    /// It is written whole, or a range of it.
    Target,
    /// It is written at an index.
    IndexedTarget,
    /// Its edges are waited for.
    Event,
}

/// The place of a name, where it isn't declared as what it is used for.
pub fn misused(scope: &Scope<'_, '_, '_>, usage: Usage, ident: &Ident) -> Option<u32>
    ensures { result ≡ least (misused (seen scope.now) usage ident.now) }
{
    let name = ident.name.as_slice();
    let inner = scope.inner.first_of(name).is_some();
    let fine = inner || stands_before(scope.limit, usage, scope.outer.first_of(name));
    place_where(!fine, ident.place)
}

/// The place of a name that is called with so many arguments, where it means no function of the module with so many inputs.
pub(crate) fn uncallable(scope: &Scope<'_, '_, '_>, ident: &Ident, count: usize) -> Option<u32>
    ensures { result ≡ least (uncallable (seen scope.now) ident.now count) }
{
    let name = ident.name.as_slice();
    let hidden = hides(scope.inner.first_of(name));
    let function = is_function(scope.outer.first_of(name));
    let fits = takes(scope.functions.inputs_of(name), count);
    place_where(hidden || !function || !fits, ident.place)
}

// Whether an inner declaration hides a function.
fn hides(inner: Option<Declaration>) -> bool
    ensures { result ≡ hides inner }
{
    match inner {
        None => false,
        Some(inner) => !is_function_kind(inner.kind),
    }
}

fn takes(inputs: Option<usize>, count: usize) -> bool
    ensures { result ≡ takes inputs count }
{
    match inputs {
        None => false,
        Some(inputs) => inputs == count,
    }
}

// Whether a declaration stands before a place and is of a kind that fits.
fn stands_before(limit: u32, usage: Usage, declaration: Option<Declaration>) -> bool
    ensures { result ≡ stands_before limit usage declaration }
{
    match declaration {
        None => false,
        Some(declaration) => fits(usage, declaration.kind) && declaration.place < limit,
    }
}

fn fits(usage: Usage, kind: Kind) -> bool
    ensures { result ≡ fits usage kind }
{
    match usage {
        Usage::Value => is_signal(kind) || is_constant(kind),
        Usage::Indexed => is_signal(kind) || is_constant(kind) || is_ram(kind),
        Usage::Target | Usage::Event => is_signal(kind),
        Usage::IndexedTarget => is_signal(kind) || is_ram(kind),
    }
}

fn is_signal(kind: Kind) -> bool
    ensures { result ≡ is_signal kind }
{
    match kind {
        Kind::Input | Kind::Output | Kind::OutputReg | Kind::Wire | Kind::Reg => true,
        _ => false,
    }
}

fn is_constant(kind: Kind) -> bool
    ensures { result ≡ is_constant kind }
{
    match kind {
        Kind::Parameter | Kind::Localparam => true,
        _ => false,
    }
}

pub(crate) fn is_ram(kind: Kind) -> bool
    ensures { result ≡ is_ram kind }
{
    match kind {
        Kind::Ram => true,
        _ => false,
    }
}

fn is_function(declaration: Option<Declaration>) -> bool
    ensures { result ≡ is_function declaration }
{
    match declaration {
        None => false,
        Some(declaration) => is_function_kind(declaration.kind),
    }
}

fn is_function_kind(kind: Kind) -> bool
    ensures { result ≡ is_function_kind kind }
{
    match kind {
        Kind::Function => true,
        _ => false,
    }
}
