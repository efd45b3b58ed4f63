//! Names in statements.
ghost use Rattle.std.specs.Prelude.{◌≡◌, ◌++◌, flat_map};
ghost use Rattle.std.specs.Option.{option_map};
ghost use Rattle.vod_places.specs.Places.{least};
ghost use Rattle.vod_uses.specs.Visible.{seen};
ghost use Rattle.vod_uses.specs.Uses.{misuses, left_misuses};
ghost use Rattle.vod_uses.specs.Statements.{label_misuses, else_misuses, item_case_misuses, statement_misuses};

use crate::expr::{first_misuse, first_misuse_of};
use crate::left::first_left_misuse;
use crate::scope::Scope;
use sqlite_items::Boxed;
use vod_places::sooner_of;
use vod_tree::{CaseItem, CaseLabel, Expr, Lval, Statement, StatementKind};

/// The least place of a name in a statement that isn't declared as what it is used for.
#[cycle(statement)]
pub fn first_statement_misuse(scope: &Scope<'_, '_, '_>, statement: &Statement) -> Option<u32>
    ensures { result ≡ least (statement_misuses (seen scope.now) statement.now) }
{
    match &statement.kind {
        StatementKind::Nonblocking(left, value) => first_written_misuse(scope, left.get(), value),
        StatementKind::Blocking(left, value) => first_written_misuse(scope, left.get(), value),
        StatementKind::If(test, yes, no) => {
            let branches = sooner_of(
                first_statement_misuse(scope, yes.get()),
                first_else_misuse(scope, no),
            );
            sooner_of(first_misuse(scope, test), branches)
        }
        StatementKind::Case(value, items) => {
            let inside = first_case_misuse(scope, items.as_slice());
            sooner_of(first_misuse(scope, value), inside)
        }
        StatementKind::Block(_, statements) => first_block_misuse(scope, statements.as_slice()),
        StatementKind::Empty => None,
    }
}

#[cycle(statement)]
fn first_else_misuse(scope: &Scope<'_, '_, '_>, no: &Option<Boxed<Statement>>) -> Option<u32>
    ensures { result ≡ least (else_misuses (option_map (statement_misuses (seen scope.now)) no.now)) }
{
    match no {
        None => None,
        Some(no) => first_statement_misuse(scope, no.get()),
    }
}

#[cycle(statement)]
fn first_block_misuse(scope: &Scope<'_, '_, '_>, statements: &[Statement]) -> Option<u32>
    ensures { result ≡ least (flat_map (statement_misuses (seen scope.now)) statements.now) }
{
    let mut first = None;
    for statement in statements {
        first = sooner_of(first, first_statement_misuse(scope, statement));
    }
    first
}

#[cycle(statement)]
fn first_case_misuse(scope: &Scope<'_, '_, '_>, items: &[CaseItem]) -> Option<u32>
    ensures { result ≡ least (flat_map (item_case_misuses (seen scope.now)) items.now) }
{
    let mut first = None;
    for item in items {
        let label = first_label_misuse(scope, &item.label);
        let inside = sooner_of(label, first_statement_misuse(scope, &item.body));
        first = sooner_of(first, inside);
    }
    first
}

fn first_label_misuse(scope: &Scope<'_, '_, '_>, label: &CaseLabel) -> Option<u32>
    ensures { result ≡ least (label_misuses (seen scope.now) label.now) }
{
    match label {
        CaseLabel::Values(values) => first_misuse_of(scope, values.as_slice()),
        CaseLabel::Default => None,
    }
}

/// The same of a left side and its value.
#[tactic(auto, using(crate::proofs::Least::least_append))]
pub fn first_written_misuse(scope: &Scope<'_, '_, '_>, left: &Lval, value: &Expr) -> Option<u32>
    ensures { result ≡ least (left_misuses (seen scope.now) left.now ++ misuses (seen scope.now) value.now) }
{
    sooner_of(first_left_misuse(scope, left), first_misuse(scope, value))
}
