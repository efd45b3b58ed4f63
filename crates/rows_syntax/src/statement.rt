//! Left sides, statements and what runs them.
use crate::expression::{show_expr, show_exprs};
use crate::page::{open_at, show_ident, show_number, show_place};
use rows_text::Page;
use vod_tree::{
    Always, Assignment, CaseItem, CaseLabel, Edge, Event, ForLoop, Ident, InitialKind,
    InitialStatement, Lval, LvalKind, Separator, Statement, StatementKind,
};

/// A left side.
#[cycle(lval)]
pub fn show_lval(page: &mut Page, lval: &Lval) {
    match &lval.kind {
        LvalKind::Name(ident) => show_ident(page, ident),
        compound => {
            open_at(page, lval_word(compound), lval.place);
            show_lval_parts(page, compound);
            page.close()
        }
    }
}

fn lval_word(kind: &LvalKind) -> &'static str {
    match kind {
        LvalKind::Name(_) => "name",
        LvalKind::Index(_, _) => "select",
        LvalKind::Range(_, _, _) => "range",
        LvalKind::Concat(_) => "concat",
    }
}

#[cycle(lval)]
fn show_lval_parts(page: &mut Page, kind: &LvalKind) {
    match kind {
        LvalKind::Name(_) => {}
        LvalKind::Index(ident, index) => {
            show_ident(page, ident);
            show_expr(page, index)
        }
        LvalKind::Range(ident, first, second) => {
            show_ident(page, ident);
            show_expr(page, first);
            show_expr(page, second)
        }
        LvalKind::Concat(parts) => show_lvals(page, parts.as_slice()),
    }
}

#[cycle(lval)]
fn show_lvals(page: &mut Page, lvals: &[Lval]) {
    for lval in lvals {
        show_lval(page, lval);
    }
}

/// The assignments of an `assign`.
pub fn show_assignments(page: &mut Page, assignments: &[Assignment]) {
    for assignment in assignments {
        page.open("=");
        show_lval(page, &assignment.target);
        show_expr(page, &assignment.value);
        page.close();
    }
}

/// A statement of an `always` or a function.
#[cycle(statement)]
pub fn show_statement(page: &mut Page, statement: &Statement) {
    open_at(page, statement_word(&statement.kind), statement.place);
    show_statement_parts(page, &statement.kind);
    page.close()
}

fn statement_word(kind: &StatementKind) -> &'static str {
    match kind {
        StatementKind::Nonblocking(_, _) => "<=",
        StatementKind::Blocking(_, _) => "=",
        StatementKind::If(_, _, _) => "if",
        StatementKind::Case(_, _) => "case",
        StatementKind::Block(_, _) => "begin",
        StatementKind::Empty => ";",
    }
}

#[cycle(statement)]
fn show_statement_parts(page: &mut Page, kind: &StatementKind) {
    match kind {
        StatementKind::Nonblocking(target, value) | StatementKind::Blocking(target, value) => {
            show_lval(page, target.get());
            show_expr(page, value)
        }
        StatementKind::If(test, taken, other) => {
            show_expr(page, test);
            show_statement(page, taken.get());
            match other {
                Some(other) => show_statement(page, other.get()),
                None => {}
            }
        }
        StatementKind::Case(value, items) => {
            show_expr(page, value);
            show_case_items(page, items.as_slice())
        }
        StatementKind::Block(label, statements) => {
            show_label(page, label);
            show_statements(page, statements.as_slice())
        }
        StatementKind::Empty => {}
    }
}

#[cycle(statement)]
fn show_statements(page: &mut Page, statements: &[Statement]) {
    for statement in statements {
        show_statement(page, statement);
    }
}

#[cycle(statement)]
fn show_case_items(page: &mut Page, items: &[CaseItem]) {
    for item in items {
        open_at(page, "item", item.place);
        show_case_label(page, &item.label);
        show_statement(page, &item.body);
        page.close();
    }
}

fn show_case_label(page: &mut Page, label: &CaseLabel) {
    match label {
        CaseLabel::Values(values) => {
            page.open("values");
            show_exprs(page, values.as_slice());
            page.close()
        }
        CaseLabel::Default => page.word("default"),
    }
}

/// The name of a block, behind a colon.
fn show_label(page: &mut Page, label: &Option<Ident>) {
    match label {
        Some(ident) => {
            page.word(":");
            show_ident(page, ident)
        }
        None => {}
    }
}

/// The place, the events and the statement of an `always`.
pub fn show_always(page: &mut Page, always: &Always) {
    show_place(page, always.place);
    show_event(page, &always.event);
    if let Some(second) = &always.second {
        page.word(separator_word(second.separator));
        show_event(page, &second.event);
    }
    show_statement(page, &always.body)
}

fn show_event(page: &mut Page, event: &Event) {
    open_at(page, edge_word(event.edge), event.place);
    show_ident(page, &event.name);
    page.close()
}

fn edge_word(edge: Edge) -> &'static str {
    match edge {
        Edge::Posedge => "posedge",
        Edge::Negedge => "negedge",
    }
}

fn separator_word(separator: Separator) -> &'static str {
    match separator {
        Separator::Or => "or",
        Separator::Comma => ",",
    }
}

/// A statement of an `initial`.
#[cycle(initial)]
pub fn show_initial(page: &mut Page, statement: &InitialStatement) {
    open_at(page, initial_word(&statement.kind), statement.place);
    show_initial_parts(page, &statement.kind);
    page.close()
}

fn initial_word(kind: &InitialKind) -> &'static str {
    match kind {
        InitialKind::Assign(_, _) => "=",
        InitialKind::AssignIndex(_, _, _) => "select=",
        InitialKind::For(_) => "for",
        InitialKind::Block(_, _) => "begin",
    }
}

#[cycle(initial)]
fn show_initial_parts(page: &mut Page, kind: &InitialKind) {
    match kind {
        InitialKind::Assign(ident, value) => {
            show_ident(page, ident);
            show_expr(page, value)
        }
        InitialKind::AssignIndex(ident, index, value) => {
            show_ident(page, ident);
            show_expr(page, index);
            show_expr(page, value)
        }
        InitialKind::For(parts) => {
            show_header(page, parts);
            show_initial(page, parts.body.get())
        }
        InitialKind::Block(label, statements) => {
            show_label(page, label);
            show_initials(page, statements.as_slice())
        }
    }
}

#[cycle(initial)]
fn show_initials(page: &mut Page, statements: &[InitialStatement]) {
    for statement in statements {
        show_initial(page, statement);
    }
}

/// What stands in the parentheses of a `for`.
fn show_header(page: &mut Page, parts: &ForLoop) {
    page.open("=");
    show_ident(page, &parts.index);
    show_expr(page, &parts.start);
    page.close();
    page.open(if parts.inclusive { "<=" } else { "<" });
    show_ident(page, &parts.tested);
    show_expr(page, &parts.bound);
    page.close();
    page.open("+");
    show_ident(page, &parts.stepped);
    show_ident(page, &parts.from);
    show_number(page, &parts.step);
    page.close()
}
