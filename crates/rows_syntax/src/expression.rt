//! Expressions: each node in parentheses, with its operator or kind, its place and its parts.
use crate::page::{open_at, show_ident, show_number};
use rows_text::Page;
use vod_tree::{BinaryOp, Expr, ExprKind, UnaryOp};

/// An expression.
#[cycle(expr)]
pub fn show_expr(page: &mut Page, expr: &Expr) {
    match &expr.kind {
        ExprKind::Number(number) => show_number(page, number),
        ExprKind::Name(ident) => show_ident(page, ident),
        compound => {
            open_at(page, word_of(compound), expr.place);
            show_parts(page, compound);
            page.close()
        }
    }
}

/// Expressions, one behind the other.
#[cycle(expr)]
pub fn show_exprs(page: &mut Page, exprs: &[Expr]) {
    for expr in exprs {
        show_expr(page, expr);
    }
}

#[cycle(expr)]
fn show_parts(page: &mut Page, kind: &ExprKind) {
    match kind {
        ExprKind::Number(_) | ExprKind::Name(_) => {}
        ExprKind::Index(ident, index) => {
            show_ident(page, ident);
            show_expr(page, index.get())
        }
        ExprKind::Range(ident, first, second) => {
            show_ident(page, ident);
            show_expr(page, first.get());
            show_expr(page, second.get())
        }
        ExprKind::Call(ident, arguments) => {
            show_ident(page, ident);
            show_exprs(page, arguments.as_slice())
        }
        ExprKind::Concat(parts) => show_exprs(page, parts.as_slice()),
        ExprKind::Replicate(count, parts) => {
            show_expr(page, count.get());
            show_exprs(page, parts.as_slice())
        }
        ExprKind::Paren(operand) | ExprKind::Unary(_, operand) => show_expr(page, operand.get()),
        ExprKind::Binary(_, left, right) => {
            show_expr(page, left.get());
            show_expr(page, right.get())
        }
        ExprKind::Conditional(test, taken, other) => {
            show_expr(page, test.get());
            show_expr(page, taken.get());
            show_expr(page, other.get())
        }
    }
}

/// The operator or the kind of a node.
fn word_of(kind: &ExprKind) -> &'static str {
    match kind {
        ExprKind::Number(_) => "number",
        ExprKind::Name(_) => "name",
        ExprKind::Index(_, _) => "select",
        ExprKind::Range(_, _, _) => "range",
        ExprKind::Call(_, _) => "call",
        ExprKind::Paren(_) => "paren",
        ExprKind::Concat(_) => "concat",
        ExprKind::Replicate(_, _) => "replicate",
        ExprKind::Unary(op, _) => unary_word(*op),
        ExprKind::Binary(op, _, _) => binary_word(*op),
        ExprKind::Conditional(_, _, _) => "?:",
    }
}

fn unary_word(op: UnaryOp) -> &'static str {
    match op {
        UnaryOp::Minus => "-",
        UnaryOp::LogicalNot => "!",
        UnaryOp::Not => "~",
        UnaryOp::And => "&",
        UnaryOp::Nand => "~&",
        UnaryOp::Or => "|",
        UnaryOp::Nor => "~|",
        UnaryOp::Xor => "^",
        UnaryOp::Xnor => "~^",
        UnaryOp::XorNot => "^~",
    }
}

fn binary_word(op: BinaryOp) -> &'static str {
    match op {
        BinaryOp::Mul => "*",
        BinaryOp::Add => "+",
        BinaryOp::Sub => "-",
        BinaryOp::ShiftLeft => "<<",
        BinaryOp::ShiftRight => ">>",
        BinaryOp::ArithmeticLeft => "<<<",
        BinaryOp::ArithmeticRight => ">>>",
        BinaryOp::Less => "<",
        BinaryOp::LessEqual => "<=",
        BinaryOp::Greater => ">",
        BinaryOp::GreaterEqual => ">=",
        BinaryOp::Equal => "==",
        BinaryOp::NotEqual => "!=",
        BinaryOp::CaseEqual => "===",
        BinaryOp::CaseNotEqual => "!==",
        BinaryOp::And => "&",
        BinaryOp::Xor => "^",
        BinaryOp::Xnor => "~^",
        BinaryOp::XorNot => "^~",
        BinaryOp::Or => "|",
        BinaryOp::LogicalAnd => "&&",
        BinaryOp::LogicalOr => "||",
    }
}
