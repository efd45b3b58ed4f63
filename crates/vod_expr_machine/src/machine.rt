//! Expressions read token by token: what was begun, and what was read last.
ghost use Rattle.std.specs.Prelude.{◌≡◌, true, Some, None, ◌∷◌, ◌++◌, [], IfOk, OnOk, MatchOption};
ghost use Rattle.vod_token.specs.Span.{IsTokenText};
ghost use Rattle.vod_expr_machine.specs.Lexeme.{at};
ghost use Rattle.vod_expr_machine.specs.Numerals.{number_of};
ghost use Rattle.vod_tree.specs.declared.expr.ExprKind.TheVariants as e;
ghost use Rattle.vod_expr_machine.specs.Operators.{tight};
ghost use Rattle.vod_expr_machine.specs.Machine.{reduce, reduced, machine, whole, opened, ended, at_close_paren, at_close_bracket, at_comma, at_colon, at_open_brace, at_close_brace, at_part, level_at, behind, followed, preceded, on_operand, named, outer, on_mark, on_operator, on_symbol, mark_of, start, step};
ghost use Rattle.vod_expr_machine.specs.declared.machine.Head.TheVariants.{Wanted, Named, Whole, Outer};
ghost use Rattle.vod_expr_machine.specs.declared.machine.Frame.TheVariants.{Call, Concat, Replicate};
ghost use Rattle.vod_expr_machine.specs.View.{frames_of, state_of, binds, taken_place, taken_kind, Rests, Gives};

use crate::number::number_of;
use crate::word::{Mark, binary_of, mark_of, unary_of};
use sqlite_items::{Boxed, Items};
use std::alloc::{AllocError, Global};
use vod_token::TokenKind;
use vod_tree::{BinaryOp, Expr, ExprKind, Ident, Name, UnaryOp, let_go};

/// A part that was begun and isn't whole.
#[derive(Drop)]
pub enum Frame {
    /// An operator before a primary, and its place.
    Prefix(u32, UnaryOp),
    /// A left operand, its place and the operator behind it.
    Left(u32, ExprKind, BinaryOp),
    /// What stands before `?`.
    Chosen(u32, ExprKind),
    /// What stands before `?` and before `:`.
    Otherwise(u32, ExprKind, Expr),
    /// `(`
    Paren(u32),
    /// `NAME [`
    Index(Ident),
    /// `NAME [ expr :`
    Range(Ident, Expr),
    /// `NAME (` and the arguments so far.
    Call(Ident, Items<Expr>),
    /// `{` before its first part.
    Brace(u32),
    /// `{` and the parts so far.
    Concat(u32, Items<Expr>),
    /// `{ expr {` and the parts so far.
    Replicate(u32, Expr, Items<Expr>),
}

/// What was read last.
#[derive(Drop)]
pub enum Head {
    /// Nothing of an operand yet.
    Wanted,
    /// An operator that wants a primary.
    Bare,
    /// A name, behind which `[` or `(` may stand.
    Named(Ident),
    /// A whole expression.
    Whole(u32, ExprKind),
    /// A replication up to its inner `}`.
    Outer(u32, Expr, Items<Expr>),
}

/// An expression as far as it was read.
#[derive(Drop)]
pub struct Reader {
    head: Head,
    frames: Items<Frame>,
}

// How tightly an operator binds (IEEE 1364-2005, 5.1.2).
fn tight(op: BinaryOp) -> u8
    ensures { result ≡ tight op }
{
    match op {
        BinaryOp::Mul => 10,
        BinaryOp::Add | BinaryOp::Sub => 9,
        BinaryOp::ShiftLeft
        | BinaryOp::ShiftRight
        | BinaryOp::ArithmeticLeft
        | BinaryOp::ArithmeticRight => 8,
        BinaryOp::Less | BinaryOp::LessEqual | BinaryOp::Greater | BinaryOp::GreaterEqual => 7,
        BinaryOp::Equal | BinaryOp::NotEqual | BinaryOp::CaseEqual | BinaryOp::CaseNotEqual => 6,
        BinaryOp::And => 5,
        BinaryOp::Xor | BinaryOp::Xnor | BinaryOp::XorNot => 4,
        BinaryOp::Or => 3,
        BinaryOp::LogicalAnd => 2,
        BinaryOp::LogicalOr => 1,
    }
}

// How tightly what stands before a mark must bind.
fn level_at(mark: Mark) -> u8
    ensures { result ≡ level_at mark }
{
    match mark {
        Mark::Question => 1,
        _ => 0,
    }
}

// Whether the frame takes in an expression of a level.
fn binds(frame: &Frame, level: u8) -> bool
    ensures { result ≡ binds level frame.now }
{
    match frame {
        Frame::Prefix(..) => true,
        Frame::Left(_, _, op) => level <= tight(*op),
        Frame::Otherwise(..) => level == 0,
        _ => false,
    }
}

// An operator before its operand.
fn prefixed(alloc: Global, op: UnaryOp, operand: Expr) -> Result<ExprKind, AllocError>
    ensures { IfOk result (λ x. x ≡ e.Unary op operand) }
{
    let operand = Boxed::new(alloc, operand)?;
    Ok(ExprKind::Unary(op, operand))
}

// Two parts, each in a box.
fn boxed(alloc: Global, first: Expr, second: Expr) -> Result<(Boxed<Expr>, Boxed<Expr>), AllocError>
    ensures { IfOk result (λ x. (x.0 ≡ first) × (x.1 ≡ second)) }
{
    match Boxed::new(alloc, first) {
        Ok(first) => {
            let second = Boxed::new(alloc, second)?;
            Ok((first, second))
        }
        Err(fault) => {
            let_go(second);
            Err(fault)
        }
    }
}

// The parts so far and a further one.
fn with_part(parts: Items<Expr>, last: Expr) -> Result<Items<Expr>, AllocError>
    ensures { IfOk result (λ x. x ≡ parts ++ last ∷ []) }
{
    let mut parts = parts;
    parts.push(last)?;
    Ok(parts)
}

// An operator between its operands.
fn joined(alloc: Global, left: Expr, op: BinaryOp, right: Expr) -> Result<ExprKind, AllocError>
    ensures { IfOk result (λ x. x ≡ e.Binary op left right) }
{
    let (left, right) = boxed(alloc, left, right)?;
    Ok(ExprKind::Binary(op, left, right))
}

// `?:` with its three parts.
fn chosen(
    alloc: Global,
    condition: Expr,
    then: Expr,
    otherwise: Expr,
) -> Result<ExprKind, AllocError>
    ensures { IfOk result (λ x. x ≡ e.Conditional condition then otherwise) }
{
    match boxed(alloc, condition, then) {
        Ok((condition, then)) => {
            let otherwise = Boxed::new(alloc, otherwise)?;
            Ok(ExprKind::Conditional(condition, then, otherwise))
        }
        Err(fault) => {
            let_go(otherwise);
            Err(fault)
        }
    }
}

// Where the expression begins that the frame and its last part are.
fn taken_place(frame: &Frame, place: u32) -> u32
    ensures { result ≡ taken_place place frame.now }
{
    match frame {
        Frame::Prefix(at, _) | Frame::Left(at, ..) | Frame::Otherwise(at, ..) => *at,
        _ => place,
    }
}

// That expression.
fn taken(alloc: Global, frame: Frame, place: u32, kind: ExprKind) -> Result<ExprKind, AllocError>
    ensures { IfOk result (λ x. x ≡ taken_kind place kind frame) }
{
    match frame {
        Frame::Prefix(_, op) => prefixed(alloc, op, Expr { place, kind }),
        Frame::Left(at, left, op) => joined(
            alloc,
            Expr {
                place: at,
                kind: left,
            },
            op,
            Expr { place, kind },
        ),
        Frame::Otherwise(at, condition, then) => chosen(
            alloc,
            Expr {
                place: at,
                kind: condition,
            },
            then,
            Expr { place, kind },
        ),
        other => {
            let_go(other);
            Ok(kind)
        }
    }
}

impl Reader {
    // The head becomes this one.
    fn put_head(&mut self, head: Head)
        ensures head { self.new.head ≡ head }
        ensures frames { frames_of self.new ≡ frames_of self.old }
    {
        let_go(std::mem::replace(&mut self.head, head));
    }

    fn push(&mut self, frame: Frame) -> Result<(), AllocError>
        ensures frames { OnOk result (frames_of self.new ≡ frame ∷ frames_of self.old) }
        ensures head { self.new.head ≡ self.old.head }
    {
        self.frames.push(frame)
    }

    fn pop(&mut self) -> Option<Frame>
        ensures frames { MatchOption result ((frames_of self.old ≡ []) × (frames_of self.new ≡ [])) (λ frame. frames_of self.old ≡ frame ∷ frames_of self.new) }
        ensures head { self.new.head ≡ self.old.head }
    {
        self.frames.pop()
    }

    // Takes the last frame where it takes in an expression of a level.
    fn pop_binding(&mut self, level: u8) -> Result<Option<Frame>, AllocError>
        ensures { IfOk result (λ o. MatchOption o ((frames_of self.new ≡ frames_of self.old) × Rests level (frames_of self.old)) (λ frame. (frames_of self.old ≡ frame ∷ frames_of self.new) × (binds level frame ≡ true))) }
    {
        match self.pop() {
            None => Ok(None),
            Some(frame) if binds(&frame, level) => Ok(Some(frame)),
            Some(frame) => {
                self.push(frame)?;
                Ok(None)
            }
        }
    }

    // Takes an expression into the frames that bind at least as tightly as a level.
    fn reduce(
        &mut self,
        alloc: Global,
        level: u8,
        place: u32,
        kind: ExprKind,
    ) -> Result<(u32, ExprKind), AllocError>
        ensures { IfOk result (λ x. reduce level (frames_of self.old) place kind ≡ reduced (frames_of self.new) x.0 x.1) }
    {
        let mut begin = place;
        let mut tree = kind;
        loop {
            match self.pop_binding(level) {
                Ok(Some(frame)) => {
                    let outer = taken_place(&frame, begin);
                    tree = taken(alloc, frame, begin, tree)?;
                    begin = outer;
                }
                Ok(None) => return Ok((begin, tree)),
                Err(fault) => {
                    let_go(tree);
                    return Err(fault);
                }
            }
        }
    }

    // A part begins, in which an operand is wanted.
    fn begin(&mut self, frame: Frame) -> Result<bool, AllocError>
        ensures { Gives result (Some (machine Wanted (frame ∷ frames_of self.old))) None self.new }
    {
        self.push(frame)?;
        self.put_head(Head::Wanted);
        Ok(true)
    }

    // An expression is whole.
    fn whole(&mut self, place: u32, kind: ExprKind) -> Result<bool, AllocError>
        ensures { Gives result (whole (frames_of self.old) place kind) None self.new }
    {
        self.put_head(Head::Whole(place, kind));
        Ok(true)
    }

    // A mark where an operand is wanted.
    fn opened(&mut self, mark: Mark, place: u32) -> Result<bool, AllocError>
        requires { ended self.old.head (frames_of self.old) ≡ None }
        ensures { Gives result (opened mark (frames_of self.old) place) None self.new }
    {
        match mark {
            Mark::OpenParen => self.begin(Frame::Paren(place)),
            Mark::OpenBrace => self.begin(Frame::Brace(place)),
            _ => Ok(false),
        }
    }

    // Nothing goes on behind the expression in this frame.
    fn put_back(&mut self, frame: Frame, place: u32, kind: ExprKind) -> Result<bool, AllocError>
        ensures { Gives result None (ended (Whole place kind) (frame ∷ frames_of self.old)) self.new }
    {
        if let Err(fault) = self.push(frame) {
            let_go(kind);
            return Err(fault);
        }
        self.put_head(Head::Whole(place, kind));
        Ok(false)
    }

    // `( expr )` is whole.
    fn paren(&mut self, alloc: Global, place: u32, part: Expr) -> Result<bool, AllocError>
        ensures { Gives result (whole (frames_of self.old) place (e.Paren part)) None self.new }
    {
        let part = Boxed::new(alloc, part)?;
        self.whole(place, ExprKind::Paren(part))
    }

    // `NAME ( expr, .. )` is whole.
    fn call(&mut self, name: Ident, parts: Items<Expr>, last: Expr) -> Result<bool, AllocError>
        ensures { Gives result (whole (frames_of self.old) name.place (e.Call name (parts ++ last ∷ []))) None self.new }
    {
        let parts = with_part(parts, last)?;
        self.whole(name.place, ExprKind::Call(name, parts))
    }

    // `)` behind an expression in a frame.
    fn close_paren(
        &mut self,
        alloc: Global,
        frame: Frame,
        place: u32,
        kind: ExprKind,
    ) -> Result<bool, AllocError>
        ensures { Gives result (at_close_paren (frame ∷ frames_of self.old) (at place kind)) (ended (Whole place kind) (frame ∷ frames_of self.old)) self.new }
    {
        match frame {
            Frame::Paren(at) => self.paren(alloc, at, Expr { place, kind }),
            Frame::Call(name, parts) => self.call(name, parts, Expr { place, kind }),
            other => self.put_back(other, place, kind),
        }
    }

    // `NAME [ expr ]` is whole.
    fn index(&mut self, alloc: Global, name: Ident, part: Expr) -> Result<bool, AllocError>
        ensures { Gives result (whole (frames_of self.old) name.place (e.Index name part)) None self.new }
    {
        let part = Boxed::new(alloc, part)?;
        self.whole(name.place, ExprKind::Index(name, part))
    }

    // `NAME [ expr : expr ]` is whole.
    fn range(
        &mut self,
        alloc: Global,
        name: Ident,
        first: Expr,
        last: Expr,
    ) -> Result<bool, AllocError>
        ensures { Gives result (whole (frames_of self.old) name.place (e.Range name first last)) None self.new }
    {
        let (first, last) = boxed(alloc, first, last)?;
        self.whole(name.place, ExprKind::Range(name, first, last))
    }

    // A further argument is wanted.
    fn next_argument(
        &mut self,
        name: Ident,
        parts: Items<Expr>,
        last: Expr,
    ) -> Result<bool, AllocError>
        ensures { Gives result (Some (machine Wanted (Call name (parts ++ last ∷ []) ∷ frames_of self.old))) None self.new }
    {
        let parts = with_part(parts, last)?;
        self.begin(Frame::Call(name, parts))
    }

    // A further part of a concatenation is wanted.
    fn next_part(&mut self, place: u32, parts: Items<Expr>, last: Expr) -> Result<bool, AllocError>
        ensures { Gives result (Some (machine Wanted (Concat place (parts ++ last ∷ []) ∷ frames_of self.old))) None self.new }
    {
        let parts = with_part(parts, last)?;
        self.begin(Frame::Concat(place, parts))
    }

    // A further part of a replication is wanted.
    fn next_repeated(
        &mut self,
        place: u32,
        count: Expr,
        parts: Items<Expr>,
        last: Expr,
    ) -> Result<bool, AllocError>
        ensures { Gives result (Some (machine Wanted (Replicate place count (parts ++ last ∷ []) ∷ frames_of self.old))) None self.new }
    {
        match with_part(parts, last) {
            Ok(parts) => self.begin(Frame::Replicate(place, count, parts)),
            Err(fault) => {
                let_go(count);
                Err(fault)
            }
        }
    }

    // `{ expr, .. }` is whole.
    fn concat(&mut self, place: u32, parts: Items<Expr>, last: Expr) -> Result<bool, AllocError>
        ensures { Gives result (whole (frames_of self.old) place (e.Concat (parts ++ last ∷ []))) None self.new }
    {
        let parts = with_part(parts, last)?;
        self.whole(place, ExprKind::Concat(parts))
    }

    // The inner `}` of a replication.
    fn inner(
        &mut self,
        place: u32,
        count: Expr,
        parts: Items<Expr>,
        last: Expr,
    ) -> Result<bool, AllocError>
        ensures { Gives result (Some (machine (Outer place count (parts ++ last ∷ [])) (frames_of self.old))) None self.new }
    {
        match with_part(parts, last) {
            Ok(parts) => {
                self.put_head(Head::Outer(place, count, parts));
                Ok(true)
            }
            Err(fault) => {
                let_go(count);
                Err(fault)
            }
        }
    }

    // `]` behind an expression in a frame.
    fn close_bracket(
        &mut self,
        alloc: Global,
        frame: Frame,
        place: u32,
        kind: ExprKind,
    ) -> Result<bool, AllocError>
        ensures { Gives result (at_close_bracket (frame ∷ frames_of self.old) (at place kind)) (ended (Whole place kind) (frame ∷ frames_of self.old)) self.new }
    {
        match frame {
            Frame::Index(name) => self.index(alloc, name, Expr { place, kind }),
            Frame::Range(name, first) => self.range(alloc, name, first, Expr { place, kind }),
            other => self.put_back(other, place, kind),
        }
    }

    // `,` behind an expression in a frame.
    fn comma(
        &mut self,
        alloc: Global,
        frame: Frame,
        place: u32,
        kind: ExprKind,
    ) -> Result<bool, AllocError>
        ensures { Gives result (at_comma (frame ∷ frames_of self.old) (at place kind)) (ended (Whole place kind) (frame ∷ frames_of self.old)) self.new }
    {
        match frame {
            Frame::Call(name, parts) => self.next_argument(name, parts, Expr { place, kind }),
            Frame::Brace(at) => self.next_part(at, Items::new(alloc), Expr { place, kind }),
            Frame::Concat(at, parts) => self.next_part(at, parts, Expr { place, kind }),
            Frame::Replicate(at, count, parts) => self.next_repeated(
                at,
                count,
                parts,
                Expr { place, kind },
            ),
            other => self.put_back(other, place, kind),
        }
    }

    // `:` behind an expression in a frame.
    fn colon(&mut self, frame: Frame, place: u32, kind: ExprKind) -> Result<bool, AllocError>
        ensures { Gives result (at_colon (frame ∷ frames_of self.old) (at place kind)) (ended (Whole place kind) (frame ∷ frames_of self.old)) self.new }
    {
        match frame {
            Frame::Chosen(at, condition) => self.begin(Frame::Otherwise(
                at,
                condition,
                Expr { place, kind },
            )),
            Frame::Index(name) => self.begin(Frame::Range(name, Expr { place, kind })),
            other => self.put_back(other, place, kind),
        }
    }

    // `{` behind an expression in a frame.
    fn open_brace(
        &mut self,
        alloc: Global,
        frame: Frame,
        place: u32,
        kind: ExprKind,
    ) -> Result<bool, AllocError>
        ensures { Gives result (at_open_brace (frame ∷ frames_of self.old) (at place kind)) (ended (Whole place kind) (frame ∷ frames_of self.old)) self.new }
    {
        match frame {
            Frame::Brace(at) => self.begin(Frame::Replicate(
                at,
                Expr { place, kind },
                Items::new(alloc),
            )),
            other => self.put_back(other, place, kind),
        }
    }

    // `}` behind an expression in a frame.
    fn close_brace(
        &mut self,
        alloc: Global,
        frame: Frame,
        place: u32,
        kind: ExprKind,
    ) -> Result<bool, AllocError>
        ensures { Gives result (at_close_brace (frame ∷ frames_of self.old) (at place kind)) (ended (Whole place kind) (frame ∷ frames_of self.old)) self.new }
    {
        match frame {
            Frame::Brace(at) => self.concat(at, Items::new(alloc), Expr { place, kind }),
            Frame::Concat(at, parts) => self.concat(at, parts, Expr { place, kind }),
            Frame::Replicate(at, count, parts) => self.inner(
                at,
                count,
                parts,
                Expr { place, kind },
            ),
            other => self.put_back(other, place, kind),
        }
    }

    // A mark behind an expression in a frame.
    #[tactic(auto, unfolding(crate::specs::Machine::at_part))]
    fn part_in(
        &mut self,
        alloc: Global,
        mark: Mark,
        frame: Frame,
        place: u32,
        kind: ExprKind,
    ) -> Result<bool, AllocError>
        ensures { Gives result (at_part mark (reduced (frame ∷ frames_of self.old) place kind)) (ended (Whole place kind) (frame ∷ frames_of self.old)) self.new }
    {
        match mark {
            Mark::Question => {
                if let Err(fault) = self.push(frame) {
                    let_go(kind);
                    return Err(fault);
                }
                self.begin(Frame::Chosen(place, kind))
            }
            Mark::Colon => self.colon(frame, place, kind),
            Mark::Comma => self.comma(alloc, frame, place, kind),
            Mark::CloseParen => self.close_paren(alloc, frame, place, kind),
            Mark::CloseBracket => self.close_bracket(alloc, frame, place, kind),
            Mark::CloseBrace => self.close_brace(alloc, frame, place, kind),
            Mark::OpenBrace => self.open_brace(alloc, frame, place, kind),
            Mark::OpenParen | Mark::OpenBracket => self.put_back(frame, place, kind),
        }
    }

    // A mark behind an expression in no frame.
    #[tactic(auto, unfolding(crate::specs::Machine::at_part))]
    fn part_alone(&mut self, mark: Mark, place: u32, kind: ExprKind) -> Result<bool, AllocError>
        requires { frames_of self.old ≡ [] }
        ensures { Gives result (at_part mark (reduced [] place kind)) (ended (Whole place kind) []) self.new }
    {
        match mark {
            Mark::Question => self.begin(Frame::Chosen(place, kind)),
            _ => {
                self.put_head(Head::Whole(place, kind));
                Ok(false)
            }
        }
    }

    // A mark behind an expression.
    #[tactic(auto, using(crate::proofs::Reducing::ended_reduced))]
    fn behind(
        &mut self,
        alloc: Global,
        mark: Mark,
        place: u32,
        kind: ExprKind,
    ) -> Result<bool, AllocError>
        ensures { Gives result (behind mark (frames_of self.old) place kind) (ended (Whole place kind) (frames_of self.old)) self.new }
    {
        let (begin, tree) = self.reduce(alloc, level_at(mark), place, kind)?;
        match self.pop() {
            None => self.part_alone(mark, begin, tree),
            Some(frame) => self.part_in(alloc, mark, frame, begin, tree),
        }
    }

    // An operator behind an expression.
    fn followed(
        &mut self,
        alloc: Global,
        op: Option<BinaryOp>,
        place: u32,
        kind: ExprKind,
    ) -> Result<bool, AllocError>
        ensures { Gives result (followed (frames_of self.old) place kind op) (ended (Whole place kind) (frames_of self.old)) self.new }
    {
        match op {
            Some(op) => {
                let (begin, tree) = self.reduce(alloc, tight(op), place, kind)?;
                self.begin(Frame::Left(begin, tree, op))
            }
            None => {
                self.put_head(Head::Whole(place, kind));
                Ok(false)
            }
        }
    }

    // An operator where an operand is wanted.
    fn preceded(&mut self, op: Option<UnaryOp>, place: u32) -> Result<bool, AllocError>
        requires { ended self.old.head (frames_of self.old) ≡ None }
        ensures { Gives result (preceded (frames_of self.old) place op) None self.new }
    {
        match op {
            Some(op) => {
                self.push(Frame::Prefix(place, op))?;
                self.put_head(Head::Bare);
                Ok(true)
            }
            None => Ok(false),
        }
    }

    // A name or a number comes, which makes this head.
    #[tactic(auto, unfolding(crate::specs::Machine::on_operand))]
    fn operand(&mut self, head: Head) -> Result<bool, AllocError>
        ensures { Gives result (on_operand self.old.head (frames_of self.old) head) (ended self.old.head (frames_of self.old)) self.new }
    {
        match &self.head {
            Head::Wanted | Head::Bare => {
                self.put_head(head);
                Ok(true)
            }
            _ => {
                let_go(head);
                Ok(false)
            }
        }
    }

    // A mark behind a name.
    #[tactic(auto, unfolding(crate::specs::Machine::ended))]
    fn named(&mut self, alloc: Global, mark: Mark, name: Ident) -> Result<bool, AllocError>
        ensures { Gives result (named mark (frames_of self.old) name) (ended (Named name) (frames_of self.old)) self.new }
    {
        match mark {
            Mark::OpenParen => self.begin(Frame::Call(name, Items::new(alloc))),
            Mark::OpenBracket => self.begin(Frame::Index(name)),
            _ => {
                let place = name.place;
                self.behind(alloc, mark, place, ExprKind::Name(name))
            }
        }
    }

    // A mark behind the inner `}` of a replication.
    fn outer(
        &mut self,
        alloc: Global,
        mark: Mark,
        place: u32,
        count: Expr,
        parts: Items<Expr>,
    ) -> Result<bool, AllocError>
        requires { ended self.old.head (frames_of self.old) ≡ None }
        ensures { Gives result (outer mark (frames_of self.old) place count parts) None self.new }
    {
        match mark {
            Mark::CloseBrace => {
                let count = match Boxed::new(alloc, count) {
                    Ok(count) => count,
                    Err(fault) => {
                        let_go(parts);
                        return Err(fault);
                    }
                };
                self.whole(place, ExprKind::Replicate(count, parts))
            }
            _ => {
                let_go(count);
                let_go(parts);
                Ok(false)
            }
        }
    }

    // The head, in whose place an operand is wanted.
    #[tactic(auto, unfolding(crate::specs::Machine::ended))]
    fn take_head(&mut self) -> Head
        ensures head { result ≡ self.old.head }
        ensures frames { frames_of self.new ≡ frames_of self.old }
        ensures wanted { self.new.head ≡ Wanted }
        ensures ended { ended self.new.head (frames_of self.new) ≡ None }
    {
        std::mem::replace(&mut self.head, Head::Wanted)
    }

    // A mark comes, at its place.
    #[tactic(auto, unfolding(crate::specs::Machine::ended, crate::specs::Machine::on_mark))]
    fn mark(&mut self, alloc: Global, mark: Mark, place: u32) -> Result<bool, AllocError>
        ensures { Gives result (on_mark self.old.head (frames_of self.old) place mark) (ended self.old.head (frames_of self.old)) self.new }
    {
        match self.take_head() {
            Head::Wanted | Head::Bare => self.opened(mark, place),
            Head::Named(name) => self.named(alloc, mark, name),
            Head::Whole(begin, kind) => self.behind(alloc, mark, begin, kind),
            Head::Outer(begin, count, parts) => self.outer(alloc, mark, begin, count, parts),
        }
    }

    // An operator behind a name.
    #[tactic(auto, unfolding(crate::specs::Machine::ended))]
    fn named_followed(
        &mut self,
        alloc: Global,
        op: Option<BinaryOp>,
        name: Ident,
    ) -> Result<bool, AllocError>
        ensures { Gives result (followed (frames_of self.old) name.place (e.Name name) op) (ended (Named name) (frames_of self.old)) self.new }
    {
        let place = name.place;
        self.followed(alloc, op, place, ExprKind::Name(name))
    }

    // An operator comes, at its place.
    #[tactic(auto, unfolding(crate::specs::Machine::ended, crate::specs::Machine::on_operator))]
    fn operator(&mut self, alloc: Global, text: &[u8], place: u32) -> Result<bool, AllocError>
        ensures { Gives result (on_operator self.old.head (frames_of self.old) place text.now) (ended self.old.head (frames_of self.old)) self.new }
    {
        match self.take_head() {
            Head::Wanted => self.preceded(unary_of(text), place),
            Head::Named(name) => self.named_followed(alloc, binary_of(text), name),
            Head::Whole(begin, kind) => self.followed(alloc, binary_of(text), begin, kind),
            Head::Bare => Ok(false),
            Head::Outer(_, count, parts) => {
                let_go(count);
                let_go(parts);
                Ok(false)
            }
        }
    }

    // A symbol comes, at its place.
    fn symbol(&mut self, alloc: Global, text: &[u8], place: u32) -> Result<bool, AllocError>
        ensures { Gives result (on_symbol (state_of self.old) place text.now (mark_of text.now)) (ended self.old.head (frames_of self.old)) self.new }
    {
        match mark_of(text) {
            Some(mark) => self.mark(alloc, mark, place),
            None => self.operator(alloc, text, place),
        }
    }

    // The tree, where nothing is begun around this expression.
    #[tactic(auto, unfolding(crate::specs::Machine::ended))]
    fn alone(
        &mut self,
        alloc: Global,
        place: u32,
        kind: ExprKind,
    ) -> Result<Option<Expr>, AllocError>
        ensures { IfOk result (λ o. o ≡ ended (Whole place kind) (frames_of self.old)) }
    {
        let (begin, tree) = self.reduce(alloc, 0, place, kind)?;
        match self.pop() {
            None => Ok(Some(Expr {
                place: begin,
                kind: tree,
            })),
            Some(frame) => {
                let_go(frame);
                let_go(tree);
                Ok(None)
            }
        }
    }

    /// The tree of the tokens so far, where they are an expression.
    #[tactic(auto, unfolding(crate::specs::Machine::ended))]
    pub fn ended(&mut self, alloc: Global) -> Result<Option<Expr>, AllocError>
        ensures { IfOk result (λ o. o ≡ ended self.old.head (frames_of self.old)) }
    {
        match self.take_head() {
            Head::Named(name) => {
                let place = name.place;
                self.alone(alloc, place, ExprKind::Name(name))
            }
            Head::Whole(place, kind) => self.alone(alloc, place, kind),
            Head::Wanted | Head::Bare => Ok(None),
            Head::Outer(_, count, parts) => {
                let_go(count);
                let_go(parts);
                Ok(None)
            }
        }
    }

    /// Before any token.
    pub fn new(alloc: Global) -> Reader
        ensures { state_of result ≡ start }
    {
        Reader {
            head: Head::Wanted,
            frames: Items::new(alloc),
        }
    }

    // A name comes, at its place.
    fn name(&mut self, alloc: Global, text: &[u8], place: u32) -> Result<bool, AllocError>
        ensures { Gives result (on_operand self.old.head (frames_of self.old) (Named (record { place = place; name = text.now }))) (ended self.old.head (frames_of self.old)) self.new }
    {
        let name = Name::from_slice(alloc, text)?;
        self.operand(Head::Named(Ident { place, name }))
    }

    /// A token comes, at its place. Says whether some expression goes on with it; where none does, the tree of the tokens before it
    /// stays.
    #[tactic(auto, unfolding(crate::specs::Machine::on_kind))]
    pub fn step(
        &mut self,
        alloc: Global,
        kind: TokenKind,
        text: &[u8],
        place: u32,
    ) -> Result<bool, AllocError>
        requires { IsTokenText text.now kind }
        ensures { Gives result (step number_of (state_of self.old) (record { kind = kind; text = text.now; place = place })) (ended self.old.head (frames_of self.old)) self.new }
    {
        match kind {
            TokenKind::Name => self.name(alloc, text, place),
            TokenKind::Number => {
                let number = number_of(text, place);
                self.operand(Head::Whole(place, ExprKind::Number(number)))
            }
            TokenKind::Symbol => self.symbol(alloc, text, place),
            TokenKind::Reserved | TokenKind::Directive => Ok(false),
        }
    }
}
