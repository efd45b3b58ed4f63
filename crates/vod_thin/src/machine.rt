//! Expressions read token by token: what was begun, and the operand that was read last.
ghost use Rattle.std.specs.Prelude.{◌≡◌, nat_le, IfOk, OnOk, MatchOption, ◌∷◌, [], Some, None, true};
ghost use Rattle.vod_thin_design.specs.declared.thin.Expr.TheVariants as expr;
ghost use Rattle.vod_thin.specs.Machine.{tight, combined, reduce, settled, closed, on_close, on_operator, on_word, start, machine, last_of};
ghost use Rattle.vod_thin.specs.MachineView.{machine_of, frames_of, binds, taken_in, RestsAt};

use crate::let_go;
use sqlite_items::{Boxed, Items};
use std::alloc::{AllocError, Global};
use vod_thin_design::Expr;
use vod_thin_syntax::Word;

/// An operator of two operands.
#[derive(Clone, Copy, PartialEq, Eq)]
pub(crate) enum Operator {
    And,
    Xor,
    Or,
}

/// A part that was begun and isn't whole.
#[derive(Drop)]
pub(crate) enum Frame {
    /// `~`
    Inverted,
    /// `(`
    Opened,
    /// An operator behind its left operand.
    Left(Operator, Expr),
}

/// An expression as far as it was read: what was begun, the last on top, and the operand that was read last.
#[derive(Drop)]
pub(crate) struct Machine {
    frames: Items<Frame>,
    last: Expr,
}

// How strongly an operator binds (IEEE 1364-2005, 5.1.2).
fn tight(operator: Operator) -> u8
    ensures { result ≡ tight operator }
{
    match operator {
        Operator::And => 2,
        Operator::Xor => 1,
        Operator::Or => 0,
    }
}

// Whether the frame takes in an operand before which this level stands.
fn binds(frame: &Frame, level: u8) -> bool
    ensures { result ≡ binds level frame.now }
{
    match frame {
        Frame::Left(operator, _) => level <= tight(*operator),
        Frame::Inverted | Frame::Opened => false,
    }
}

// An operator between its operands.
fn combined(alloc: Global, operator: Operator, left: Expr, right: Expr) -> Result<Expr, AllocError>
    ensures { IfOk result (λ e. e ≡ combined operator left right) }
{
    let left = match Boxed::new(alloc, left) {
        Ok(left) => left,
        Err(fault) => {
            let_go(right);
            return Err(fault);
        }
    };
    let right = Boxed::new(alloc, right)?;
    Ok(match operator {
        Operator::And => Expr::And(left, right),
        Operator::Xor => Expr::Xor(left, right),
        Operator::Or => Expr::Or(left, right),
    })
}

impl Machine {
    fn push(&mut self, frame: Frame) -> Result<(), AllocError>
        ensures frames { OnOk result (frames_of self.new ≡ frame ∷ frames_of self.old) }
        ensures last { self.new.last ≡ self.old.last }
    {
        self.frames.push(frame)
    }

    fn pop(&mut self) -> Option<Frame>
        ensures frames { MatchOption result ((frames_of self.old ≡ []) × (frames_of self.new ≡ [])) (λ frame. frames_of self.old ≡ frame ∷ frames_of self.new) }
        ensures last { self.new.last ≡ self.old.last }
    {
        self.frames.pop()
    }

    // Takes the last frame where it takes in an operand at a level.
    fn pop_binding(&mut self, level: u8) -> Result<Option<Frame>, AllocError>
        ensures frames { IfOk result (λ o. MatchOption o ((frames_of self.new ≡ frames_of self.old) × RestsAt level (frames_of self.old)) (λ frame. (frames_of self.old ≡ frame ∷ frames_of self.new) × (binds level frame ≡ true))) }
        ensures last { self.new.last ≡ self.old.last }
    {
        match self.pop() {
            None => Ok(None),
            Some(frame) if binds(&frame, level) => Ok(Some(frame)),
            Some(frame) => {
                self.push(frame)?;
                Ok(None)
            }
        }
    }

    fn take_last(&mut self) -> Expr
        ensures taken { result ≡ self.old.last }
        ensures machine { machine_of self.new ≡ machine (frames_of self.old) (expr.Signal 0) }
    {
        std::mem::replace(&mut self.last, Expr::Signal(0))
    }

    // The operand that was read last becomes this one.
    fn put_last(&mut self, last: Expr)
        ensures last { self.new.last ≡ last }
        ensures frames { frames_of self.new ≡ frames_of self.old }
    {
        let_go(std::mem::replace(&mut self.last, last));
    }

    // The last operand becomes the right one of what is before it.
    fn take_in(&mut self, alloc: Global, frame: Frame) -> Result<(), AllocError>
        ensures { OnOk result (machine_of self.new ≡ machine (frames_of self.old) (taken_in frame self.old.last)) }
    {
        match frame {
            Frame::Left(operator, left) => {
                let right = self.take_last();
                let whole = combined(alloc, operator, left, right)?;
                self.put_last(whole);
                Ok(())
            }
            Frame::Inverted | Frame::Opened => Ok(()),
        }
    }

    // Takes the last operand into the left ones whose operators bind at least so strongly.
    fn reduce(&mut self, alloc: Global, level: u8) -> Result<(), AllocError>
        ensures { OnOk result (machine_of self.new ≡ reduce level (frames_of self.old) self.old.last) }
    {
        while let Some(frame) = self.pop_binding(level)? {
            self.take_in(alloc, frame)?;
        }
        Ok(())
    }

    // An operand is whole.
    fn settle(&mut self, alloc: Global, operand: Expr) -> Result<(), AllocError>
        ensures { OnOk result (machine_of self.new ≡ settled (frames_of self.old) operand) }
    {
        match self.pop() {
            Some(Frame::Inverted) => {
                let operand = Boxed::new(alloc, operand)?;
                self.put_last(Expr::Not(operand));
                Ok(())
            }
            Some(frame) => {
                self.put_last(operand);
                self.push(frame)
            }
            None => {
                self.put_last(operand);
                Ok(())
            }
        }
    }

    // The last operand stands before `)`.
    fn close(&mut self, alloc: Global) -> Result<(), AllocError>
        ensures { OnOk result (machine_of self.new ≡ closed (frames_of self.old) self.old.last) }
    {
        match self.pop() {
            Some(Frame::Opened) => {
                let operand = self.take_last();
                self.settle(alloc, operand)
            }
            Some(frame) => self.push(frame),
            None => Ok(()),
        }
    }

    fn operator(&mut self, alloc: Global, operator: Operator) -> Result<(), AllocError>
        ensures { OnOk result (machine_of self.new ≡ on_operator operator (reduce (tight operator) (frames_of self.old) self.old.last)) }
    {
        self.reduce(alloc, tight(operator))?;
        let left = self.take_last();
        self.push(Frame::Left(operator, left))
    }

    /// Before any token.
    pub(crate) fn new(alloc: Global) -> Machine
        ensures { machine_of result ≡ start }
    {
        Machine {
            frames: Items::new(alloc),
            last: Expr::Signal(0),
        }
    }

    /// A signal comes.
    pub(crate) fn signal(&mut self, alloc: Global, number: u32) -> Result<(), AllocError>
        ensures { OnOk result (machine_of self.new ≡ settled (frames_of self.old) (expr.Signal number)) }
    {
        self.settle(alloc, Expr::Signal(number))
    }

    /// A word or a symbol comes.
    #[tactic(auto, unfolding(crate::specs::Machine::on_word))]
    pub(crate) fn word(&mut self, alloc: Global, word: Word) -> Result<(), AllocError>
        ensures { OnOk result (machine_of self.new ≡ on_word (machine_of self.old) word) }
    {
        match word {
            Word::Not => self.push(Frame::Inverted),
            Word::Open => self.push(Frame::Opened),
            Word::Close => {
                self.reduce(alloc, 0)?;
                self.close(alloc)
            }
            Word::And => self.operator(alloc, Operator::And),
            Word::Xor => self.operator(alloc, Operator::Xor),
            Word::Or => self.operator(alloc, Operator::Or),
            _ => Ok(()),
        }
    }

    /// The expression, behind its last token.
    pub(crate) fn ended(&mut self, alloc: Global) -> Result<Expr, AllocError>
        ensures { IfOk result (λ e. e ≡ last_of (reduce 0 (frames_of self.old) self.old.last)) }
    {
        self.reduce(alloc, 0)?;
        let whole = self.take_last();
        Ok(whole)
    }
}
