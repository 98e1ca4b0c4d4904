//! Expressions, one word after the other.

ghost use Rattle.std.specs.Prelude.{◌≡◌, IfOk};
ghost use Rattle.ct_ppexpr.specs.Machine as m;
ghost use Rattle.ct_ppexpr.specs.Machine.{values};
ghost use Rattle.ct_ppexpr.specs.View.{frame_of, mode_of, stack, Stepped};

use crate::open::{Frame, Mode, Open};
use crate::values::{Value, choice_value, infix_value, unary_value};
use crate::words::{Infix, Mark, Word, infix_level};
use ct_base::{BinaryOp, Mem, UnaryOp};
use std::alloc::Global;

/// How far a mark behind an operand reaches back.
fn pull(mark: Mark) -> u8
    ensures { result ≡ m.pull mark }
{
    match mark {
        Mark::Infix(op) => infix_level(op),
        Mark::Question => 3,
        Mark::Open | Mark::Close | Mark::Colon | Mark::Tilde | Mark::Bang => 1,
    }
}

/// How tightly a frame holds the operand behind it.
fn holds(frame: Frame) -> u8
    ensures { result ≡ m.holds (frame_of frame) }
{
    match frame {
        Frame::Prefix(_) => 13,
        Frame::Between(op, _) => infix_level(op),
        Frame::Second(_, _) => 2,
        Frame::Paren | Frame::First(_) => 0,
    }
}

/// The operator before an operand that a mark is.
fn prefix_of(mark: Mark) -> Option<UnaryOp>
    ensures { result ≡ m.prefix_of mark }
{
    match mark {
        Mark::Infix(Infix::Compute(BinaryOp::Add)) => Some(UnaryOp::Plus),
        Mark::Infix(Infix::Compute(BinaryOp::Subtract)) => Some(UnaryOp::Minus),
        Mark::Tilde => Some(UnaryOp::Complement),
        Mark::Bang => Some(UnaryOp::Not),
        _ => None,
    }
}

/// A frame with its last part.
fn plug(frame: Frame, operand: Value) -> Value
    ensures { result ≡ m.plug values (frame_of frame) operand }
{
    match frame {
        Frame::Prefix(op) => unary_value(op, operand),
        Frame::Between(op, left) => infix_value(op, left, operand),
        Frame::Second(test, first) => choice_value(test, first, operand),
        Frame::Paren | Frame::First(_) => operand,
    }
}

/// Ends the frames that hold at least so tightly.
fn reduce(frames: &mut Open, operand: Value, pull: u8) -> Mem<Value>
    ensures { IfOk result (λ x. m.reduced values pull (stack frames.old) operand ≡ (stack frames.new, x)) }
{
    let mut x = operand;
    while let Some(frame) = frames.pop() {
        if holds(frame) < pull {
            frames.push(frame)?;
            return Ok(x);
        }
        x = plug(frame, x);
    }
    Ok(x)
}

fn on_close(frames: &mut Open, x: Value) -> Option<Mode>
    ensures { Stepped (stack frames.new) result (m.on_close values (stack frames.old) x) }
{
    match frames.pop()? {
        Frame::Paren => Some(Mode::Have(x)),
        _ => None,
    }
}

fn on_colon(frames: &mut Open, x: Value) -> Mem<Option<Mode>>
    ensures { IfOk result (λ r. Stepped (stack frames.new) r (m.on_colon values (stack frames.old) x)) }
{
    let Some(Frame::First(test)) = frames.pop() else {
        return Ok(None);
    };
    frames.push(Frame::Second(test, x))?;
    Ok(Some(Mode::Want))
}

/// A mark behind an operand, once what it ends is ended.
fn act(frames: &mut Open, mark: Mark, x: Value) -> Mem<Option<Mode>>
    ensures { IfOk result (λ r. Stepped (stack frames.new) r (m.act values mark (stack frames.old) x)) }
{
    match mark {
        Mark::Infix(op) => {
            frames.push(Frame::Between(op, x))?;
            Ok(Some(Mode::Want))
        }
        Mark::Question => {
            frames.push(Frame::First(x))?;
            Ok(Some(Mode::Want))
        }
        Mark::Close => Ok(on_close(frames, x)),
        Mark::Colon => on_colon(frames, x),
        Mark::Open | Mark::Tilde | Mark::Bang => Ok(None),
    }
}

/// A word behind an operand.
fn after(frames: &mut Open, operand: Value, word: Word) -> Mem<Option<Mode>>
    ensures { IfOk result (λ r. Stepped (stack frames.new) r (m.after values (stack frames.old) operand word)) }
{
    match word {
        Word::Mark(mark) => {
            let x = reduce(frames, operand, pull(mark))?;
            act(frames, mark, x)
        }
        Word::Constant(_) => Ok(None),
        Word::Stray => Ok(None),
    }
}

/// A word where an operand is wanted.
fn begin(frames: &mut Open, word: Word) -> Mem<Option<Mode>>
    ensures { IfOk result (λ r. Stepped (stack frames.new) r (m.begin values (stack frames.old) word)) }
{
    match word {
        Word::Constant(value) => Ok(Some(Mode::Have(value))),
        Word::Mark(Mark::Open) => {
            frames.push(Frame::Paren)?;
            Ok(Some(Mode::Want))
        }
        Word::Mark(mark) => {
            let Some(op) = prefix_of(mark) else {
                return Ok(None);
            };
            frames.push(Frame::Prefix(op))?;
            Ok(Some(Mode::Want))
        }
        Word::Stray => Ok(None),
    }
}

fn step(frames: &mut Open, mode: Mode, word: Word) -> Mem<Option<Mode>>
    ensures { IfOk result (λ r. Stepped (stack frames.new) r (m.step values (stack frames.old) (mode_of mode) word)) }
{
    match mode {
        Mode::Want => begin(frames, word),
        Mode::Have(x) => after(frames, x, word),
    }
}

/// The value at the end, where no frame is left.
fn finish(frames: Open, mode: Mode) -> Mem<Option<Value>>
    ensures { IfOk result (λ r. r ≡ m.finish values (stack frames) (mode_of mode)) }
{
    let mut frames = frames;
    let Mode::Have(operand) = mode else {
        return Ok(None);
    };
    let x = reduce(&mut frames, operand, 1)?;
    match frames.pop() {
        None => Ok(Some(x)),
        Some(_) => Ok(None),
    }
}

/// The value of the expression that the words spell, where they spell one.
pub(crate) fn evaluate(alloc: Global, words: &[Word]) -> Mem<Option<Value>>
    ensures { IfOk result (λ r. r ≡ m.run_all values words.now) }
{
    let mut frames = Open::new(alloc);
    let mut mode = Mode::Want;
    for word in words {
        let Some(next) = step(&mut frames, mode, *word)? else {
            return Ok(None);
        };
        mode = next;
    }
    finish(frames, mode)
}
