//! Standard output as a sink.

ghost use Rattle.std.specs.Prelude.{◌≡◌, ◌≤◌, None, IfOk, length};

use crate::causes::raise;
use ct_outside::{Sink, SinkFailed};
use std::io::{self, ErrorKind, Write};

/// How often a write is tried that a signal interrupts.
const MOST_TRIES: u32 = 1_000;

/// Standard output, as a sink that does not tell what it took.
#[derive(Drop)]
pub struct StandardOutput<R> {
    rt: R,
    faults: u64,
}

impl<R> StandardOutput<R> {
    pub fn new(rt: R) -> StandardOutput<R>
        ensures { result.faults ≡ 0 }
    {
        StandardOutput { rt, faults: 0 }
    }
}

impl<R: Print> Sink for StandardOutput<R> {
    ghost taken = { λ _. None };

    ghost faults = { λ sink. sink.faults };

    fn write(&mut self, piece: &[u8]) -> Result<usize, SinkFailed> {
        if piece.is_empty() {
            return Ok(0);
        }
        match put(&self.rt, piece) {
            Ok(count) if count > 0 => Ok(count),
            _ => {
                raise(&mut self.faults);
                Err(SinkFailed)
            }
        }
    }
}

/// Writes the front of a piece, flushes it, and says how many bytes it has.
fn put<R: Print>(rt: &R, piece: &[u8]) -> io::Result<usize>
    ensures { IfOk result (λ count. count ≤ length piece.now) }
{
    let mut out = io::writer(rt);
    let count = write_front(&mut out, piece)?;
    out.flush()?;
    Ok(count)
}

/// Writes the front of a piece, and tries again where a signal interrupts the write.
fn write_front<W: Write>(out: &mut W, piece: &[u8]) -> io::Result<usize>
    ensures { IfOk result (λ count. count ≤ length piece.now) }
{
    for _ in 0..MOST_TRIES {
        match out.write(piece) {
            Err(error) if error.kind() == ErrorKind::Interrupted => {}
            answer => return answer,
        }
    }
    Err(io::Error::from(ErrorKind::Interrupted))
}
