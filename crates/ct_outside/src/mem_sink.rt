//! A sink in memory.

ghost use Rattle.std.specs.Prelude.{◌≡◌, ◌+◌, ◌++◌, ◌≤◌, ◌↔◌, [], Some, IfOk, IsErr, OnErr, length, min, take, vec_len, vec_capacity};
ghost use Rattle.ct_outside.specs.Counts.{raised};
ghost use Rattle.ct_outside.specs.SinkState.{WriteFails, room_left};

use crate::sink::{Sink, SinkFailed};
use ct_base::Mem;
use std::alloc::Global;
use std::marker::Model;

/// A sink that keeps its text in memory, has room for so many bytes, and fails at the writes that
/// it was told.
#[derive(Debug, Drop)]
pub struct MemSink {
    taken: Vec<u8>,
    room: usize,
    failing: Vec<u64>,
    writes: u64,
    faults: u64,
}

impl Model for MemSink {
    ghost use Rattle.std.specs.Prelude.{◌≤◌, vec_len, vec_capacity};
    ghost use Rattle.ct_outside.specs.SinkState.{SinkState};

    ghost Value = { SinkState };

    ghost view = { λ sink. record {
      taken = sink.taken.items;
      room = sink.room;
      failing = sink.failing.items;
      writes = sink.writes;
      faults = sink.faults;
    } };

    ghost invariant = { λ sink. (vec_len sink.taken ≤ sink.room) × (sink.room ≤ vec_capacity sink.taken) };
}

impl MemSink {
    /// An empty sink that takes `room` bytes in all. Its k-th write fails for each k in `failing`,
    /// from 1 on.
    pub fn new(alloc: Global, room: usize, failing: Vec<u64>) -> Mem<MemSink>
        ensures { IfOk result (λ sink. sink ≡ record {
          taken = [];
          room = room;
          failing = failing.items;
          writes = 0;
          faults = 0;
        }) }
    {
        let taken = Vec::with_capacity(alloc, room)?;
        Ok(MemSink {
            taken,
            room,
            failing,
            writes: 0,
            faults: 0,
        })
    }

    /// What it took so far.
    pub fn taken(&self) -> &[u8]
        ensures { result.now ≡ self.now.taken }
    {
        self.taken.as_slice()
    }
}

impl Sink for MemSink {
    ghost taken = { λ sink. Some sink.taken };

    ghost faults = { λ sink. sink.faults };

    fn write(&mut self, piece: &[u8]) -> Result<usize, SinkFailed>
        ensures fails { IsErr result ↔ WriteFails self.old piece.now }
        ensures as_many_as_fit { IfOk result (λ count. count ≡ min (length piece.now) (room_left self.old)) }
        ensures state { IfOk result (λ count. self.new ≡ record self.old {
          taken = self.old.taken ++ take count piece.now;
          writes = raised self.old.writes;
        }) }
        ensures failed_state { OnErr result (self.new ≡ record self.old {
          writes = raised self.old.writes;
          faults = raised self.old.faults;
        }) }
    {
        self.writes = self.writes.saturating_add(1);
        let left = self.room - self.taken.len();
        let full = left == 0 && !piece.is_empty();
        if full || self.failing.contains(&self.writes) {
            self.faults = self.faults.saturating_add(1);
            return Err(SinkFailed);
        }
        let count = piece.len().min(left);
        append_within(&mut self.taken, &piece[..count]);
        Ok(count)
    }
}

/// Appends a piece that fits. It takes no memory.
fn append_within(taken: &mut Vec<u8>, piece: &[u8])
    requires { vec_len taken.old + length piece.now ≤ vec_capacity taken.old }
    ensures items { taken.new.items ≡ taken.old.items ++ piece.now }
    ensures len { vec_len taken.new ≡ vec_len taken.old + length piece.now }
    ensures capacity { vec_capacity taken.old ≤ vec_capacity taken.new }
{
    let appended = taken.extend_from_slice(piece);
    prove!(appended.is_ok());
}
