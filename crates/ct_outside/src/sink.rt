//! A sink for text.

ghost use Rattle.std.specs.Prelude.{◌≡◌, ℕ, ◌-◌, ◌^◌, ◌<◌, ◌≤◌, List, Option, IfOk, OnOk, OnErr, length, take};
ghost use Rattle.ct_outside.specs.Counts.{Rose};
ghost use Rattle.ct_outside.specs.Taken.{Took};

/// The sink failed, and its count of faults rose.
#[derive(Clone, Copy, Debug, PartialEq, Eq)]
pub struct SinkFailed;

/// A sink for text.
pub trait Sink {
    /// What it took so far, where the sink tells it.
    ghost taken: { Self → Option (List ℕ) };

    /// How often a write has failed. It never falls, and stands still at 2 ^ 64 - 1.
    ghost faults: { Self → ℕ };

    /// Takes the front of a piece, and says how many bytes: at least one of a piece that is not
    /// empty. It takes no memory.
    fn write(&mut self, piece: &[u8]) -> Result<usize, SinkFailed>
        ensures within { IfOk result (λ count. count ≤ length piece.now) }
        ensures some { IfOk result (λ count. 0 < length piece.now → 0 < count) }
        ensures taken { IfOk result (λ count. Took (taken self.old) (taken self.new) (take count piece.now)) }
        ensures same_faults { OnOk result (faults self.new ≡ faults self.old) }
        ensures failed { OnErr result (Rose (faults self.old) (faults self.new)) }
        ensures nothing { OnErr result (taken self.new ≡ taken self.old) }
        ensures bounded { faults self.old ≤ 2 ^ 64 - 1 → faults self.new ≤ 2 ^ 64 - 1 };
}
