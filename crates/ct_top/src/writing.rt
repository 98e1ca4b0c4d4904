//! Writing to the sink.

ghost use Rattle.std.specs.Prelude.{◌≡◌, OnOk, OnErr};
ghost use Rattle.ct_outside.specs.Counts.{Rose};
ghost use Rattle.ct_outside.specs.Taken.{Took, TookFront};
ghost use Rattle.ct_top.specs.Stops.{Ends, SinkFaultsAfter};
ghost use Rattle.ct_base.specs.declared.answers.Status.TheVariants.{OutFault};

use ct_base::Status;
use ct_outside::{Sink, SinkFailed};

/// Writes a whole text. Where the sink fails it took a front of it.
pub fn write_all<S: Sink>(out: &mut S, text: &[u8]) -> Result<(), SinkFailed>
    ensures whole { OnOk result (Took (S.taken out.old) (S.taken out.new) text.now) }
    ensures same { OnOk result (S.faults out.new ≡ S.faults out.old) }
    ensures front { OnErr result (TookFront (S.taken out.old) (S.taken out.new) text.now) }
    ensures rose { OnErr result (Rose (S.faults out.old) (S.faults out.new)) }
{
    let mut at = 0;
    while at < text.len() {
        match out.write(&text[at..]) {
            Ok(count) => at += count,
            Err(failed) => return Err(failed),
        }
    }
    Ok(())
}

/// Writes the text with which a run ends. Its status is this one, or `OutFault`.
pub fn finish<S: Sink>(out: &mut S, text: &[u8], status: Status) -> Status
    requires { status ≡ OutFault → ⊥ }
    ensures end { Ends result (S.taken out.old) (S.taken out.new) text.now status }
    ensures faults { SinkFaultsAfter result (S.faults out.old) (S.faults out.new) }
{
    match write_all(out, text) {
        Ok(()) => status,
        Err(_) => Status::OutFault,
    }
}
