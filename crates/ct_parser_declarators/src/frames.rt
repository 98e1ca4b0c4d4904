//! Productions that wait for an operand.

ghost use Rattle.std.specs.Prelude.{◌≡◌, IfOk, Some};
ghost use Rattle.ct_parser_state.specs.Code.{Stepped, scope, under};
ghost use Rattle.ct_grammar_machine.specs.Frames.{Want};

use ct_base::Mem;
use ct_parser_state::{Frame, Mode, ParserState, ValueMode};

/// Opens a production whose operand comes next.
pub fn wanting(state: &mut ParserState, frame: Frame) -> Mem<Option<Mode>>
    ensures { IfOk result (λ r. Stepped state.new r (Some (scope state.old, under state.old frame, Want))) }
{
    state.push(frame)?;
    Ok(Some(Mode::Value(ValueMode::Want)))
}
