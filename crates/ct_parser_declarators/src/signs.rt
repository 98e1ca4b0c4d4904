//! Which mark a token is, and which production waits for the operand of `sizeof`.

ghost use Rattle.std.specs.Prelude.{◌≡◌, false, List, MatchOption};
ghost use Rattle.ct_parser_state.specs.Code.{frame_of};
ghost use Rattle.ct_parser_state.specs.Terminals.{word_of};
ghost use Rattle.ct_parser_state.specs.declared.entries.Entry.{Entry};
ghost use Rattle.ct_parser_state.specs.declared.frames.Frame.TheVariants.{Operand as operand};
ghost use Rattle.ct_parser_state.specs.declared.frames.OperandFrame.TheVariants.{Sizeof as sizeof};
ghost use Rattle.ct_parser_declarators.specs.Signs as spec;
ghost use Rattle.ct_syntax.specs.Words.{Text};

use ct_base::Span;
use ct_parser_state::{Frame, OperandFrame, Terminal};
use ct_syntax::Mark;

/// Whether a mark is an open parenthesis.
pub fn opens(mark: Mark) -> bool
    ensures { result ≡ spec.opens mark }
{
    matches!(mark, Mark::Open)
}

/// Whether a token is a closing parenthesis.
pub fn is_close(terminal: Terminal) -> bool
    ensures { (text : Text) → result ≡ spec.is_close (word_of terminal text) }
{
    matches!(terminal, Terminal::Mark(Mark::Close))
}

/// Whether a token is a closing bracket.
pub fn is_close_bracket(terminal: Terminal) -> bool
    ensures { (text : Text) → result ≡ spec.is_close_bracket (word_of terminal text) }
{
    matches!(terminal, Terminal::Mark(Mark::CloseBracket))
}

/// Whether a token is an open brace.
pub fn is_open_brace(terminal: Terminal) -> bool
    ensures { (text : Text) → result ≡ spec.is_open_brace (word_of terminal text) }
{
    matches!(terminal, Terminal::Mark(Mark::OpenBrace))
}

/// The place of the `sizeof` whose operand a production waits for.
pub fn sizeof_place(frame: &Frame) -> Option<Span>
    ensures { MatchOption result ((os : List Entry) → spec.is_size (frame_of os frame.now) ≡ false) (λ at. frame.now ≡ operand (sizeof at)) }
{
    match frame {
        Frame::Operand(OperandFrame::Sizeof(at)) => Some(*at),
        _ => None,
    }
}
