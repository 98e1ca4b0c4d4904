//! What the grammar reads of a token.

ghost use Rattle.std.specs.Prelude.{◌≡◌};
ghost use Rattle.ct_syntax.specs.Words.{mark_of, keyword_of, word};
ghost use Rattle.ct_syntax.specs.Words as spec;
ghost use Rattle.ct_base.specs.declared.lexical.TokenKind.TheVariants.{Name as spec_name, Punct as spec_punct};
ghost use Rattle.ct_parser_state.specs.Terminals.{word_of};

use ct_base::{BinaryOp, Token, TokenKind};
use ct_syntax::{AssignOp, InfixOp, Keyword, Mark, MemberOp, SpecWord, StepOp, is_left_out_word};

/// What a token is for the grammar. The text of a name, a constant or a string literal stays with the token.
#[derive(Clone, Copy, Debug, PartialEq, Eq)]
pub enum Terminal {
    /// A name that is no keyword.
    Name,
    Number,
    Character,
    Text,
    Mark(Mark),
    Keyword(Keyword),
    /// A token that the grammar does not have.
    Stray,
}

const MARKS: [Mark; 46] = [
    Mark::Open,
    Mark::Close,
    Mark::OpenBracket,
    Mark::CloseBracket,
    Mark::OpenBrace,
    Mark::CloseBrace,
    Mark::Comma,
    Mark::Semicolon,
    Mark::Colon,
    Mark::Question,
    Mark::Ellipsis,
    Mark::Complement,
    Mark::Not,
    Mark::Member(MemberOp::Dot),
    Mark::Member(MemberOp::Arrow),
    Mark::Step(StepOp::Increment),
    Mark::Step(StepOp::Decrement),
    Mark::Infix(InfixOp::Number(BinaryOp::Multiply)),
    Mark::Infix(InfixOp::Number(BinaryOp::Divide)),
    Mark::Infix(InfixOp::Number(BinaryOp::Remainder)),
    Mark::Infix(InfixOp::Number(BinaryOp::Add)),
    Mark::Infix(InfixOp::Number(BinaryOp::Subtract)),
    Mark::Infix(InfixOp::Number(BinaryOp::ShiftLeft)),
    Mark::Infix(InfixOp::Number(BinaryOp::ShiftRight)),
    Mark::Infix(InfixOp::Number(BinaryOp::Less)),
    Mark::Infix(InfixOp::Number(BinaryOp::Greater)),
    Mark::Infix(InfixOp::Number(BinaryOp::LessEqual)),
    Mark::Infix(InfixOp::Number(BinaryOp::GreaterEqual)),
    Mark::Infix(InfixOp::Number(BinaryOp::Equal)),
    Mark::Infix(InfixOp::Number(BinaryOp::NotEqual)),
    Mark::Infix(InfixOp::Number(BinaryOp::And)),
    Mark::Infix(InfixOp::Number(BinaryOp::Xor)),
    Mark::Infix(InfixOp::Number(BinaryOp::Or)),
    Mark::Infix(InfixOp::LogicalAnd),
    Mark::Infix(InfixOp::LogicalOr),
    Mark::Assign(AssignOp::Plain),
    Mark::Assign(AssignOp::Multiply),
    Mark::Assign(AssignOp::Divide),
    Mark::Assign(AssignOp::Remainder),
    Mark::Assign(AssignOp::Add),
    Mark::Assign(AssignOp::Subtract),
    Mark::Assign(AssignOp::ShiftLeft),
    Mark::Assign(AssignOp::ShiftRight),
    Mark::Assign(AssignOp::And),
    Mark::Assign(AssignOp::Xor),
    Mark::Assign(AssignOp::Or),
];

const KEYWORDS: [Keyword; 32] = [
    Keyword::Spec(SpecWord::Typedef),
    Keyword::Spec(SpecWord::Extern),
    Keyword::Spec(SpecWord::Static),
    Keyword::Spec(SpecWord::Auto),
    Keyword::Spec(SpecWord::Register),
    Keyword::Spec(SpecWord::Inline),
    Keyword::Spec(SpecWord::Const),
    Keyword::Spec(SpecWord::Volatile),
    Keyword::Spec(SpecWord::Void),
    Keyword::Spec(SpecWord::Bool),
    Keyword::Spec(SpecWord::Char),
    Keyword::Spec(SpecWord::Short),
    Keyword::Spec(SpecWord::Int),
    Keyword::Spec(SpecWord::Long),
    Keyword::Spec(SpecWord::Signed),
    Keyword::Spec(SpecWord::Unsigned),
    Keyword::Struct,
    Keyword::Enum,
    Keyword::Restrict,
    Keyword::Sizeof,
    Keyword::StaticAssert,
    Keyword::If,
    Keyword::Else,
    Keyword::While,
    Keyword::Do,
    Keyword::For,
    Keyword::Switch,
    Keyword::Case,
    Keyword::Default,
    Keyword::Break,
    Keyword::Continue,
    Keyword::Return,
];

/// The mark that a text spells.
fn mark_spelled(text: &[u8]) -> Option<Mark>
    ensures { result ≡ mark_of text.now }
{
    MARKS.iter().copied().find(|mark| text == mark.text())
}

/// The keyword that a text spells.
fn keyword_spelled(text: &[u8]) -> Option<Keyword>
    ensures { result ≡ keyword_of text.now }
{
    KEYWORDS
        .iter()
        .copied()
        .find(|keyword| text == keyword.text())
}

fn name_terminal(text: &[u8]) -> Terminal
    ensures { word_of result text.now ≡ spec.word_by spec_name text.now }
{
    if is_left_out_word(text) {
        return Terminal::Stray;
    }
    match keyword_spelled(text) {
        Some(keyword) => Terminal::Keyword(keyword),
        None => Terminal::Name,
    }
}

fn mark_terminal(text: &[u8]) -> Terminal
    ensures { word_of result text.now ≡ spec.word_by spec_punct text.now }
{
    match mark_spelled(text) {
        Some(mark) => Terminal::Mark(mark),
        None => Terminal::Stray,
    }
}

/// What a token is for the grammar.
pub fn terminal_of(token: &Token) -> Terminal
    ensures { word_of result token.now.text ≡ word token.now }
{
    match token.kind {
        TokenKind::Name => name_terminal(token.text.as_slice()),
        TokenKind::Number => Terminal::Number,
        TokenKind::Char => Terminal::Character,
        TokenKind::Text => Terminal::Text,
        TokenKind::Punct => mark_terminal(token.text.as_slice()),
        TokenKind::Other | TokenKind::Line => Terminal::Stray,
    }
}
