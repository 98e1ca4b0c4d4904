//! The productions that are open, and what comes next. A span is the place of the first token of its production; one
//! behind other parts is that of the token that the part begins with.

ghost use Rattle.std.specs.Prelude.{◌≡◌, List};
ghost use Rattle.ct_parser_state.specs.Code.{frame_of, operand_frame, value_frame, clause_frame};
ghost use Rattle.ct_grammar_machine.specs.Frames.{needs, holds};
ghost use Rattle.ct_parser_state.specs.declared.entries.Entry.{Entry};

use ct_base::{Bytes, Items, Span};
use ct_parser_parts::{
    Aimed, Built, DeclaratorPart, EnumeratorsPart, ExprPart, MembersPart, ParametersPart,
    SpecsPart, infix_level,
};
use ct_syntax::{
    AssignOp, BlockItem, Branch, Declarator, Expr, ForStart, InfixOp, InitDeclarator, Initialiser,
    InitialiserItem, Item, MemberOp, PrefixOp, Qualifier, Statement, StepOp,
};

/// What a declarator is for.
#[derive(Clone, Copy, Debug, PartialEq, Eq)]
pub enum Purpose {
    /// A declaration, or a member.
    Ordinary,
    Parameter,
    TypeName,
}

/// What a tag is for.
#[derive(Clone, Copy, Debug, PartialEq, Eq)]
pub enum TagSort {
    Struct,
    Enum,
}

/// A production that is open, by what it waits for, and what of it is read.
#[derive(Drop)]
pub enum Frame {
    Operand(OperandFrame),
    Value(ValueFrame),
    Clause(ClauseFrame),
    Specs(SpecsFrame),
    Declarator(DeclaratorFrame),
    List(ListFrame),
    Body(BodyFrame),
    Statement(StatementFrame),
}

/// A production that waits for its last operand, which no mark of its own ends.
#[derive(Drop)]
pub enum OperandFrame {
    Prefix(Span, StepOp),
    Unary(Span, PrefixOp),
    Sizeof(Span),
    Cast(Span, SpecsPart, DeclaratorPart),
    Infix(InfixOp, ExprPart),
    /// The last part of a conditional expression.
    Else(ExprPart, ExprPart),
    Assign(AssignOp, ExprPart),
    Comma(ExprPart),
}

/// A part of an expression or a declaration that waits for an expression, up to a mark of its own.
#[derive(Drop)]
pub enum ValueFrame {
    Paren(Span),
    Call(ExprPart, Built<Vec<Expr>>),
    Index(ExprPart),
    /// The middle part of a conditional expression.
    Then(ExprPart),
    /// The specifiers before an enumeration, its tag, the enumerators before, and the one whose value is read.
    Enumerator(Span, SpecsPart, Option<Bytes>, EnumeratorsPart, Span, Bytes),
    /// The size of an array.
    Array(Purpose, DeclaratorPart),
    /// The initialiser of a declarator: the specifiers, the declarators before, and this one.
    Init(SpecsPart, Built<Vec<InitDeclarator>>, DeclaratorPart),
    /// An item in braces: the items before, and what this one is for.
    Item(Span, Built<Vec<InitialiserItem>>, Span, Aimed),
    /// The index that an item in braces is for: the items before, and the bracket.
    Place(Span, Built<Vec<InitialiserItem>>, Span),
}

/// A part of a statement, or an assertion, that waits for an expression, up to a mark of its own.
#[derive(Drop)]
pub enum ClauseFrame {
    Assert(Span),
    Case(Span),
    Run(Span),
    Return(Span),
    /// The ladder of the branches before, and the `if` whose test is read.
    Test(Span, Built<Vec<Branch>>, Span),
    LoopTest(Span),
    DoTest(Span, Built<Box<Statement>>),
    SwitchTest(Span),
    ForInit(Span),
    ForCondition(Span, Built<ForStart>),
    ForStep(Span, Built<ForStart>, Option<ExprPart>),
}

/// A production that waits for specifiers.
#[derive(Drop)]
pub enum SpecsFrame {
    Cast(Span),
    Sizeof(Span),
    /// The specifiers before a struct, its tag, and its members so far.
    Members(Span, SpecsPart, Option<Bytes>, MembersPart),
    /// What a parameter list stands behind, and the parameters so far.
    Parameters(Purpose, DeclaratorPart, ParametersPart),
    Declaration,
}

/// A production that waits for a declarator.
#[derive(Drop)]
pub enum DeclaratorFrame {
    Cast(Span, SpecsPart),
    Sizeof(Span, SpecsPart),
    /// As for members, and the specifiers and the declarators so far of the member.
    Member(Span, SpecsPart, Option<Bytes>, MembersPart, SpecsPart, Built<Vec<Declarator>>),
    /// As for parameters, and the specifiers of the parameter.
    Parameter(Purpose, DeclaratorPart, ParametersPart, SpecsPart),
    /// Whether the first declarator of a declaration is read, its specifiers, and its declarators so far.
    Declaration(bool, SpecsPart, Built<Vec<InitDeclarator>>),
    Group(Span, Purpose),
    Pointer(Span, Purpose, Items<Qualifier>),
}

/// A list in braces of which an item, or the end, is read next.
#[derive(Drop)]
pub enum ListFrame {
    /// The specifiers before an enumeration, its tag, and its enumerators so far.
    Enumerators(Span, SpecsPart, Option<Bytes>, EnumeratorsPart),
    Braces(Span, Built<Vec<InitialiserItem>>),
}

/// What consists of declarations and statements.
#[derive(Drop)]
pub enum BodyFrame {
    Block(Span, Built<Vec<BlockItem>>),
    /// The value, the brace, and the parts so far.
    Switch(Span, ExprPart, Span, Built<Vec<BlockItem>>),
    /// The specifiers and the declarator of a definition, the brace of its body, and the parts so far.
    Function(SpecsPart, DeclaratorPart, Span, Built<Vec<BlockItem>>),
    Unit(Built<Vec<Item>>),
}

/// A statement that waits for its last part, which is a statement.
#[derive(Drop)]
pub enum StatementFrame {
    /// The ladder of the branches before, and the `if` and the test of the one whose body is read.
    Branch(Span, Built<Vec<Branch>>, Span, ExprPart),
    ElseBody(Span, Built<Vec<Branch>>),
    While(Span, ExprPart),
    Do(Span),
    For(Span, Built<ForStart>, Option<ExprPart>, Option<ExprPart>),
}

/// What stands in parentheses behind a keyword.
#[derive(Drop)]
pub enum Aim {
    /// The test of an `if`: the ladder of the branches before, and the `if`.
    Test(Span, Built<Vec<Branch>>, Span),
    Loop(Span),
    Do(Span, Built<Box<Statement>>),
    Switch(Span),
    Assert(Span),
}

/// What comes next.
#[derive(Drop)]
pub enum Mode {
    Value(ValueMode),
    Specs(SpecsMode),
    Declarator(DeclaratorMode),
    Init(InitMode),
    Assert(AssertMode),
    Statement(StatementMode),
}

/// What comes next in an expression.
#[derive(Drop)]
pub enum ValueMode {
    /// An operand.
    Want,
    /// An operator or an end, behind an operand.
    Have(ExprPart),
    /// A further string literal, or what may stand behind one.
    Texts(Span, Bytes, Items<Bytes>),
    /// An argument, or none.
    First(ExprPart),
    /// The name of a member.
    Dotted(ExprPart, MemberOp),
}

/// What comes next in specifiers.
#[derive(Drop)]
pub enum SpecsMode {
    /// A specifier, or what may stand behind these.
    Next(SpecsPart),
    /// A tag, or a brace.
    Tagging(TagSort, Span, SpecsPart),
    /// A brace, or what may stand behind the tag.
    Tagged(TagSort, Span, SpecsPart, Bytes),
    /// The first specifier of the first member.
    FirstMember,
    /// A member, or the closing brace.
    NextMember,
    /// An enumerator.
    FirstEnumerator,
    /// An enumerator, or the closing brace, behind a comma.
    NextEnumerator,
    /// What may stand behind the name of an enumerator.
    Enumerated(Span, Bytes),
}

/// What comes next in a declarator.
#[derive(Drop)]
pub enum DeclaratorMode {
    /// A declarator.
    Want(Purpose),
    /// What stands behind the `*` of a pointer and these qualifiers.
    Qualifying(Span, Purpose, Items<Qualifier>),
    /// What stands behind a parenthesis in the place of a declarator.
    Opened(Span, Purpose),
    /// What may stand behind a declarator.
    Have(Purpose, DeclaratorPart),
    /// A size, or the closing bracket.
    Sizing(Purpose, DeclaratorPart),
    /// A parameter, or the closing parenthesis.
    Listing(Purpose, DeclaratorPart),
    /// A parameter or `...`, behind a comma.
    NextParameter,
    /// The closing parenthesis, behind `...`.
    AfterEllipsis,
}

/// What comes next in an initialiser.
#[derive(Drop)]
pub enum InitMode {
    /// An initialiser.
    Want,
    /// What may stand behind an initialiser in braces.
    Have(Built<Initialiser>),
    /// An item, or the closing brace.
    FirstItem,
    /// The same, behind a comma.
    NextItem,
    /// The name of a member, behind a dot.
    Pointed(Span),
    /// The `=` behind what an item is for.
    Placed(Span, Aimed),
}

/// What comes next in an assertion, behind its comma.
#[derive(Drop)]
pub enum AssertMode {
    Text(Span, ExprPart),
    Close(Span, ExprPart, Bytes),
    End(Span, ExprPart, Bytes),
}

/// What comes next in a statement.
#[derive(Drop)]
pub enum StatementMode {
    /// An open parenthesis.
    Opening(Aim),
    /// A statement, or what else may stand in its place.
    Begin,
    /// A statement is read.
    Done(Built<Box<Statement>>),
    /// A semicolon ends the statement.
    Ending(Built<Box<Statement>>),
    /// What stands behind the `else` of a ladder.
    AfterElse(Span, Built<Vec<Branch>>),
    Returning(Span),
    /// The brace of a `switch`.
    Switching(Span, ExprPart),
    DefaultColon(Span),
    OpenFor(Span),
    ForInit,
    ForCondition,
    ForStep,
}

/// The level that the part of a production is at least of.
pub fn frame_needs(frame: &Frame) -> u8
    ensures { (os : List Entry) → result ≡ needs (frame_of os frame.now) }
{
    match frame {
        Frame::Operand(frame) => operand_needs(frame),
        Frame::Value(frame) => value_needs(frame),
        Frame::Clause(frame) => clause_needs(frame),
        Frame::Specs(_)
        | Frame::Declarator(_)
        | Frame::List(_)
        | Frame::Body(_)
        | Frame::Statement(_) => 1,
    }
}

fn operand_needs(frame: &OperandFrame) -> u8
    ensures { result ≡ needs (operand_frame frame.now) }
{
    match frame {
        OperandFrame::Prefix(_, _) | OperandFrame::Sizeof(_) => 15,
        OperandFrame::Unary(_, _) | OperandFrame::Cast(_, _, _) => 14,
        OperandFrame::Infix(op, _) => infix_level(*op) + 1,
        OperandFrame::Else(_, _) => 3,
        OperandFrame::Assign(_, _) | OperandFrame::Comma(_) => 2,
    }
}

/// How tightly a production holds the operand behind it.
pub fn operand_holds(frame: &OperandFrame) -> u8
    ensures { result ≡ holds (operand_frame frame.now) }
{
    match frame {
        OperandFrame::Prefix(_, _) | OperandFrame::Sizeof(_) | OperandFrame::Unary(_, _) => 15,
        OperandFrame::Cast(_, _, _) => 14,
        OperandFrame::Infix(op, _) => infix_level(*op),
        OperandFrame::Else(_, _) => 3,
        OperandFrame::Assign(_, _) => 2,
        OperandFrame::Comma(_) => 1,
    }
}

fn value_needs(frame: &ValueFrame) -> u8
    ensures { result ≡ needs (value_frame frame.now) }
{
    match frame {
        ValueFrame::Enumerator(_, _, _, _, _, _) | ValueFrame::Place(_, _, _) => 3,
        ValueFrame::Call(_, _)
        | ValueFrame::Array(_, _)
        | ValueFrame::Init(_, _, _)
        | ValueFrame::Item(_, _, _, _) => 2,
        ValueFrame::Paren(_) | ValueFrame::Index(_) | ValueFrame::Then(_) => 1,
    }
}

fn clause_needs(frame: &ClauseFrame) -> u8
    ensures { (os : List Entry) → result ≡ needs (clause_frame os frame.now) }
{
    match frame {
        ClauseFrame::Assert(_) | ClauseFrame::Case(_) => 3,
        ClauseFrame::Run(_)
        | ClauseFrame::Return(_)
        | ClauseFrame::Test(_, _, _)
        | ClauseFrame::LoopTest(_) => 1,
        ClauseFrame::DoTest(_, _) | ClauseFrame::SwitchTest(_) | ClauseFrame::ForInit(_) => 1,
        ClauseFrame::ForCondition(_, _) | ClauseFrame::ForStep(_, _, _) => 1,
    }
}
