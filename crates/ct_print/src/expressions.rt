//! Expressions, specifiers and declarators.
#![tactic(auto)]

ghost use Rattle.std.specs.Prelude.{◌≡◌, ◌∷◌, [], ◌++◌, OnOk};
ghost use Rattle.ct_syntax.specs.Words.{Named, Sign, Key};
ghost use Rattle.ct_syntax.specs.Trees.{no_spec};
ghost use Rattle.ct_syntax.specs.Views.{view, view_spec, view_declarator, expressions_of, specs_of};
ghost use Rattle.ct_syntax.specs.Spelling.{spell, spell_list, spell_optional, spell_value, spell_specs, spell_comma, spell_members, spell_enumerators, spell_declarators, spell_declarator, spell_parameters};
ghost use Rattle.ct_print.specs.Text.{Appends};
ghost use Rattle.ct_syntax.specs.Lists.{optional_of, declarators_of, members_of, enumerators_of, parameters_of};

use crate::putting::{
    put_comma, put_form, put_keyword, put_mark, put_qualifiers, put_strings, put_tag, put_text,
};
use crate::words::{STAR, prefix_mark};
use ct_base::{Bytes, Mem};
use ct_syntax::{
    AssignOp, Declarator, Enumerator, Expr, Keyword, Mark, Member, MemberOp, Parameter, Spec,
};

/// Appends an expression.
#[cycle(expressions)]
pub(crate) fn put_expression(x: &Expr, into: &mut Vec<u8>) -> Mem<()>
    ensures { OnOk result (Appends into.old.items into.new.items (spell (view x.now))) }
{
    match x {
        Expr::Name(_, text) | Expr::Number(_, text) | Expr::Character(_, text) => put_text(
            text, into,
        ),
        Expr::Text(_, first, others) => put_strings(first, others.as_slice(), into),
        Expr::Paren(_, inner) => put_enclosed(Mark::Open, inner, Mark::Close, into),
        Expr::Index(_, array, place) => put_index(array, place, into),
        Expr::Call(_, function, arguments) => put_call(function, arguments, into),
        Expr::Member(_, whole, op, name) => put_member(whole, *op, name, into),
        Expr::Postfix(_, operand, op) => put_before(operand, Mark::Step(*op), into),
        Expr::Prefix(_, op, operand) => put_behind(Mark::Step(*op), operand, into),
        Expr::Unary(_, op, operand) => put_behind(prefix_mark(*op), operand, into),
        Expr::SizeofValue(_, operand) => put_sizeof_value(operand, into),
        Expr::SizeofType(_, specs, declarator) => put_sizeof_type(specs, declarator, into),
        Expr::Cast(_, specs, declarator, operand) => put_cast(specs, declarator, operand, into),
        Expr::Infix(_, op, left, right) => put_around(left, Mark::Infix(*op), right, into),
        Expr::Assign(_, op, left, right) => put_around(left, Mark::Assign(*op), right, into),
        Expr::Comma(_, left, right) => put_around(left, Mark::Comma, right, into),
        Expr::Conditional(_, test, yes, no) => put_conditional(test, yes, no, into),
    }
}

/// Appends an element of an array.
#[cycle(expressions)]
fn put_index(array: &Expr, place: &Expr, into: &mut Vec<u8>) -> Mem<()>
    ensures { OnOk result (Appends into.old.items into.new.items (λ rest. spell (view array.now) (Sign Mark.OpenBracket ∷ spell (view place.now) (Sign Mark.CloseBracket ∷ rest)))) }
{
    put_expression(array, into)?;
    put_enclosed(Mark::OpenBracket, place, Mark::CloseBracket, into)?;
    Ok(())
}

/// Appends a call of a function.
#[cycle(expressions)]
fn put_call(function: &Expr, arguments: &[Expr], into: &mut Vec<u8>) -> Mem<()>
    ensures { OnOk result (Appends into.old.items into.new.items (λ rest. spell (view function.now) (Sign Mark.Open ∷ spell_list (expressions_of arguments.now) (Sign Mark.Close ∷ rest)))) }
{
    put_expression(function, into)?;
    put_mark(Mark::Open, into)?;
    put_list(arguments, into)?;
    put_mark(Mark::Close, into)?;
    Ok(())
}

/// Appends a member of a struct.
#[cycle(expressions)]
fn put_member(whole: &Expr, op: MemberOp, name: &Bytes, into: &mut Vec<u8>) -> Mem<()>
    ensures { OnOk result (Appends into.old.items into.new.items (λ rest. spell (view whole.now) (Sign (Mark.Member op) ∷ Named name.now ∷ rest))) }
{
    put_expression(whole, into)?;
    put_mark(Mark::Member(op), into)?;
    put_text(name, into)?;
    Ok(())
}

/// Appends `sizeof` and an expression.
#[cycle(expressions)]
fn put_sizeof_value(operand: &Expr, into: &mut Vec<u8>) -> Mem<()>
    ensures { OnOk result (Appends into.old.items into.new.items (λ rest. Key Keyword.Sizeof ∷ spell (view operand.now) rest)) }
{
    put_keyword(Keyword::Sizeof, into)?;
    put_expression(operand, into)?;
    Ok(())
}

/// Appends `sizeof` and a type name in parentheses.
#[cycle(expressions)]
fn put_sizeof_type(specs: &[Spec], declarator: &Declarator, into: &mut Vec<u8>) -> Mem<()>
    ensures { OnOk result (Appends into.old.items into.new.items (λ rest. Key Keyword.Sizeof ∷ Sign Mark.Open ∷ spell_specs (specs_of specs.now) (spell_declarator (view_declarator declarator.now) (Sign Mark.Close ∷ rest)))) }
{
    put_keyword(Keyword::Sizeof, into)?;
    put_type_name(specs, declarator, into)?;
    Ok(())
}

/// Appends a cast.
#[cycle(expressions)]
fn put_cast(specs: &[Spec], declarator: &Declarator, operand: &Expr, into: &mut Vec<u8>) -> Mem<()>
    ensures { OnOk result (Appends into.old.items into.new.items (λ rest. Sign Mark.Open ∷ spell_specs (specs_of specs.now) (spell_declarator (view_declarator declarator.now) (Sign Mark.Close ∷ spell (view operand.now) rest)))) }
{
    put_type_name(specs, declarator, into)?;
    put_expression(operand, into)?;
    Ok(())
}

/// Appends a type name in parentheses.
#[cycle(expressions)]
fn put_type_name(specs: &[Spec], declarator: &Declarator, into: &mut Vec<u8>) -> Mem<()>
    ensures { OnOk result (Appends into.old.items into.new.items (λ rest. Sign Mark.Open ∷ spell_specs (specs_of specs.now) (spell_declarator (view_declarator declarator.now) (Sign Mark.Close ∷ rest)))) }
{
    put_mark(Mark::Open, into)?;
    put_specs(specs, into)?;
    put_declarator(declarator, into)?;
    put_mark(Mark::Close, into)?;
    Ok(())
}

/// Appends a conditional.
#[cycle(expressions)]
fn put_conditional(test: &Expr, yes: &Expr, no: &Expr, into: &mut Vec<u8>) -> Mem<()>
    ensures { OnOk result (Appends into.old.items into.new.items (λ rest. spell (view test.now) (Sign Mark.Question ∷ spell (view yes.now) (Sign Mark.Colon ∷ spell (view no.now) rest)))) }
{
    put_expression(test, into)?;
    put_enclosed(Mark::Question, yes, Mark::Colon, into)?;
    put_expression(no, into)?;
    Ok(())
}

/// Appends an expression and a mark.
#[cycle(expressions)]
fn put_before(x: &Expr, mark: Mark, into: &mut Vec<u8>) -> Mem<()>
    ensures { OnOk result (Appends into.old.items into.new.items (λ rest. spell (view x.now) (Sign mark ∷ rest))) }
{
    put_expression(x, into)?;
    put_mark(mark, into)?;
    Ok(())
}

/// Appends two expressions and a mark between them.
#[cycle(expressions)]
fn put_around(left: &Expr, mark: Mark, right: &Expr, into: &mut Vec<u8>) -> Mem<()>
    ensures { OnOk result (Appends into.old.items into.new.items (λ rest. spell (view left.now) (Sign mark ∷ spell (view right.now) rest))) }
{
    put_expression(left, into)?;
    put_behind(mark, right, into)?;
    Ok(())
}

/// Appends a mark and an expression.
#[cycle(expressions)]
pub(crate) fn put_behind(mark: Mark, x: &Expr, into: &mut Vec<u8>) -> Mem<()>
    ensures { OnOk result (Appends into.old.items into.new.items (λ rest. Sign mark ∷ spell (view x.now) rest)) }
{
    put_mark(mark, into)?;
    put_expression(x, into)?;
    Ok(())
}

/// Appends an expression between two marks.
#[cycle(expressions)]
pub(crate) fn put_enclosed(before: Mark, x: &Expr, behind: Mark, into: &mut Vec<u8>) -> Mem<()>
    ensures { OnOk result (Appends into.old.items into.new.items (λ rest. Sign before ∷ spell (view x.now) (Sign behind ∷ rest))) }
{
    put_mark(before, into)?;
    put_expression(x, into)?;
    put_mark(behind, into)?;
    Ok(())
}

/// Appends expressions, with a comma between two.
#[cycle(expressions)]
fn put_list(xs: &[Expr], into: &mut Vec<u8>) -> Mem<()>
    ensures { OnOk result (Appends into.old.items into.new.items (spell_list (expressions_of xs.now))) }
{
    let [first, others @ ..] = xs else {
        return Ok(());
    };
    put_expression(first, into)?;
    for x in others {
        put_behind(Mark::Comma, x, into)?;
    }
    Ok(())
}

/// Appends declaration specifiers.
#[cycle(expressions)]
pub(crate) fn put_specs(specs: &[Spec], into: &mut Vec<u8>) -> Mem<()>
    ensures { OnOk result (Appends into.old.items into.new.items (spell_specs (specs_of specs.now))) }
{
    for spec in specs {
        put_spec(spec, into)?;
    }
    Ok(())
}

/// Appends one declaration specifier.
#[cycle(expressions)]
fn put_spec(spec: &Spec, into: &mut Vec<u8>) -> Mem<()>
    ensures { OnOk result (Appends into.old.items into.new.items (spell_specs (view_spec spec.now no_spec))) }
{
    match spec {
        Spec::Word(_, word) => put_keyword(Keyword::Spec(*word), into),
        Spec::TypedefName(_, name) => put_text(name, into),
        Spec::StructTag(_, tag) => {
            put_keyword(Keyword::Struct, into)?;
            put_text(tag, into)?;
            Ok(())
        }
        Spec::StructList(_, tag, members) => {
            put_keyword(Keyword::Struct, into)?;
            put_tag(tag, into)?;
            put_mark(Mark::OpenBrace, into)?;
            put_members(members, into)?;
            put_mark(Mark::CloseBrace, into)?;
            Ok(())
        }
        Spec::EnumTag(_, tag) => {
            put_keyword(Keyword::Enum, into)?;
            put_text(tag, into)?;
            Ok(())
        }
        Spec::EnumList(_, tag, enumerators, comma) => {
            put_keyword(Keyword::Enum, into)?;
            put_tag(tag, into)?;
            put_mark(Mark::OpenBrace, into)?;
            put_enumerators(enumerators, into)?;
            put_comma(*comma, into)?;
            put_mark(Mark::CloseBrace, into)?;
            Ok(())
        }
    }
}

/// Appends the members of a struct.
#[cycle(expressions)]
fn put_members(members: &[Member], into: &mut Vec<u8>) -> Mem<()>
    ensures { OnOk result (Appends into.old.items into.new.items (spell_members (members_of members.now))) }
{
    for member in members {
        put_specs(&member.specs, into)?;
        put_declarators(&member.declarators, into)?;
        put_mark(Mark::Semicolon, into)?;
    }
    Ok(())
}

/// Appends declarators, with a comma between two.
#[cycle(expressions)]
fn put_declarators(declarators: &[Declarator], into: &mut Vec<u8>) -> Mem<()>
    ensures { OnOk result (Appends into.old.items into.new.items (spell_declarators (declarators_of declarators.now))) }
{
    let [first, others @ ..] = declarators else {
        return Ok(());
    };
    put_declarator(first, into)?;
    for declarator in others {
        put_mark(Mark::Comma, into)?;
        put_declarator(declarator, into)?;
    }
    Ok(())
}

/// Appends enumerators, with a comma between two.
#[cycle(expressions)]
fn put_enumerators(enumerators: &[Enumerator], into: &mut Vec<u8>) -> Mem<()>
    ensures { OnOk result (Appends into.old.items into.new.items (spell_enumerators (enumerators_of enumerators.now))) }
{
    let [first, others @ ..] = enumerators else {
        return Ok(());
    };
    put_enumerator(first, into)?;
    for enumerator in others {
        put_mark(Mark::Comma, into)?;
        put_enumerator(enumerator, into)?;
    }
    Ok(())
}

/// Appends an enumerator and its value.
#[cycle(expressions)]
fn put_enumerator(enumerator: &Enumerator, into: &mut Vec<u8>) -> Mem<()>
    ensures { OnOk result (Appends into.old.items into.new.items (λ rest. Named enumerator.now.name ∷ spell_value (optional_of enumerator.now.value) rest)) }
{
    put_text(&enumerator.name, into)?;
    if let Some(value) = &enumerator.value {
        put_behind(Mark::Assign(AssignOp::Plain), value, into)?;
    }
    Ok(())
}

/// Appends a declarator.
#[cycle(expressions)]
pub(crate) fn put_declarator(declarator: &Declarator, into: &mut Vec<u8>) -> Mem<()>
    ensures { OnOk result (Appends into.old.items into.new.items (spell_declarator (view_declarator declarator.now))) }
{
    match declarator {
        Declarator::Nameless => Ok(()),
        Declarator::Name(_, name) => put_text(name, into),
        Declarator::Group(_, inner) => {
            put_mark(Mark::Open, into)?;
            put_declarator(inner, into)?;
            put_mark(Mark::Close, into)?;
            Ok(())
        }
        Declarator::Pointer(_, qualifiers, inner) => {
            put_mark(STAR, into)?;
            put_qualifiers(qualifiers.as_slice(), into)?;
            put_declarator(inner, into)?;
            Ok(())
        }
        Declarator::Array(_, inner, size) => {
            put_declarator(inner, into)?;
            put_size(size, into)?;
            Ok(())
        }
        Declarator::Function(_, inner, form, parameters) => {
            put_declarator(inner, into)?;
            put_mark(Mark::Open, into)?;
            put_parameters(parameters, into)?;
            put_form(*form, into)?;
            put_mark(Mark::Close, into)?;
            Ok(())
        }
    }
}

/// Appends the size of an array, where there is one, in its brackets.
#[cycle(expressions)]
fn put_size(size: &Option<Box<Expr>>, into: &mut Vec<u8>) -> Mem<()>
    ensures { OnOk result (Appends into.old.items into.new.items (λ rest. Sign Mark.OpenBracket ∷ spell_optional (optional_of size.now) (Sign Mark.CloseBracket ∷ rest))) }
{
    put_mark(Mark::OpenBracket, into)?;
    if let Some(size) = size {
        put_expression(size, into)?;
    }
    put_mark(Mark::CloseBracket, into)?;
    Ok(())
}

/// Appends parameters, with a comma between two.
#[cycle(expressions)]
fn put_parameters(parameters: &[Parameter], into: &mut Vec<u8>) -> Mem<()>
    ensures { OnOk result (Appends into.old.items into.new.items (spell_parameters (parameters_of parameters.now))) }
{
    let [first, others @ ..] = parameters else {
        return Ok(());
    };
    put_parameter(first, into)?;
    for parameter in others {
        put_mark(Mark::Comma, into)?;
        put_parameter(parameter, into)?;
    }
    Ok(())
}

/// Appends a parameter.
#[cycle(expressions)]
fn put_parameter(parameter: &Parameter, into: &mut Vec<u8>) -> Mem<()>
    ensures { OnOk result (Appends into.old.items into.new.items (λ rest. spell_specs (specs_of parameter.now.specs.items) (spell_declarator (view_declarator parameter.now.declarator) rest))) }
{
    put_specs(&parameter.specs, into)?;
    put_declarator(&parameter.declarator, into)?;
    Ok(())
}
