//! Outlines of expressions, specifiers and declarators.

use crate::words::{
    assign_name, begin, end, infix_name, prefix_name, put, put_bytes, put_tag, qualifier_name,
    spec_name,
};
use ct_base::{Bytes, Items, Mem};
use ct_syntax::{
    Declarator, Enumerator, Expr, Member, MemberOp, Parameter, ParameterForm, Qualifier, Spec,
    StepOp,
};

/// Puts an expression.
#[cycle(expressions)]
pub fn put_expression(x: &Expr, out: &mut String) -> Mem<()> {
    match x {
        Expr::Name(_, text) | Expr::Number(_, text) | Expr::Character(_, text) => {
            put_bytes(text, out)
        }
        Expr::Text(_, first, others) => put_texts(first, others, out),
        Expr::Paren(_, inner) => put_one("paren", inner, out),
        Expr::Index(_, array, place) => put_two("index", array, place, out),
        Expr::Call(_, function, arguments) => put_call(function, arguments, out),
        Expr::Member(_, whole, op, name) => put_member(whole, *op, name, out),
        Expr::Postfix(_, operand, StepOp::Increment) => put_one("post++", operand, out),
        Expr::Postfix(_, operand, StepOp::Decrement) => put_one("post--", operand, out),
        Expr::Prefix(_, StepOp::Increment, operand) => put_one("++", operand, out),
        Expr::Prefix(_, StepOp::Decrement, operand) => put_one("--", operand, out),
        Expr::Unary(_, op, operand) => put_one(prefix_name(*op), operand, out),
        Expr::SizeofValue(_, operand) => put_one("sizeof", operand, out),
        Expr::SizeofType(_, specs, declarator) => put_type("sizeof-type", specs, declarator, out),
        Expr::Cast(_, specs, declarator, operand) => put_cast(specs, declarator, operand, out),
        Expr::Infix(_, op, left, right) => put_two(infix_name(*op), left, right, out),
        Expr::Assign(_, op, left, right) => put_two(assign_name(*op), left, right, out),
        Expr::Comma(_, left, right) => put_two(",", left, right, out),
        Expr::Conditional(_, test, yes, no) => put_three("?", test, yes, no, out),
    }
}

/// Puts a list of one part.
#[cycle(expressions)]
fn put_one(head: &str, x: &Expr, out: &mut String) -> Mem<()> {
    begin(head, out)?;
    put_expression(x, out)?;
    end(out)
}

/// Puts a list of two parts.
#[cycle(expressions)]
fn put_two(head: &str, x: &Expr, y: &Expr, out: &mut String) -> Mem<()> {
    begin(head, out)?;
    put_expression(x, out)?;
    put_expression(y, out)?;
    end(out)
}

/// Puts a list of three parts.
#[cycle(expressions)]
fn put_three(head: &str, x: &Expr, y: &Expr, z: &Expr, out: &mut String) -> Mem<()> {
    begin(head, out)?;
    put_expression(x, out)?;
    put_expression(y, out)?;
    put_expression(z, out)?;
    end(out)
}

/// Puts string literals.
fn put_texts(first: &Bytes, others: &Items<Bytes>, out: &mut String) -> Mem<()> {
    begin("text", out)?;
    put_bytes(first, out)?;
    for text in others.as_slice() {
        put_bytes(text, out)?;
    }
    end(out)
}

/// Puts a call.
#[cycle(expressions)]
fn put_call(function: &Expr, arguments: &[Expr], out: &mut String) -> Mem<()> {
    begin("call", out)?;
    put_expression(function, out)?;
    for argument in arguments {
        put_expression(argument, out)?;
    }
    end(out)
}

/// Puts a member.
#[cycle(expressions)]
fn put_member(whole: &Expr, op: MemberOp, name: &Bytes, out: &mut String) -> Mem<()> {
    match op {
        MemberOp::Dot => begin(".", out)?,
        MemberOp::Arrow => begin("->", out)?,
    }
    put_expression(whole, out)?;
    put_bytes(name, out)?;
    end(out)
}

/// Puts a type name.
#[cycle(expressions)]
fn put_type(head: &str, specs: &[Spec], declarator: &Declarator, out: &mut String) -> Mem<()> {
    begin(head, out)?;
    put_specs(specs, out)?;
    put_declarator(declarator, out)?;
    end(out)
}

/// Puts a cast.
#[cycle(expressions)]
fn put_cast(specs: &[Spec], declarator: &Declarator, operand: &Expr, out: &mut String) -> Mem<()> {
    begin("cast", out)?;
    put_type("type", specs, declarator, out)?;
    put_expression(operand, out)?;
    end(out)
}

/// Puts specifiers as a list.
#[cycle(expressions)]
pub fn put_specs(specs: &[Spec], out: &mut String) -> Mem<()> {
    begin("specs", out)?;
    for spec in specs {
        put_spec(spec, out)?;
    }
    end(out)
}

/// Puts a specifier.
#[cycle(expressions)]
fn put_spec(spec: &Spec, out: &mut String) -> Mem<()> {
    match spec {
        Spec::Word(_, word) => put(spec_name(*word), out),
        Spec::TypedefName(_, name) => put_bytes(name, out),
        Spec::StructTag(_, tag) => {
            begin("struct-tag", out)?;
            put_bytes(tag, out)?;
            end(out)
        }
        Spec::StructList(_, tag, members) => put_struct(tag, members, out),
        Spec::EnumTag(_, tag) => {
            begin("enum-tag", out)?;
            put_bytes(tag, out)?;
            end(out)
        }
        Spec::EnumList(_, tag, enumerators, comma) => put_enum(tag, enumerators, *comma, out),
    }
}

/// Puts a struct with its members.
#[cycle(expressions)]
fn put_struct(tag: &Option<Bytes>, members: &[Member], out: &mut String) -> Mem<()> {
    begin("struct", out)?;
    put_tag(tag, out)?;
    for member in members {
        put_members(member, out)?;
    }
    end(out)
}

/// Puts a declaration of members.
#[cycle(expressions)]
fn put_members(member: &Member, out: &mut String) -> Mem<()> {
    begin("member", out)?;
    put_specs(&member.specs, out)?;
    for declarator in &member.declarators {
        put_declarator(declarator, out)?;
    }
    end(out)
}

/// Puts an enumeration with its constants, and `,` where a comma stands behind the last.
#[cycle(expressions)]
fn put_enum(
    tag: &Option<Bytes>,
    enumerators: &[Enumerator],
    comma: bool,
    out: &mut String,
) -> Mem<()> {
    begin("enum", out)?;
    put_tag(tag, out)?;
    for enumerator in enumerators {
        put_enumerator(enumerator, out)?;
    }
    if comma {
        put(",", out)?;
    }
    end(out)
}

/// Puts an enumeration constant.
#[cycle(expressions)]
fn put_enumerator(enumerator: &Enumerator, out: &mut String) -> Mem<()> {
    match &enumerator.value {
        None => put_bytes(&enumerator.name, out),
        Some(value) => {
            begin("=", out)?;
            put_bytes(&enumerator.name, out)?;
            put_expression(value, out)?;
            end(out)
        }
    }
}

/// Puts a declarator; `_` stands where no name does.
#[cycle(expressions)]
pub fn put_declarator(declarator: &Declarator, out: &mut String) -> Mem<()> {
    match declarator {
        Declarator::Nameless => put("_", out),
        Declarator::Name(_, name) => put_bytes(name, out),
        Declarator::Group(_, inner) => {
            begin("paren", out)?;
            put_declarator(inner, out)?;
            end(out)
        }
        Declarator::Pointer(_, qualifiers, inner) => put_pointer(qualifiers, inner, out),
        Declarator::Array(_, inner, size) => {
            begin("array", out)?;
            put_declarator(inner, out)?;
            put_size(size, out)?;
            end(out)
        }
        Declarator::Function(_, inner, form, parameters) => {
            begin("function", out)?;
            put_declarator(inner, out)?;
            put_parameters(parameters, out)?;
            put_form(*form, out)?;
            end(out)
        }
    }
}

/// Puts a pointer.
#[cycle(expressions)]
fn put_pointer(qualifiers: &Items<Qualifier>, inner: &Declarator, out: &mut String) -> Mem<()> {
    begin("*", out)?;
    for qualifier in qualifiers.as_slice() {
        put(qualifier_name(*qualifier), out)?;
    }
    put_declarator(inner, out)?;
    end(out)
}

/// Puts the size of an array, where it has one.
#[cycle(expressions)]
fn put_size(size: &Option<Box<Expr>>, out: &mut String) -> Mem<()> {
    match size {
        Some(size) => put_expression(size, out),
        None => Ok(()),
    }
}

/// Puts how a parameter list is written.
fn put_form(form: ParameterForm, out: &mut String) -> Mem<()> {
    match form {
        ParameterForm::Empty | ParameterForm::Fixed => Ok(()),
        ParameterForm::Void => put("void", out),
        ParameterForm::Variadic => put("...", out),
    }
}

/// Puts parameters.
#[cycle(expressions)]
fn put_parameters(parameters: &[Parameter], out: &mut String) -> Mem<()> {
    for parameter in parameters {
        put_parameter(parameter, out)?;
    }
    Ok(())
}

/// Puts a parameter.
#[cycle(expressions)]
fn put_parameter(parameter: &Parameter, out: &mut String) -> Mem<()> {
    put_type("parameter", &parameter.specs, &parameter.declarator, out)
}
