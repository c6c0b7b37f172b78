//! The types of commands, as lines of text.
ghost use Rattle.std.specs.Prelude.{◌≡◌, ◌++◌, map, flat_map, option_map, IfOk, OnOk, string_bytes};
ghost use Rattle.lam_query.specs.Views.{command_type_of};
ghost use Rattle.lam_check.specs.Types.{typed_line, line_of_type, AreTypes};

use lam_query::answers::CommandType;
use lam_query::command_types;
use lam_rules::Dialect;
use std::alloc::{AllocError, Global};

/// Returns a line for each command of a text that has a type: the least type of its term, or the type that it declares or
/// abbreviates, after the name that it binds, if any. There are no lines if the text has a type of more than 4,096 nodes.
pub fn types_text(alloc: Global, text: &str, dialect: Dialect) -> Result<String, AllocError>
    ensures { IfOk result (λ lines. AreTypes text.now (string_bytes lines) dialect) }
{
    match command_types(alloc, text, dialect)? {
        Some(types) => lines_of(alloc, &types),
        None => Ok(String::new(alloc)),
    }
}

fn lines_of(alloc: Global, types: &[CommandType]) -> Result<String, AllocError>
    ensures { IfOk result (λ lines. string_bytes lines ≡ flat_map line_of_type (map command_type_of types.now)) }
{
    let mut lines = String::new(alloc);
    for shown in types {
        push_line(&mut lines, shown)?;
    }
    Ok(lines)
}

/// Appends the line of a command.
fn push_line(out: &mut String, shown: &CommandType) -> Result<(), AllocError>
    ensures { OnOk result (string_bytes out.new ≡ string_bytes out.old ++ line_of_type (command_type_of shown.now)) }
{
    match shown {
        CommandType::Name(name, text) => push_typed(out, name, " : ", text),
        CommandType::TypeName(name, text) => push_typed(out, name, " :: ", text),
        CommandType::Term(text) => push_typed(out, "", "", text),
    }
}

/// Appends a line with a name, a sign and a type, if there is a type.
fn push_typed(
    out: &mut String,
    name: &str,
    sign: &str,
    text: &Option<String>,
) -> Result<(), AllocError>
    ensures { OnOk result (string_bytes out.new ≡ string_bytes out.old ++ typed_line name.now sign.now (option_map (λ t. string_bytes t) text.now)) }
{
    let Some(text) = text else {
        return Ok(());
    };
    out.push_str(name)?;
    out.push_str(sign)?;
    out.push_str(text)?;
    out.push_str("\n")
}
