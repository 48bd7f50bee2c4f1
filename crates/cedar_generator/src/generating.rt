// SPDX-License-Identifier: Apache-2.0
ghost use Rattle.std.specs.Prelude.{◌≡◌, ◌≤◌, ◌++◌, IfOk, OnOk};
ghost use Rattle.std.specs.String.{string_bytes};
ghost use Rattle.cedar_generator.specs.Generated.{action_line, entity_line, generated, lines_of, type_line};

use cedar_data::Mem;
use std::alloc::Global;

/// The schema of a size: for each number from 1 to `n` a common type, an entity type and an action.
/// It fails only for want of memory.
pub fn generate(alloc: Global, n: u32) -> Mem<String>
    ensures { IfOk result (λ text. string_bytes text ≡ generated n) }
{
    let mut text = String::new(alloc);
    for index in 0..n {
        push_lines(alloc, &mut text, index + 1)?;
    }
    Ok(text)
}

/// Puts the three lines of a number behind a text.
fn push_lines(alloc: Global, text: &mut String, i: u32) -> Mem<()>
    requires { 1 ≤ i }
    ensures { OnOk result (string_bytes text.new ≡ string_bytes text.old ++ lines_of i) }
{
    let line = type_line(alloc, i)?;
    text.push_str(line.as_str())?;
    let line = entity_line(alloc, i)?;
    text.push_str(line.as_str())?;
    let line = action_line(alloc, i)?;
    text.push_str(line.as_str())?;
    Ok(())
}

/// The line of common type `i`.
fn type_line(alloc: Global, i: u32) -> Mem<String>
    requires { 1 ≤ i }
    ensures { IfOk result (λ line. string_bytes line ≡ type_line i) }
{
    if i % 16 == 1 {
        let line = format!(in alloc; "type T{i} = Long;\n")?;
        return Ok(line);
    }
    let previous = i - 1;
    let line = format!(in alloc; "type T{i} = Set<T{previous}>;\n")?;
    Ok(line)
}

/// The line of entity type `i`.
fn entity_line(alloc: Global, i: u32) -> Mem<String>
    ensures { IfOk result (λ line. string_bytes line ≡ entity_line i) }
{
    if i == 1 {
        let line = format!(in alloc; "entity E{i} = {{ \"t\": T{i} }};\n")?;
        return Ok(line);
    }
    let half = i / 2;
    let line = format!(in alloc; "entity E{i} in E{half} = {{ \"t\": T{i} }};\n")?;
    Ok(line)
}

/// The line of action `i`.
fn action_line(alloc: Global, i: u32) -> Mem<String>
    ensures { IfOk result (λ line. string_bytes line ≡ action_line i) }
{
    let line = format!(in alloc;
        "action \"a{i}\" appliesTo {{ principal: E{i}, resource: E1 }};\n"
    )?;
    Ok(line)
}
