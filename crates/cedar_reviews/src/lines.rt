// SPDX-License-Identifier: Apache-2.0
ghost use Rattle.std.specs.Prelude.{◌≡◌, ◌++◌, IfOk, OnOk};
ghost use Rattle.std.specs.String.{string_bytes};
ghost use Rattle.cedar_reviews.specs.Judging.{environment_line, environment_lines};

use cedar_data::Mem;
use std::alloc::Global;

/// A line for each number of a request environment.
pub(crate) fn environment_lines(alloc: Global, numbers: &[u64]) -> Mem<String>
    ensures { IfOk result (λ lines. string_bytes lines ≡ environment_lines numbers.now) }
{
    let mut lines = String::new(alloc);
    for number in numbers {
        push_line(alloc, &mut lines, *number)?;
    }
    Ok(lines)
}

/// Puts the line of a number behind a text.
fn push_line(alloc: Global, lines: &mut String, number: u64) -> Mem<()>
    ensures { OnOk result
        (string_bytes lines.new ≡ string_bytes lines.old ++ environment_line number) }
{
    let line = format!(in alloc; "env {number}\n")?;
    lines.push_str(line.as_str())?;
    Ok(())
}
