// SPDX-License-Identifier: Apache-2.0
use crate::verbs::answer;
use anyhow::{Context, Result};
use cedar_row_files::{Answer, BadLine, Row, RowFault, Rows, rows_of, written};
use std::{fs, io};

/// How a row ended.
#[derive(Clone, Copy)]
enum Outcome {
    /// Its answer is the one beside it.
    Right,
    /// Its answer is another.
    Differs,
    /// Its verb is unknown.
    Unknown,
}

/// How many rows of a file are wrong.
#[derive(Clone, Copy)]
struct Wrong {
    differing: usize,
    unknown: usize,
}

/// The names of the files of rows of the folder, in order.
pub fn all(rt: &HostRuntime) -> io::Result<Vec<String>> {
    let mut names = Vec::new(rt.alloc());
    for entry in fs::read_dir(rt, ".")? {
        let entry = entry?;
        if entry.file_name().ends_with(".rows") {
            names.push(String::from_str(rt.alloc(), entry.file_name())?)?;
        }
    }
    names.sort()?;
    Ok(names)
}

/// Runs the rows of a file, and prints how many there are, and how many of them differ where any does, and how many
/// lines are bad where any is.
pub fn run(rt: &HostRuntime, name: &str) -> Result<()> {
    let rows = read(rt, name)?;
    print_bad_lines(rt, name, rows.bad_lines.as_slice())?;
    let wrong = run_rows(rt, name, rows.sound.as_slice())?;
    let bad = rows.bad_lines.len().saturating_add(wrong.unknown);
    print_count(rt, name, rows.sound.len(), wrong.differing, bad)
}

fn print_bad_lines(rt: &HostRuntime, name: &str, bad_lines: &[BadLine]) -> Result<()> {
    for bad in bad_lines {
        println!(rt; "{name}:{}: {}", bad.line, bad.fault)?;
    }
    Ok(())
}

/// Prints how many rows a file has, and how many of them are wrong.
fn print_count(
    rt: &HostRuntime,
    name: &str,
    rows: usize,
    differing: usize,
    bad: usize,
) -> Result<()> {
    print!(rt; "{name}: {rows} rows")?;
    if differing > 0 {
        print!(rt; ", {differing} differ")?;
    }
    if bad > 0 {
        print!(rt; ", {bad} bad lines")?;
    }
    println!(rt; "")?;
    Ok(())
}

/// The rows and the bad lines of a file.
fn read(rt: &HostRuntime, name: &str) -> Result<Rows> {
    let text = fs::read_to_string(rt, name).context(format_args!("{name}"))?;
    Ok(rows_of(rt.alloc(), text.as_str())?)
}

/// Runs rows, and tells how many of them are wrong.
fn run_rows(rt: &HostRuntime, name: &str, rows: &[Row]) -> Result<Wrong> {
    let mut wrong = Wrong {
        differing: 0,
        unknown: 0,
    };
    for row in rows {
        match run_row(rt, name, row)? {
            Outcome::Right => {}
            Outcome::Differs => wrong.differing = wrong.differing.saturating_add(1),
            Outcome::Unknown => wrong.unknown = wrong.unknown.saturating_add(1),
        }
    }
    Ok(wrong)
}

/// Runs a row, and prints where its answer differs, or that its verb is unknown.
fn run_row(rt: &HostRuntime, name: &str, row: &Row) -> Result<Outcome> {
    let wanted = row.wanted(rt.alloc())?;
    match answer(rt.alloc(), row)? {
        Some(given) if given == wanted => Ok(Outcome::Right),
        Some(given) => print_difference(rt, name, row.line, &wanted, &given),
        None => print_unknown(rt, name, row.line),
    }
}

fn print_unknown(rt: &HostRuntime, name: &str, line: usize) -> Result<Outcome> {
    println!(rt; "{name}:{line}: {}", RowFault::UnknownVerb)?;
    Ok(Outcome::Unknown)
}

fn print_difference(
    rt: &HostRuntime,
    name: &str,
    line: usize,
    wanted: &Answer,
    given: &Answer,
) -> Result<Outcome> {
    let wanted = written(rt.alloc(), wanted)?;
    let given = written(rt.alloc(), given)?;
    print!(rt; "{name}:{line}: differs\nwanted\n{wanted}given\n{given}")?;
    Ok(Outcome::Differs)
}
