//! Questions about the order of paths. The first step of a row has orders, and the others put files and name the paths: an order is a digit
//! for each path, its place among the paths, and a blank stands between each two.

use crate::file::over::named;
use crate::file::resolvers::filled;
use crate::file::step::step_at;
use crate::file::told::Told;
use hex::encode;
use pbx_link::FileDescriptor;
use pbx_wire::{NoMemory, Text, Texts};
use protox_compile::Compiler;
use protox_file_sources::FileResolver;
use std::alloc::Global;
use std::mem::drop;
use test_rows::Row;

/// The paths in an order.
fn ordered(alloc: Global, names: &Texts, order: &str) -> Result<Texts, NoMemory> {
    let mut paths = Texts::new(alloc);
    for digit in order.as_bytes() {
        let at = usize::from(digit.saturating_sub(b'0'));
        if let Some(name) = names.as_slice().get(at) {
            paths.add(name.copy(alloc)?)?;
        }
    }
    Ok(paths)
}

/// The mark of the file of that name.
fn mark<R: FileResolver>(compiler: &Compiler<R>, name: &str) -> &'static str {
    for file in compiler.files() {
        if file.name() == name {
            return if file.is_import() { "(import)" } else { "" };
        }
    }
    "(absent)"
}

/// Adds the line of a file: its name, its mark, and the bytes of its record in hexadecimal digits.
fn add_line(
    alloc: Global,
    lines: &mut Vec<String>,
    file: &FileDescriptor,
    mark: &str,
) -> Result<(), NoMemory> {
    let bytes = file.encode_to_vec(alloc)?;
    let digits = encode(alloc, bytes.as_slice())?;
    let name = file.name();
    lines.push(format!(in alloc; "{name}{mark} {digits}")?)?;
    Ok(())
}

/// Adds the lines of the files.
fn add_lines<R: FileResolver>(
    alloc: Global,
    lines: &mut Vec<String>,
    compiler: &Compiler<R>,
) -> Result<(), NoMemory> {
    let pool = compiler.descriptor_pool();
    for file in pool.files() {
        let mark = mark(compiler, file.name());
        add_line(alloc, lines, &file, mark)?;
    }
    Ok(())
}

/// The lines of the files of paths, sorted, or one word where they are refused.
fn opened<R: FileResolver>(
    alloc: Global,
    compiler: &mut Compiler<R>,
    paths: &Texts,
) -> Result<Vec<String>, NoMemory> {
    let mut lines = Vec::new(alloc);
    if compiler.open_files(paths).is_err() {
        lines.push(String::from_str(alloc, "refused")?)?;
        return Ok(lines);
    }
    add_lines(alloc, &mut lines, compiler)?;
    lines.sort()?;
    Ok(lines)
}

/// The lines of the files of the paths in an order.
fn in_order(
    alloc: Global,
    row: &Row,
    order: &str,
    told: &mut Told,
) -> Result<Vec<String>, NoMemory> {
    let names = named(alloc, row, "path")?;
    let paths = ordered(alloc, &names, order)?;
    match Compiler::with_file_resolver(alloc, filled(alloc, row, told)) {
        Ok(mut compiler) => {
            let lines = opened(alloc, &mut compiler, &paths);
            drop(compiler);
            lines
        }
        Err(_) => Err(NoMemory),
    }
}

/// How many of the orders lead to files of these lines.
fn count(
    alloc: Global,
    row: &Row,
    orders: &str,
    lines: &Vec<String>,
    told: &mut Told,
) -> Result<u64, NoMemory> {
    let mut count: u64 = 0;
    for order in orders.split(' ') {
        let others = in_order(alloc, row, order, told)?;
        if others == *lines {
            count = count.saturating_add(1);
        }
    }
    Ok(count)
}

/// Adds the names and marks of the lines.
fn add_names(lines: &[String], told: &mut Told) {
    for line in lines {
        let (head, _) = line.as_str().split_once(' ').unwrap_or((line.as_str(), ""));
        told.add(" ");
        told.add(head);
    }
}

/// How many of the orders leave the same records and marks as the first one, and the names and marks.
pub(crate) fn of_paths(alloc: Global, row: &Row, told: &mut Told) {
    let orders = step_at(row, 0).text;
    let (first, _) = orders.split_once(' ').unwrap_or((orders, ""));
    let Ok(lines) = in_order(alloc, row, first, told) else {
        told.say("out of memory");
        return;
    };
    match count(alloc, row, orders, &lines, told) {
        Ok(count) => {
            told.add_number(count);
            add_names(lines.as_slice(), told);
        }
        Err(_) => told.say("out of memory"),
    }
}
