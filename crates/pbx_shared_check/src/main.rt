//! Shows what no clause of `pbx_shared` and of its users says: that calls succeed, that handles are counted, who sees what is
//! written, and that a value goes with its last handle.
//!
//! It makes and drops ten million copies of one handle, and makes, shares and drops a hundred thousand values of 64 KiB one
//! after another, and prints the counts. Under a limit of memory it ends only if what is dropped is freed.
#![tactic(auto)]

mod counts;
mod descriptor;
mod editable;
mod handles;
mod uses;

use std::alloc::AllocError;
use std::io;

/// Prints the numbers behind what they are.
fn show(rt: &HostRuntime, what: &str, numbers: &[u64]) -> io::Result<()> {
    print!(rt; "{what}:")?;
    for number in numbers {
        print!(rt; " {number}")?;
    }
    println!(rt; "")
}

/// The same, where there was memory for what they are of.
fn show_made<const N: usize>(
    rt: &HostRuntime,
    what: &str,
    numbers: Result<[u64; N], AllocError>,
) -> io::Result<()> {
    show(rt, what, &numbers?)
}

fn show_counts(rt: &HostRuntime) -> io::Result<()> {
    let copies = counts::make_copies(rt.alloc())?;
    show(rt, "copies made and dropped", &[copies.made])?;
    show(
        rt,
        "handles left that have the value alone",
        &[copies.alone],
    )?;
    let values = counts::make_values(rt.alloc())?;
    show(rt, "values made and shared", &[values.made])?;
    show(
        rt,
        "values dropped with their last handle",
        &[values.dropped],
    )
}

fn show_clone(rt: &HostRuntime) -> io::Result<()> {
    let printed = handles::print_clone(rt.alloc())?;
    println!(rt; "a handle and its clone: {printed}")
}

fn show_handles(rt: &HostRuntime) -> io::Result<()> {
    show_made(
        rt,
        "values gone with each of three handles",
        handles::drop_three(rt.alloc()),
    )?;
    show_made(
        rt,
        "refused beside another handle, unwrapped alone, gone then, gone in the end",
        handles::unwrap_last(rt.alloc()),
    )?;
    show_made(
        rt,
        "written alone, read beside another handle, alone again",
        handles::write_alone(rt.alloc()),
    )?;
    show_made(
        rt,
        "equal values equal, other values not",
        handles::compare(rt.alloc()),
    )?;
    show_made(
        rt,
        "one with its copy, one with an equal value, alone again",
        handles::tell_apart(rt.alloc()),
    )?;
    show_clone(rt)
}

fn show_uses(rt: &HostRuntime) -> io::Result<()> {
    show_made(
        rt,
        "number and fields of a descriptor",
        uses::share_content(rt.alloc()),
    )?;
    show_made(
        rt,
        "fields of a message, its descriptor's number, its field",
        uses::make_message(rt.alloc()),
    )?;
    show_made(
        rt,
        "written through a handle, written again, read through the other",
        uses::edit(rt.alloc()),
    )?;
    show_made(
        rt,
        "number of a handle, and of its renumbered copy",
        uses::renumber(rt.alloc()),
    )?;
    show_made(
        rt,
        "same pair of equal values, and of a value more",
        uses::compare(rt.alloc()),
    )
}

fn main(rt: HostRuntime) -> io::Result<()> {
    show_counts(&rt)?;
    show_handles(&rt)?;
    show_uses(&rt)
}
