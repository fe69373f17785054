// Runs the cases of document 01 and compares: the shelf printer's inputs; then, through the operations, W1 to W12, what is named under "Also
// run", and the refusals of each operation. The cases of a block are the lines of a file of data/. It writes a line for each case that differs,
// and for each block how many of its cases hold. Cases with m = k stand in blocks of their own.
#![tactic(auto)]

mod columns;
mod operations;
mod printed;
mod tables;
mod tally;

use std::io;

fn main(rt: HostRuntime) -> io::Result<()> {
    let blocks = [
        "printer-malformed",
        "printer-well-formed",
        "printer-m-equal-to-k",
        "W1-to-W12",
        "also-run",
        "refusals",
        "m-equal-to-k",
    ];
    for block in blocks {
        tables::run(&rt, block)?;
    }
    Ok(())
}
