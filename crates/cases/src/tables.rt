// The table of a block is a file, with a case to a line: the operation; its text, or a name where it has none; and the columns of what is asked and of
// what must come of it. For the printer they are two files, the bytes that are read and what must be printed. A line that starts with # is a comment.
use crate::columns::Case;
use crate::tally::Tally;
use crate::{operations, printed};
use std::io::Print;
use std::rt::Files;
use std::{fs, io};

// Whether the case of a line holds.
fn holds(rt: &(impl Files + Alloc), line: &[u8]) -> bool {
    let mut parts = line.splitn(3, |byte| *byte == b' ');
    let (Some(operation), Some(text), Some(rest)) = (parts.next(), parts.next(), parts.next())
    else {
        return false;
    };
    match operation {
        b"printer" => printed::printer(rt, text, rest),
        _ => operations::holds(operation, &Case::new(text, rest)),
    }
}

// The cases of a table, which are its lines but for comments.
fn cases(rt: &(impl Files + Alloc + Print), table: &[u8]) -> io::Result<Tally> {
    let mut tally = Tally::default();
    let lines = table.strip_suffix(b"\n").unwrap_or(table);
    for line in lines.split(|byte| *byte == b'\n') {
        if !line.starts_with(b"#") {
            tally.count(rt, line, holds(rt, line))?;
        }
    }
    Ok(tally)
}

// The cases of the table that a file has. One that cannot be read, or that is empty, is a case that does not hold.
fn block(rt: &(impl Files + Alloc + Print), file: &str) -> io::Result<Tally> {
    match fs::read(rt, file) {
        Ok(table) if !table.is_empty() => cases(rt, &table),
        _ => {
            let mut tally = Tally::default();
            tally.count(rt, file.as_bytes(), false)?;
            Ok(tally)
        }
    }
}

// Runs the cases of a block, and writes its line.
pub fn run(rt: &(impl Files + Alloc + Print), file: &str) -> io::Result<()> {
    let tally = block(rt, file)?;
    println!(rt; "{file}: {tally}")
}
