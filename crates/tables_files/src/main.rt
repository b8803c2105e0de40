//! Runs each command of the file `commands` over the files beside it, and prints what came of it.
#![tactic(auto)]

use std::alloc::{AllocError, Global};
use std::fmt::Write;
use std::rt::Files;
use std::{fs, io};
use tables::{FilePlaces, run};

// What stands under the output's name before each command, so that an untouched output shows.
const BEFORE: &[u8] = b"before";

const OUTPUT: &str = "output.stream";

const BYTES_A_LINE: usize = 32;

fn main(rt: HostRuntime) -> io::Result<()> {
    let commands = fs::read_to_string(&rt, "commands")?;
    for line in commands.lines() {
        show(&rt, line)?;
    }
    fs::remove_file(&rt, OUTPUT)
}

// Prints a command, its status, its line on standard error, and the output's bytes.
fn show<R: Files + AllocGlobal + Print>(rt: &R, line: &str) -> io::Result<()> {
    let alloc = rt.alloc();
    fs::write(rt, OUTPUT, BEFORE)?;
    let words = words_of(alloc, line)?;
    let mut err = Vec::new(alloc);
    let mut places = FilePlaces::new(rt);
    let status = run(alloc, &mut places, &words, &mut err);
    println!(rt; "$ tables {line}")?;
    println!(rt; "status {status}")?;
    let text = String::from_utf8_lossy(alloc, &err)?;
    print!(rt; "{text}")?;
    print_bytes(rt, &fs::read(rt, OUTPUT)?)
}

fn words_of(alloc: Global, line: &str) -> Result<Vec<String>, AllocError> {
    line.split_whitespace()
        .map(|word| String::from_str(alloc, word))
        .try_collect(alloc)
}

fn print_bytes<R: AllocGlobal + Print>(rt: &R, bytes: &[u8]) -> io::Result<()> {
    for row in bytes.chunks(BYTES_A_LINE) {
        let mut line = String::new(rt.alloc());
        for byte in row {
            write!(line, "{byte:02x}")?;
        }
        println!(rt; "{line}")?;
    }
    Ok(())
}
