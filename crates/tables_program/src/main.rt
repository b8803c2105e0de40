//! The program `tables`: what its words ask for, over the files that they name.
#![tactic(auto)]

use std::env;
use std::io::ErrorKind;
use std::process::ExitCode;
use tables::{FilePlaces, run};

fn main(rt: HostRuntime) -> ExitCode {
    let alloc = rt.alloc();
    let mut words = Vec::new(alloc);
    match env::args(&rt) {
        Ok(all) => {
            for word in all.skip(1) {
                if words.push(word).is_err() {
                    return out_of_memory(&rt);
                }
            }
        }
        Err(error) if error.kind() == ErrorKind::OutOfMemory => return out_of_memory(&rt),

        // A word that is no text states no command, and neither do no words.
        Err(_) => {}
    }
    let mut places = FilePlaces::new(&rt);
    ExitCode::from(run(alloc, &mut places, &words, &mut rt.stderr()))
}

fn out_of_memory(rt: &impl Eprint) -> ExitCode {
    let _ = rt.eprintln("tables: out of memory");
    ExitCode::from(2)
}
