// Lists each file that its arguments name, behind a line with the name: inputs at the edges of `list`, with the output
// that each must have, for a gate that runs a program on one standard input only. Its twin `why_samples` stays: only a
// program's `main` has the runtime that opens the files, and one function for both would be generic over it.
#![tactic(auto)]

use std::env::FillError;
use std::fs::File;
use std::rt::Env;

// Lists what the path names, or says why it cannot.
fn list_path(rt: &HostRuntime, path: &str) {
    match File::open(rt, path) {
        Ok(mut file) => {
            if !list_print::print_from(&mut file, &mut rt.stdout()) {
                let _ = rt.eprintln("list_samples: a file cannot be read");
            }
        }
        Err(_) => {
            let _ = rt.eprintln("list_samples: a file cannot be opened");
        }
    }
}

fn list_file(rt: &HostRuntime, name: &[u8]) {
    let out = rt.stdout();
    let _ = out.write_all(b"== ");
    let _ = out.write_all(name);
    let _ = out.write_all(b"\n");
    match str::from_utf8(name) {
        Ok(path) => list_path(rt, path),
        Err(_) => {
            let _ = rt.eprintln("list_samples: a file cannot be opened");
        }
    }
}

fn main(rt: HostRuntime) {
    for i in 1..usize::MAX {
        let mut name = [0u8; 64];
        match rt.arg(i, &mut name) {
            Ok(size) => list_file(&rt, &name[..size]),
            // No file of so long a name is listed.
            Err(FillError::TooLong) => list_file(&rt, b""),
            Err(FillError::NotPresent) => return,
        }
    }
}
