// Explains each file that its arguments name, behind a line with the name: the worked examples of `why`, every number
// and every field, with the line that each must have, for a gate that runs a program on one standard input only. Why
// its twin `list_samples` stays is told there.
#![tactic(auto)]

use std::env::FillError;
use std::fs::File;
use std::rt::Env;

// Explains what the path names, or says why it cannot.
fn explain_path(rt: &HostRuntime, path: &str) {
    match File::open(rt, path) {
        Ok(mut file) => {
            if !why_print::print_from(&mut file, &mut rt.stdout()) {
                let _ = rt.eprintln("why_samples: a file cannot be read");
            }
        }
        Err(_) => {
            let _ = rt.eprintln("why_samples: a file cannot be opened");
        }
    }
}

fn explain_file(rt: &HostRuntime, name: &[u8]) {
    let out = rt.stdout();
    let _ = out.write_all(b"== ");
    let _ = out.write_all(name);
    let _ = out.write_all(b"\n");
    match str::from_utf8(name) {
        Ok(path) => explain_path(rt, path),
        Err(_) => {
            let _ = rt.eprintln("why_samples: a file cannot be opened");
        }
    }
}

fn main(rt: HostRuntime) {
    for i in 1..usize::MAX {
        let mut name = [0u8; 64];
        match rt.arg(i, &mut name) {
            Ok(size) => explain_file(&rt, &name[..size]),
            // No file of so long a name is explained.
            Err(FillError::TooLong) => explain_file(&rt, b""),
            Err(FillError::NotPresent) => return,
        }
    }
}
