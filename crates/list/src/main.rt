// Lists the packets on standard input: document 01, the program `list`. What it prints is made whole by the crate
// `listing`; what is left is to read and to write. A read error is told on standard error, and nothing on standard
// output.
#![tactic(auto)]

fn main(rt: HostRuntime) {
    if !list_print::print_from(&mut rt.stdin(), &mut rt.stdout()) {
        let _ = rt.eprintln("list: standard input cannot be read");
    }
}
