// Says why the packet or rowset on standard input is refused: document 02, the program `why`. What it prints is made
// whole by the crate `whying`; what is left is to read and to write. A read error is told on standard error, and
// nothing on standard output.
#![tactic(auto)]

fn main(rt: HostRuntime) {
    if !why_print::print_from(&mut rt.stdin(), &mut rt.stdout()) {
        let _ = rt.eprintln("why: standard input cannot be read");
    }
}
