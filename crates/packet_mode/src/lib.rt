// A packet's mode as callers in other languages give it: 0 is archive, any other number is live.
#![tactic(auto)]

ghost use Rattle.packet_mode.specs.Statement.{GivesMode};

use packet::Mode;

// The mode of a number. It is no `From`: the type is `packet`'s, and a mode is a number for the C interface alone.
pub fn mode_of(number: u64) -> Mode
    ensures { GivesMode number result }
{
    if number == 0 {
        Mode::Archive
    } else {
        Mode::Live
    }
}
