// Plays the service center on files: its arguments are the pack's path, the transmission's path, the receiving date and the name of the
// acknowledgment file. It writes the file, or "refused " with the number and a line end.
#![tactic(auto)]

use paper::Ask;
use std::io;

fn main(rt: HostRuntime) -> io::Result<()> {
    desk::serve(&rt, Ask::File, 1)
}
