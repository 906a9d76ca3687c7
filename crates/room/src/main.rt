// How much room an acknowledgment file needs: its arguments are those of ackfile. It writes the file's length, or "refused " with the
// number, and a line end.
#![tactic(auto)]

use paper::Ask;
use std::io;

fn main(rt: HostRuntime) -> io::Result<()> {
    desk::serve(&rt, Ask::Room, 1)
}
