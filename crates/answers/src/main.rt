// Everything that `ackfile` and `room` do, one after the other: each four of the arguments are what they are given, and their replies follow
// a heading.
#![tactic(auto)]

use paper::Ask;
use std::io;

// A heading, and the first of the four arguments.
const TRIES: [(&str, u32); 15] = [
    ("a judged file", 1),
    ("a whole rejection", 5),
    ("a transmission of 65,537 bytes", 9),
    ("a pack that is not well formed", 13),
    ("a date of nine digits", 17),
    ("a file name of three bytes", 21),
    ("more than 65,536 bytes to write", 25),
    ("a pack of 65,537 bytes", 29),
    ("both of 65,537 bytes", 33),
    ("no file where the transmission should be", 37),
    ("a folder where the transmission should be", 41),
    ("no file where the pack should be", 45),
    ("a folder where the pack should be", 49),
    ("no file name", 53),
    ("no argument", 56),
];

fn main(rt: HostRuntime) -> io::Result<()> {
    for (heading, first) in TRIES {
        println!(rt; "{heading}:")?;
        desk::serve(&rt, Ask::File, first)?;
        print!(rt; "\nroom: ")?;
        desk::serve(&rt, Ask::Room, first)?;
    }
    Ok(())
}
