// Acknowledges the tried transmissions in data/ and compares each reply with the right one, byte for byte.
#![tactic(auto)]

ghost use Rattle.std.specs.Prelude.{◌≡◌, ◌++◌, ◌≤◌, length, replicate};
ghost use Rattle.paper.specs.Bytes.{bytes, written, laid};
ghost use Rattle.vectors.specs.Paths.{path_of};

use std::fs::Files;
use std::io;

const CASES: usize = 194;

// The folder of case i, and a slash.
fn folder_of(i: usize) -> [u8; 4]
    ensures { result ≡ written 3 i ++ bytes "/" }
{
    let [hundreds, tens, ones] = text::written::<3>(i as u64);
    [hundreds, tens, ones, b'/']
}

// The path of a part of case i, whose name has at most 12 letters, and zeros after it.
#[tactic(auto, using(crate::proofs::Laws::path_laid))]
fn path_of(i: usize, part: &[u8]) -> [u8; 16]
    ensures { result ≡ laid (replicate 16 0) 0 (path_of i part.now) }
{
    let mut path = [0u8; 16];
    text::lay(&mut path, 0, &folder_of(i));
    text::lay(&mut path, 4, part);
    path
}

// A part of case i, read into buf.
fn read_part<'a, R: Files>(rt: &R, i: usize, part: &[u8], buf: &'a mut [u8]) -> &'a [u8]
    requires { length part.now ≤ 12 }
    ensures { length result.now ≤ length buf.old }
{
    let path = path_of(i, part);
    desk::read_file(rt, &path[..4 + part.len()], buf)
}

fn is_right<R: Files>(rt: &R, i: usize) -> bool {
    let mut sent = [0u8; 65537];
    let sent = read_part(rt, i, b"transmission", &mut sent);
    let mut pack = [0u8; 65537];
    let pack = read_part(rt, i, b"pack", &mut pack);
    let mut date = [0u8; 64];
    let date = read_part(rt, i, b"date", &mut date);
    let mut name = [0u8; 64];
    let name = read_part(rt, i, b"name", &mut name);
    let mut right = [0u8; 65537];
    let right = read_part(rt, i, b"ack", &mut right);
    let mut out = [0u8; 65536];
    let size = reply::reply(sent, pack, date, name, &mut out);
    text::piece(&out, 0, size) == right
}

fn main(rt: HostRuntime) -> io::Result<()> {
    let mut agreed: usize = 0;
    for i in 0..CASES {
        if is_right(&rt, i) {
            agreed += 1;
        } else {
            println!(rt; "differs: {i}")?;
        }
    }
    println!(rt; "{agreed} of {CASES} agree")
}
