// The receiver on files: inputs are read, and the reply is written to standard output.
#![tactic(auto)]

ghost use Rattle.std.specs.Prelude.{◌≤◌, length};

use paper::Ask;
use std::env::Env;
use std::fs::Files;
use std::io::{Read, Write};
use std::{fs, io, str};

// Reads until buf is full, the file ends or a read fails: what was read.
fn read_full<'a, F: Read>(file: &mut F, buf: &'a mut [u8]) -> &'a [u8]
    ensures { length result.now ≤ length buf.old }
{
    let mut done = 0;
    while done < buf.len() {
        match file.read(&mut buf[done..]) {
            Ok(0) | Err(_) => break,
            Ok(n) => done += n,
        }
    }
    &buf[..done]
}

fn open<R: Files>(rt: &R, path: &[u8]) -> Option<R::File> {
    let path = str::from_utf8(path).ok()?;
    fs::open(rt, path).ok()
}

// A file, read into buf as far as it goes. One that can't be read counts as empty.
pub fn read_file<'a, R: Files>(rt: &R, path: &[u8], buf: &'a mut [u8]) -> &'a [u8]
    ensures { length result.now ≤ length buf.old }
{
    match open(rt, path) {
        Some(mut file) => read_full(&mut file, buf),
        None => &buf[..0],
    }
}

// Argument i, read into buf. One that is missing or longer than buf counts as empty.
fn arg<'a, R: Env>(rt: &R, i: usize, buf: &'a mut [u8]) -> &'a [u8]
    ensures { length result.now ≤ length buf.old }
{
    let n = rt.arg(i, buf).unwrap_or(0);
    &buf[..n]
}

// The file that argument i names, read into buf. A missing argument counts as empty, and no file has the empty path.
fn read_named<'a, R: Files + Env>(rt: &R, i: usize, buf: &'a mut [u8]) -> &'a [u8]
    ensures { length result.now ≤ length buf.old }
{
    let mut path = [0u8; 4096];
    read_file(rt, arg(rt, i, &mut path), buf)
}

// Four arguments from number `first` on: the pack's path, the transmission's path, the receiving date and the name of the acknowledgment
// file. A byte more than an input may have is read, so that one that is too long is refused.
pub fn serve<R: Files + Env + Print>(rt: &R, ask: Ask, first: u32) -> io::Result<()> {
    let i = first as usize;
    let mut pack = [0u8; 65537];
    let pack = read_named(rt, i, &mut pack);
    let mut sent = [0u8; 65537];
    let sent = read_named(rt, i + 1, &mut sent);
    let mut date = [0u8; 4096];
    let date = arg(rt, i + 2, &mut date);
    let mut name = [0u8; 4096];
    let name = arg(rt, i + 3, &mut name);
    let mut out = [0u8; 65536];
    let size = reply::reply_to(ask, sent, pack, date, name, &mut out);
    io::writer(rt).write_all(text::piece(&out, 0, size))
}
