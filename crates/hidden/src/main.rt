// What a file does not rest on, on real bytes. One transmission with packs that differ only in lines of keys that it does not use: the same
// file each time; and with a pack that differs in the line of a used key: another file. Then a document in place of another with the same
// sequence, control and primary number, accepted or not as before: only its own record set differs.
#![tactic(auto)]

ghost use Rattle.std.specs.Prelude.{◌≡◌};
ghost use Rattle.hidden.specs.Sets.{set_length, first_set, after_set};

use paper::Layout;
use std::fs::Files;
use std::io;
use std::io::Write;

// What comes back for a transmission and a pack of data/, at the front of out.
fn replied<'a, R: Files>(rt: &R, sent_path: &str, pack_path: &str, out: &'a mut [u8]) -> &'a [u8] {
    let mut sent = [0u8; 8192];
    let sent = desk::read_file(rt, sent_path.as_bytes(), &mut sent);
    let mut pack = [0u8; 4096];
    let pack = desk::read_file(rt, pack_path.as_bytes(), &mut pack);
    let n = reply::reply(sent, pack, b"20040415", b"ACK0000000000LESSON3", out);
    text::piece(out, 0, n)
}

// THE PACK

const PACKS: [&str; 6] = [
    "other-taxpayers",
    "other-banks",
    "other-filed",
    "other-states",
    "other-transmissions",
    "used-taxpayer",
];

fn compare<R: Files + Print>(rt: &R, path: &str, first: &[u8]) -> io::Result<()> {
    let mut out = [0u8; 4096];
    let which = if replied(rt, "transmission", path, &mut out) == first {
        "the same file"
    } else {
        "another file"
    };
    println!(rt; "{path}: {which}")
}

fn packs<R: Files + Print>(rt: &R) -> io::Result<()> {
    let mut out = [0u8; 4096];
    let first = replied(rt, "transmission", "pack", &mut out);
    println!(rt; "{} bytes come back", first.len())?;
    for path in PACKS {
        compare(rt, path, first)?;
    }
    Ok(())
}

// THE OTHER DOCUMENTS

// The length of the record set that s starts with.
#[tactic(auto, using(crate::proofs::Laws::set_length_lem))]
fn set_length(s: &[u8]) -> usize
    ensures { result ≡ set_length s.now }
{
    let count = layout::field_of(Layout::LKey, 100, s);
    120 + 120 * text::number(count, 0, 2) as usize
}

#[tactic(auto, unfolding(crate::specs::Sets::first_set))]
fn first_set(s: &[u8]) -> &[u8]
    ensures { result.now ≡ first_set s.now }
{
    text::piece(s, 0, set_length(s))
}

#[tactic(auto, using(crate::proofs::Laws::after_set_lem))]
fn after_set(s: &[u8]) -> &[u8]
    ensures { result.now ≡ after_set s.now }
{
    text::piece(s, set_length(s), s.len())
}

fn tell<R: Print>(rt: &R, what: &str, a: &[u8], b: &[u8]) -> io::Result<()> {
    let which = if a == b {
        "the same bytes"
    } else {
        "other bytes"
    };
    println!(rt; "{what}: {which}")
}

// The first record set of each, with its letter.
fn tell_set<R: Print>(rt: &R, a: &[u8], b: &[u8]) -> io::Result<()> {
    io::writer(rt).write_all(layout::field_of(Layout::LKey, 50, a))?;
    print!(rt; " and ")?;
    io::writer(rt).write_all(layout::field_of(Layout::LKey, 50, b))?;
    tell(rt, "", first_set(a), first_set(b))
}

// Two files of three record sets.
fn tell_files<R: Print>(rt: &R, a: &[u8], b: &[u8]) -> io::Result<()> {
    tell(
        rt,
        "TRANA and TRANB",
        text::piece(a, 0, 240),
        text::piece(b, 0, 240),
    )?;
    let mut a = text::piece(a, 240, a.len());
    let mut b = text::piece(b, 240, b.len());
    for n in 1..=3 {
        print!(rt; "record set {n}, ")?;
        tell_set(rt, a, b)?;
        a = after_set(a);
        b = after_set(b);
    }
    tell(rt, "Recap", a, b)
}

fn exchange<R: Files + Print>(rt: &R, one: &str, other: &str) -> io::Result<()> {
    let mut out = [0u8; 4096];
    let first = replied(rt, one, "pack", &mut out);
    let mut out = [0u8; 4096];
    let second = replied(rt, other, "pack", &mut out);
    println!(rt; "{one} and {other}")?;
    tell_files(rt, first, second)
}

fn main(rt: HostRuntime) -> io::Result<()> {
    packs(&rt)?;
    exchange(&rt, "second-unpaid", "second-paid")?;
    exchange(&rt, "second-faulty", "second-faultier")
}
