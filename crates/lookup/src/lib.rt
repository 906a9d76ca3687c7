// The lines of a key in a block whose lines ascend, by halves.
#![tactic(auto)]

ghost use Rattle.std.specs.Prelude.{◌≡◌, ◌*◌, ◌≤◌, length};
ghost use Rattle.paper.specs.Bytes.{any, before};
ghost use Rattle.paper.specs.Pack.{lines_in, keyed};
ghost use Rattle.paper.specs.Conditions.{covers};
ghost use Rattle.lookup.specs.Find.{count_for, place_for, rest_in, line_in, rows_in};

use text::{is_before, is_lower, key_of, piece};

// Whether a line's key comes before another; keys of nine bytes, which are most, as numbers, since a look-up is a quarter faster so.
#[tactic(auto, using(crate::proofs::Nines::nine_before))]
fn key_before(a: &[u8], b: &[u8]) -> bool
    ensures { result ≡ before a.now b.now }
{
    if a.len() != 9 || b.len() != 9 {
        return is_before(a, b);
    }
    is_lower(key_of(&a[0..9]), key_of(&b[0..9]))
}

// How many lines there are to look at: none for a key that is wider than a line.
#[tactic(auto, unfolding(crate::specs::Find::count_for))]
fn count_for(block: &[u8], width: usize, key: &[u8]) -> usize
    ensures value { result ≡ count_for width key.now block.now }
    ensures fits { result * width ≤ length block.now }
{
    if width == 0 || width < key.len() {
        return 0;
    }
    block.len() / width
}

// The first of the n lines whose key does not come before this one. A loop, since the contract says where the search ends in a block whose
// lines do not ascend too, and the library's searches by halves say nothing of that.
fn place_for(block: &[u8], width: usize, n: usize, key: &[u8]) -> usize
    requires { n ≡ count_for width key.now block.now }
    ensures value { result ≡ place_for width key.now block.now }
    ensures within { result ≤ n }
{
    let mut low = 0;
    let mut high = n;
    while low < high {
        let middle = low + (high - low) / 2;
        let at = middle * width;
        let to = at + key.len();
        if key_before(&block[at..to], key) {
            low = middle + 1;
        } else {
            high = middle;
        }
    }
    low
}

// The lines from that one on.
fn rest_of<'a>(block: &'a [u8], width: usize, key: &[u8]) -> &'a [u8]
    ensures { result.now ≡ rest_in width key.now block.now }
{
    let n = count_for(block, width, key);
    let i = place_for(block, width, n, key);
    &block[i * width..n * width]
}

// The line starts with the key; byte by byte, as a state's key has two bytes, on which the library's `starts_with` takes longer.
#[tactic(auto, using(crate::proofs::Runs::short_line, crate::proofs::Runs::other_byte, crate::proofs::Runs::same_bytes))]
fn is_keyed(l: &[u8], key: &[u8]) -> bool
    ensures { result ≡ keyed key.now l.now }
{
    if l.len() < key.len() {
        return false;
    }
    for (i, x) in key.iter().enumerate() {
        if l[i] != *x {
            return false;
        }
    }
    true
}

// The line with this key, or no byte; no Option, since this contract is public and stays as it is.
pub fn line_of<'a>(block: &'a [u8], width: usize, key: &[u8]) -> &'a [u8]
    ensures { result.now ≡ line_in width key.now block.now }
{
    match rest_of(block, width, key).get(..width) {
        Some(line) if is_keyed(line, key) => line,
        _ => &[],
    }
}

// The lines with this key, as bytes; no byte where there is none, as its public contract has it.
pub fn rows_of<'a>(block: &'a [u8], width: usize, key: &[u8]) -> &'a [u8]
    ensures { result.now ≡ rows_in width key.now block.now }
{
    if width == 0 {
        return &[];
    }
    let rest = rest_of(block, width, key);
    let n = rest
        .chunks_exact(width)
        .take_while(|l| is_keyed(l, key))
        .count();
    &rest[..n * width]
}

// The prefix lies between the low and the high of a state's line.
#[tactic(auto, unfolding(paper::specs::Conditions::covers))]
fn covers(prefix: &[u8], l: &[u8]) -> bool
    ensures { result ≡ covers prefix.now l.now }
{
    !is_before(prefix, piece(l, 2, 3)) && !is_before(piece(l, 5, 3), prefix)
}

// One of these lines of a state covers the prefix.
pub fn covers_prefix(rows: &[u8], prefix: &[u8]) -> bool
    ensures { result ≡ any (covers prefix.now) (lines_in 8 rows.now) }
{
    rows.chunks_exact(8).any(|l| covers(prefix, l))
}
