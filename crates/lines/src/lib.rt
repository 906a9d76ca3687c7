// The lines of a block of the reference pack: what a line of each kind is, and that their keys ascend.
#![tactic(auto)]

ghost use Rattle.std.specs.Prelude.{◌≡◌, ℕ, ◌<◌, ◌≤◌, Bool, List};
ghost use Rattle.std.specs.Iterator.{ActsAsAt};
ghost use Rattle.paper.specs.Pack.{yes_no, taxpayer_line, bank_line, state_line, good_body};
ghost use Rattle.lines.specs.Body.{good_lines};

use kinds::{CONTROL, all_of, digits, letters};
use text::{Key, is_before, is_lower, key_of, piece};

fn is_yes_no(x: u8) -> bool
    ensures { result ≡ yes_no x }
{
    matches!(x, b'Y' | b'N')
}

#[tactic(auto, unfolding(paper::specs::Pack::taxpayer_line), using(kinds::proofs::Ranges::control_kind))]
fn taxpayer_line(l: &[u8]) -> bool
    ensures { result ≡ taxpayer_line l.now }
{
    digits(piece(l, 0, 9))
        && all_of(kinds::table(), CONTROL, piece(l, 9, 4))
        && digits(piece(l, 13, 20))
}

#[tactic(auto, unfolding(paper::specs::Pack::bank_line))]
fn bank_line(l: &[u8]) -> bool
    ensures { result ≡ bank_line l.now }
{
    digits(piece(l, 0, 9)) && piece(l, 9, 1).iter().all(|x| is_yes_no(*x))
}

#[tactic(auto, unfolding(paper::specs::Pack::state_line))]
fn state_line(l: &[u8]) -> bool
    ensures { result ≡ state_line l.now }
{
    letters(piece(l, 0, 2)) && digits(piece(l, 2, 6)) && !is_before(piece(l, 5, 3), piece(l, 2, 3))
}

// Whole lines of this width, each of which passes the test, and whose first `rise` bytes ascend: each line is looked at once, up to the first
// that is bad or does not come after the one before. The keys are compared as numbers, since a pack is checked a third faster so.
fn good_lines<F: FnMut(&[u8]) -> bool>(b: &[u8], width: usize, rise: usize, mut good: F) -> bool
    requires widths { (0 < width) × (rise ≤ 16) }
    requires callable { (state : F) (x : _) → F.pre state x }
    ensures { (p : List ℕ → Bool) → ActsAsAt F.FnMut good p → result ≡ good_lines width rise p b.now }
{
    if b.len() % width != 0 {
        return false;
    }
    let mut last: Option<Key> = None;
    for line in b.chunks_exact(width) {
        if !good(line) {
            return false;
        }
        let key = key_of(piece(line, 0, rise));
        if last.is_some_and(|before| !is_lower(before, key)) {
            return false;
        }
        last = Some(key);
    }
    true
}

// The lines of a block of this kind. The contract speaks of every number, also of one that is no block's, so the kind is a number here.
pub fn good_body(kind: u8, b: &[u8]) -> bool
    ensures { result ≡ good_body kind b.now }
{
    match kind {
        1 => good_lines(b, 33, 9, taxpayer_line),
        2 => good_lines(b, 10, 9, bank_line),
        3 => good_lines(b, 9, 9, digits),
        4 => good_lines(b, 8, 8, state_line),
        _ => good_lines(b, 12, 12, digits),
    }
}
