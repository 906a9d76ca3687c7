// What a field may hold: names, streets, cities, accounts, zips and times.
#![tactic(auto)]

ghost use Rattle.std.specs.Prelude.{◌≡◌, ◌&&◌, ◌||◌, eqb, leb, take};
ghost use Rattle.paper.specs.Bytes.{part, within, number};
ghost use Rattle.paper.specs.Fields.{beside, spaced, name, street, city, account, digits_then, zip, zip_ends00, zeros_then_blanks};
ghost use Rattle.field.specs.Gap.{gap};

use kinds::{
    ACCOUNT, ALNUM, CITY, LETTER, NAME, STREET, all_of, count_of, first_not_of, is_in, some_of,
};

// Two spaces stand right before another byte. The fold has no early exit, and is several times as fast so.
fn has_gap(s: &[u8]) -> bool
    ensures { result ≡ gap s.now }
{
    s.windows(3).fold(
        false,
        |found, w| found | (w[0] == b' ') & (w[1] == b' ') & (w[2] != b' '),
    )
}

#[tactic(auto, using(crate::proofs::Spaces::spaced_is))]
fn spaced(s: &[u8]) -> bool
    ensures { result ≡ spaced s.now }
{
    s.first().is_some_and(|x| *x != b' ') && !has_gap(s)
}

// A byte a stands right before a byte b, without an early exit too.
fn beside(s: &[u8], a: u8, b: u8) -> bool
    ensures { result ≡ beside (λ x. eqb x a) (λ x. eqb x b) s.now }
{
    s.windows(2)
        .fold(false, |found, w| found | (w[0] == a) & (w[1] == b))
}

#[tactic(auto, using(kinds::proofs::Ranges::letter_kind, kinds::proofs::Ranges::name_kind), unfolding(paper::specs::Fields::name))]
pub fn name(s: &[u8]) -> bool
    ensures { result ≡ name s.now }
{
    spaced(s)
        && is_in(kinds::table(), LETTER, text::byte(s, 0))
        && all_of(kinds::table(), NAME, s)
        && !beside(s, b'<', b' ')
        && !beside(s, b' ', b'<')
}

#[tactic(auto, using(kinds::proofs::Ranges::alnum_kind, kinds::proofs::Ranges::street_kind), unfolding(paper::specs::Fields::street))]
pub fn street(s: &[u8]) -> bool
    ensures { result ≡ street s.now }
{
    spaced(s) && is_in(kinds::table(), ALNUM, text::byte(s, 0)) && all_of(kinds::table(), STREET, s)
}

#[tactic(auto, using(kinds::proofs::Ranges::letter_kind, kinds::proofs::Ranges::city_kind), unfolding(paper::specs::Fields::city))]
pub fn city(s: &[u8]) -> bool
    ensures { result ≡ city s.now }
{
    spaced(s) && 3 <= count_of(kinds::table(), LETTER, s) && all_of(kinds::table(), CITY, s)
}

// The account is what stands before the first byte that can be in none; after it only blanks.
#[tactic(auto, using(kinds::proofs::Ranges::alnum_kind, kinds::proofs::Ranges::account_kind, crate::proofs::Spaces::account_is))]
pub fn account(s: &[u8]) -> bool
    ensures { result ≡ account s.now }
{
    let (account, rest) = s.split_at(first_not_of(kinds::table(), ACCOUNT, s));
    text::blank(rest) && some_of(kinds::table(), ALNUM, account) && !text::zeros(account)
}

// The first two of a routing number, if it is digits, are 01 to 12 or 21 to 32.
pub fn district(s: &[u8]) -> bool
    ensures { result ≡ (within 1 12 (number (take 2 s.now)) || within 21 32 (number (take 2 s.now))) }
{
    matches!(text::number(s, 0, 2), 1..=12 | 21..=32)
}

fn digits_then(s: &[u8], n: usize) -> bool
    ensures { result ≡ digits_then n s.now }
{
    kinds::digits(text::piece(s, 0, n)) && text::blank(text::piece(s, n, s.len()))
}

#[tactic(auto, unfolding(paper::specs::Fields::zip))]
pub fn zip(s: &[u8]) -> bool
    ensures { result ≡ zip s.now }
{
    digits_then(s, 5) || digits_then(s, 9) || digits_then(s, 12)
}

#[tactic(auto, unfolding(paper::specs::Fields::zip_ends00))]
pub fn zip_ends_00(s: &[u8]) -> bool
    ensures { result ≡ zip_ends00 s.now }
{
    text::is_same(text::piece(s, 3, 2), b"00") && !text::is_same(text::piece(s, 0, 5), b"20500")
}

pub fn zeros_then_blanks(s: &[u8]) -> bool
    ensures { result ≡ zeros_then_blanks s.now }
{
    s.iter().skip_while(|x| **x == b'0').all(|x| *x == b' ')
}

// Hours to 23 and minutes to 59, if they are digits.
pub fn clock(s: &[u8]) -> bool
    ensures { result ≡ (leb (number (take 2 s.now)) 23 && leb (number (part 2 2 s.now)) 59) }
{
    text::number(s, 0, 2) <= 23 && text::number(s, 2, 2) <= 59
}
