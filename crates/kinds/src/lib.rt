// The kinds of characters: one table for all 256 byte values, and the tests that read it.
#![tactic(auto)]

mod entries;

ghost use Rattle.std.specs.Prelude.{◌≡◌, not, ◌&&◌, ◌≤◌, length};
ghost use Rattle.paper.specs.Bytes.{every, any, count, present, digits, letters};
ghost use Rattle.paper.specs.Conditions.{not_digits};
ghost use Rattle.kinds.specs.Kinds.{table, is_in, first_not};

// The kinds, each a bit of an entry: what a character may be, and which fields may hold it.
pub const DIGIT: u8 = 1;

pub const LETTER: u8 = 2;

pub const NAME: u8 = 4;

pub const STREET: u8 = 8;

pub const CITY: u8 = 16;

pub const ACCOUNT: u8 = 32;

pub const CONTROL: u8 = 64;

pub const PRINTABLE: u8 = 128;

// A letter or a digit.
pub const ALNUM: u8 = LETTER + DIGIT;

static TABLE: [u8; 256] = entries::KINDS;

// The table.
pub fn table() -> &'static [u8; 256]
    ensures { result.now ≡ table }
{
    &TABLE
}

// A byte is of a kind in the set.
#[tactic(auto, unfolding(crate::specs::Kinds::is_in))]
pub fn is_in(kinds: &[u8; 256], set: u8, x: u8) -> bool
    ensures { result ≡ is_in kinds.now set x }
{
    kinds[x as usize] & set != 0
}

// Every byte is.
pub fn all_of(kinds: &[u8; 256], set: u8, s: &[u8]) -> bool
    ensures { result ≡ every (is_in kinds.now set) s.now }
{
    s.iter().all(|x| is_in(kinds, set, *x))
}

// Some byte is.
pub fn some_of(kinds: &[u8; 256], set: u8, s: &[u8]) -> bool
    ensures { result ≡ any (is_in kinds.now set) s.now }
{
    s.iter().any(|x| is_in(kinds, set, *x))
}

// The place of the first byte that is not; the length for none, since callers take what stands before it.
pub fn first_not_of(kinds: &[u8; 256], set: u8, s: &[u8]) -> usize
    ensures value { result ≡ first_not (is_in kinds.now set) s.now }
    ensures upper_bound { result ≤ length s.now }
{
    s.iter().take_while(|x| is_in(kinds, set, **x)).count()
}

// How many bytes are.
pub fn count_of(kinds: &[u8; 256], set: u8, s: &[u8]) -> usize
    ensures { result ≡ count (is_in kinds.now set) s.now }
{
    s.iter().filter(|x| is_in(kinds, set, **x)).count()
}

// Present, but not every byte is.
pub fn present_but_not(kinds: &[u8; 256], set: u8, s: &[u8]) -> bool
    ensures { result ≡ (present s.now && not (every (is_in kinds.now set) s.now)) }
{
    !text::blank(s) && !all_of(kinds, set, s)
}

#[tactic(auto, using(crate::proofs::Ranges::digit_kind))]
pub fn digits(s: &[u8]) -> bool
    ensures { result ≡ digits s.now }
{
    all_of(table(), DIGIT, s)
}

#[tactic(auto, using(crate::proofs::Ranges::letter_kind))]
pub fn letters(s: &[u8]) -> bool
    ensures { result ≡ letters s.now }
{
    all_of(table(), LETTER, s)
}

// Present and not digits.
#[tactic(auto, unfolding(paper::specs::Conditions::not_digits))]
pub fn not_digits(s: &[u8]) -> bool
    ensures { result ≡ not_digits s.now }
{
    !text::blank(s) && !digits(s)
}
