// The words of document 01's conditions, over a field: most say whether it is at fault. Whether the field is digits is told to those that
// ask it, since several rules of one field do and it is tested once. And a rule in a set.
#![tactic(auto)]

ghost use Rattle.std.specs.Prelude.{◌≡◌, not, ◌&&◌, ◌||◌, ◌≤◌, length, take};
ghost use Rattle.paper.specs.Bytes.{bytes, bit, same, before, part, present, all_zeros, all_nines};
ghost use Rattle.paper.specs.Conditions.{control_in, not_x, one_of, wrong_page, wrong_and, late, is_foreign, last_pay_day};
ghost use Rattle.date.specs.Day.{is_day};
ghost use Rattle.words.specs.Sets.{bit_on};

// 0010: not X or blank.
#[tactic(auto, unfolding(paper::specs::Conditions::not_x))]
pub fn not_x(f: &[u8]) -> bool
    ensures { result ≡ not_x f.now }
{
    !(text::is_same(f, b"X") || text::blank(f))
}

// 0010: present and no valid date. It is enough to tell of a present field that it is not digits.
pub fn not_date(not_digits: bool, f: &[u8]) -> bool
    ensures { result ≡ (present f.now && (not_digits || not (is_day f.now))) }
{
    !text::blank(f) && (not_digits || !date::is_day(f))
}

// 0010: not digits or zero.
pub fn not_positive(not_digits: bool, f: &[u8]) -> bool
    ensures { result ≡ (not_digits || all_zeros f.now) }
{
    not_digits || text::zeros(f)
}

// 0010: present and not digits above zero, told likewise.
pub fn not_pin(not_digits: bool, f: &[u8]) -> bool
    ensures { result ≡ (present f.now && (not_digits || all_zeros f.now)) }
{
    !text::blank(f) && not_positive(not_digits, f)
}

// The byte is one of these.
#[tactic(auto, unfolding(paper::specs::Conditions::one_of))]
pub fn one_of(allowed: &[u8], f: &[u8]) -> bool
    ensures { result ≡ one_of allowed.now f.now }
{
    text::has(allowed, text::byte(f, 0))
}

// 0004: not nine digits, or not equal to 0090.
pub fn other_number(is_digits: bool, f: &[u8], ssn: &[u8]) -> bool
    ensures { result ≡ (not is_digits || not (same f.now ssn.now)) }
{
    !is_digits || !text::is_same(f, ssn)
}

// 0044: page not "PG01 ".
#[tactic(auto, unfolding(paper::specs::Conditions::wrong_page))]
pub fn wrong_page(f: &[u8]) -> bool
    ensures { result ≡ wrong_page f.now }
{
    !text::is_same(f, b"PG01 ")
}

// 0062: digits, first two not 00.
pub fn not_double_0(is_digits: bool, f: &[u8]) -> bool
    ensures { result ≡ (is_digits && not (same (take 2 f.now) (bytes "00"))) }
{
    is_digits && !text::is_same(text::piece(f, 0, 2), b"00")
}

// 0064: digits, last not 4.
pub fn not_year_4(is_digits: bool, f: &[u8]) -> bool
    ensures { result ≡ (is_digits && not (same (part 13 1 f.now) (bytes "4"))) }
{
    is_digits && !text::is_same(text::piece(f, 13, 1), b"4")
}

// 0071: present, and not digits, all 0 or all 9.
pub fn no_number(is_digits: bool, f: &[u8]) -> bool
    ensures { result ≡ (present f.now && (not is_digits || all_zeros f.now || all_nines f.now)) }
{
    !text::blank(f) && (!is_digits || text::zeros(f) || text::nines(f))
}

// 0315, 0316: the number is digits, and no line has this control.
pub fn unlisted(is_digits: bool, control: &[u8], line: &[u8]) -> bool
    ensures { result ≡ (is_digits && not (same (control_in line.now) control.now)) }
{
    is_digits && !text::is_same(text::piece(line, 9, 4), control)
}

// 0312: has & while 0100 is blank, or the other way round.
#[tactic(auto, unfolding(paper::specs::Conditions::wrong_and), using(crate::proofs::Told::same_or_neither))]
pub fn wrong_and(f: &[u8], spouse: &[u8]) -> bool
    ensures { result ≡ wrong_and f.now spouse.now }
{
    text::has(f, b'&') == text::blank(spouse)
}

// A day comes after a last one of eight bytes; where it has eight too, they are compared as numbers.
#[tactic(auto, using(crate::proofs::Days::by_numbers))]
fn is_after(day: &[u8], last: &[u8]) -> bool
    requires { length last.now ≡ 8 }
    ensures { result ≡ before last.now day.now }
{
    if day.len() == 8 {
        text::rank(last, 0) < text::rank(day, 0)
    } else {
        text::is_before(last, day)
    }
}

// 0310: received after 20040415.
#[tactic(auto, unfolding(paper::specs::Conditions::late))]
pub fn late(day: &[u8]) -> bool
    ensures { result ≡ late day.now }
{
    is_after(day, b"20040415")
}

// An address is foreign: its indicator is 3.
pub fn is_foreign(indicator: &[u8]) -> bool
    ensures { result ≡ is_foreign indicator.now }
{
    text::byte(indicator, 0) == b'3'
}

// 0397: no valid date or after the last day of a payment: June 15, 2004 for a foreign one, April 15 for any other.
pub fn wrong_pay_date(is_digits: bool, abroad: bool, f: &[u8]) -> bool
    ensures { result ≡ (not (is_digits && is_day f.now) || before (last_pay_day «abroad») f.now) }
{
    let last = if abroad { b"20040615" } else { b"20040415" };
    !(is_digits && date::is_day(f)) || is_after(f, last)
}

// A rule before the later ones of a set.
#[tactic(auto, using(crate::proofs::Tables::bit_first))]
pub fn and_rule(is_broken: bool, later: u64) -> u64
    ensures { result ≡ bit_on is_broken later }
{
    later << 1 | u64::from(is_broken)
}
