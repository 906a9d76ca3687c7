// Dates of the Gregorian calendar, as YYYYMMDD.
#![tactic(auto)]

ghost use Rattle.std.specs.Prelude.{◌≡◌, ◌≤◌};
ghost use Rattle.paper.specs.Fields.{leap_year, last_day, day_of_year, valid_date};
ghost use Rattle.date.specs.Day.{is_day};

#[tactic(auto, unfolding(paper::specs::Fields::leap_year))]
fn leap_year(y: u32) -> bool
    ensures { result ≡ leap_year y }
{
    y % 4 == 0 && (y % 100 != 0 || y % 400 == 0)
}

// Of month m in year y: outside February 31 and 30 in turn, and from August on, where m / 8 is 1, in turn anew.
#[tactic(auto, unfolding(paper::specs::Fields::last_day))]
fn last_day(y: u32, m: u32) -> u32
    requires { (1 ≤ m) × (m ≤ 12) }
    ensures { result ≡ last_day y m }
{
    match m {
        2 if leap_year(y) => 29,
        2 => 28,
        _ => 30 + (m + m / 8) % 2,
    }
}

#[tactic(auto, unfolding(paper::specs::Fields::day_of_year))]
fn day_of_year(y: u32, m: u32, d: u32) -> bool
    ensures { result ≡ day_of_year y m d }
{
    1 <= y && (1..=12).contains(&m) && (1..=last_day(y, m)).contains(&d)
}

// Eight bytes which, if they are digits, are a day.
#[tactic(auto, unfolding(crate::specs::Day::is_day))]
pub fn is_day(s: &[u8]) -> bool
    ensures { result ≡ is_day s.now }
{
    s.len() == 8
        && day_of_year(
            text::number(s, 0, 4),
            text::number(s, 4, 2),
            text::number(s, 6, 2),
        )
}

#[tactic(auto, unfolding(crate::specs::Day::is_day, paper::specs::Fields::valid_date))]
pub fn valid_date(s: &[u8]) -> bool
    ensures { result ≡ valid_date s.now }
{
    kinds::digits(s) && is_day(s)
}
