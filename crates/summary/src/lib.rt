// The rules of a summary: which of them a record breaks.
#![tactic(auto)]

ghost use Rattle.std.specs.Prelude.{◌≡◌, ◌<◌, ◌&&◌, true, cond, [], ◌∷◌, eqb, length, map};
ghost use Rattle.paper.specs.declared.Layout.TheVariants.{LSummary};
ghost use Rattle.paper.specs.Bytes.{every, blank, present};
ghost use Rattle.paper.specs.Layouts.{field, through};
ghost use Rattle.words.specs.Tables.{rule_text};
ghost use Rattle.words.specs.Sets.{bits_on, bits_by};
ghost use Rattle.paper.specs.Conditions.{summary_fillers, wrong_year, not_time, summary_rules};
ghost use Rattle.summary.specs.Breaks.{breaks, is_within};

use layout::{field_of, through};
use paper::Layout::{L4868, LSummary};

// 0045: a filler not blank.
#[tactic(auto, unfolding(paper::specs::Conditions::summary_fillers))]
fn fillers(own: &[u8]) -> bool
    ensures { result ≡ summary_fillers own.now }
{
    !text::blank(field_of(LSummary, 1, own)) || !text::blank(field_of(LSummary, 3, own))
}

// 0490: present, year not 2004.
#[tactic(auto, unfolding(paper::specs::Conditions::wrong_year))]
fn wrong_year(f: &[u8]) -> bool
    ensures { result ≡ wrong_year f.now }
{
    !text::blank(f) && !text::is_same(text::piece(f, 0, 4), b"2004")
}

// Present and not HHMM.
#[tactic(auto, unfolding(paper::specs::Conditions::not_time, paper::specs::Fields::hhmm))]
fn not_time(f: &[u8]) -> bool
    ensures { result ≡ not_time f.now }
{
    !text::blank(f) && !(kinds::digits(f) && field::clock(f))
}

// The rules on the head, 0010, 0020 and 0040, before later ones.
#[tactic(auto, unfolding(paper::specs::Conditions::summary_holds, paper::specs::Conditions::pick, paper::specs::Conditions::summary0010, paper::specs::Conditions::wrong_originator, paper::specs::Conditions::other_number))]
fn of_head(form: &[u8], own: &[u8], later: u64) -> u64
    ensures { result ≡ bits_on (breaks form.now own.now) (45 ∷ 20004 ∷ 100027 ∷ 200010 ∷ 200027 ∷ 400010 ∷ []) later }
{
    let number = field_of(LSummary, 2, own);
    let originator = field_of(LSummary, 20, own);
    let set = words::and_rule(!kinds::digits(field_of(LSummary, 40, own)), later);
    let set = words::and_rule(
        !text::is_same(originator, text::piece(field_of(L4868, 8, form), 2, 6)),
        set,
    );
    let set = words::and_rule(!kinds::digits(originator), set);
    let set = words::and_rule(text::blank(field_of(LSummary, 10, own)), set);
    let set = words::and_rule(
        words::other_number(kinds::digits(number), number, field_of(L4868, 90, form)),
        set,
    );
    words::and_rule(fillers(own), set)
}

// Each of these fields in reserve that is not blank, before later rules. A macro writes the list out: of a literal number the compiler knows
// where the field stands, and a number that is known only as the program runs would be looked up in the layout.
macro_rules! and_reserves {
    ([], $own:ident, $later:ident) => {
        $later
    };
    ([$n:literal $(, $more:literal)*], $own:ident, $later:ident) => {
        words::and_rule(
            !text::blank(field_of(LSummary, $n, $own)),
            and_reserves!([$($more),*], $own, $later),
        )
    };
}

// The same where the fields stand in the run from one field to another, which is looked at first.
macro_rules! and_run {
    ([$($n:literal),+], $from:literal, $to:literal, $own:ident, $later:ident) => {
        if text::blank(through(LSummary, $from, $to, $own)) {
            past_run(&[$($n),+], $from, $to, $own, $later)
        } else {
            and_reserves!([$($n),+], $own, $later)
        }
    };
}

// Where the run is blank, none of the rules is broken: the set moves by as many places as the list has, and what would pass the 64th is lost.
// The ends of the run and the record are there for the contract.
#[inline(always)]
fn past_run(fields: &[u32], from: u32, to: u32, own: &[u8], later: u64) -> u64
    requires is_few { length fields.now < 64 }
    requires is_run { every (is_within from to) fields.now ≡ true }
    requires is_blank { blank (through LSummary from to own.now) ≡ true }
    ensures { result ≡ bits_on (λ n. present (field LSummary n own.now)) fields.now later }
{
    later << fields.len()
}

// The rules on 0050 to 0090, before later ones.
#[tactic(auto, unfolding(paper::specs::Conditions::summary_holds, paper::specs::Conditions::pick, paper::specs::Conditions::summary0010, paper::specs::Layouts::entry, paper::specs::Layouts::summary))]
fn of_50_to_90(own: &[u8], later: u64) -> u64
    ensures { result ≡ bits_on (breaks [] own.now) (500014 ∷ 550014 ∷ 600014 ∷ 630014 ∷ 700014 ∷ 750014 ∷ 800014 ∷ 900010 ∷ []) later }
{
    let set = words::and_rule(!kinds::digits(field_of(LSummary, 90, own)), later);
    and_run!([50, 55, 60, 63, 70, 75, 80], 50, 80, own, set)
}

// The rules on 0100 to 0250, all in reserve, before later ones.
#[tactic(auto, unfolding(paper::specs::Conditions::summary_holds, paper::specs::Conditions::pick, paper::specs::Layouts::entry, paper::specs::Layouts::summary))]
fn of_reserves(own: &[u8], later: u64) -> u64
    ensures { result ≡ bits_on (breaks [] own.now) (1000014 ∷ 1100014 ∷ 1200014 ∷ 1300014 ∷ 1330014 ∷ 1350014 ∷ 1400014 ∷ 1500014 ∷ 1700014 ∷ 1800014 ∷ 1850014 ∷ 1880014 ∷ 1890014 ∷ 1900014 ∷ 1950014 ∷ 2000014 ∷ 2100014 ∷ 2150014 ∷ 2170014 ∷ 2190014 ∷ 2200014 ∷ 2500014 ∷ []) later }
{
    let set = words::and_rule(!text::blank(field_of(LSummary, 250, own)), later);
    and_run!(
        [
            100, 110, 120, 130, 133, 135, 140, 150, 170, 180, 185, 188, 189, 190, 195, 200, 210,
            215, 217, 219, 220
        ],
        100,
        220,
        own,
        set
    )
}

// The rules on 0260 to 0290, before later ones.
#[tactic(auto, unfolding(paper::specs::Conditions::summary_holds, paper::specs::Conditions::pick, paper::specs::Conditions::summary0010, paper::specs::Conditions::missing_mark), using(words::proofs::Told::not_date_by))]
fn of_260_to_290(own: &[u8], later: u64) -> u64
    ensures { result ≡ bits_on (breaks [] own.now) (2600010 ∷ 2600490 ∷ 2600491 ∷ 2700010 ∷ 2700491 ∷ 2800010 ∷ 2800491 ∷ 2900014 ∷ []) later }
{
    let day = field_of(LSummary, 260, own);
    let time = field_of(LSummary, 270, own);
    let zone = field_of(LSummary, 280, own);
    let no_day = text::blank(day);
    let no_time = text::blank(time);
    let no_zone = text::blank(zone);
    // 0491: some of the three present, at each that is blank.
    let some = !no_day || !no_time || !no_zone;
    let set = words::and_rule(!text::blank(field_of(LSummary, 290, own)), later);
    let set = words::and_rule(no_zone && some, set);
    let set = words::and_rule(!words::one_of(b"ECGMPAH ", zone), set);
    let set = words::and_rule(no_time && some, set);
    let set = words::and_rule(not_time(time), set);
    let set = words::and_rule(no_day && some, set);
    let set = words::and_rule(wrong_year(day), set);
    words::and_rule(words::not_date(kinds::not_digits(day), day), set)
}

// The set of the rules that a summary breaks, where both records have their length.
#[tactic(auto, unfolding(paper::specs::Conditions::summary_rules, paper::specs::Conditions::summary_holds, paper::specs::Conditions::pick))]
pub fn broken(form: &[u8], own: &[u8]) -> u64
    ensures { result ≡ cond (eqb (length form.now) 384 && eqb (length own.now) 314) (bits_by (breaks form.now own.now) summary_rules) 0 }
{
    if form.len() != 384 || own.len() != 314 {
        return 0;
    }
    let set = of_260_to_290(own, 0);
    let set = of_reserves(own, set);
    let set = of_50_to_90(own, set);
    of_head(form, own, set)
}

// The rules in their order, each by the digits of its field and of its code.
static RULES: [[u8; 8]; 44] = [
    *b"00000045",
    *b"00020004",
    *b"00100027",
    *b"00200010",
    *b"00200027",
    *b"00400010",
    *b"00500014",
    *b"00550014",
    *b"00600014",
    *b"00630014",
    *b"00700014",
    *b"00750014",
    *b"00800014",
    *b"00900010",
    *b"01000014",
    *b"01100014",
    *b"01200014",
    *b"01300014",
    *b"01330014",
    *b"01350014",
    *b"01400014",
    *b"01500014",
    *b"01700014",
    *b"01800014",
    *b"01850014",
    *b"01880014",
    *b"01890014",
    *b"01900014",
    *b"01950014",
    *b"02000014",
    *b"02100014",
    *b"02150014",
    *b"02170014",
    *b"02190014",
    *b"02200014",
    *b"02500014",
    *b"02600010",
    *b"02600490",
    *b"02600491",
    *b"02700010",
    *b"02700491",
    *b"02800010",
    *b"02800491",
    *b"02900014",
];

// What is written of each rule, in the table's order.
#[tactic(auto, unfolding(paper::specs::Conditions::summary_rules, words::specs::Tables::rule_text))]
pub fn texts() -> &'static [[u8; 8]]
    ensures { result.now ≡ map rule_text summary_rules }
{
    &RULES
}
