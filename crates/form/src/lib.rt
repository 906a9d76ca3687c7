// The rules of the 4868: which of them a form breaks.
#![tactic(auto)]

ghost use Rattle.std.specs.Prelude.{◌≡◌, ℕ, Bool, List, not, cond, ◌&&◌, [], ◌∷◌, ◌%◌, ◌≤◌, None, eqb, length, map};
ghost use Rattle.paper.specs.declared.Layout.TheVariants.{L4868};
ghost use Rattle.paper.specs.Bytes.{within, empty, digits};
ghost use Rattle.paper.specs.Fields.{street, city};
ghost use Rattle.paper.specs.Layouts.{field};
ghost use Rattle.paper.specs.Pack.{lines_in};
ghost use Rattle.paper.specs.Conditions.{facts_of, not_digits, form_fillers, addressed, wrong_state, bad_zip, wrong_zip, wrong_foreign, no_spouse, form_rules};
ghost use Rattle.words.specs.Tables.{rule_text};
ghost use Rattle.words.specs.Sets.{bit_on, bits_on, bits_by};
ghost use Rattle.words.specs.Past.{number_if, identity_of, no_identity};
ghost use Rattle.form.specs.Breaks.{breaks, is_at_most};

use layout::field_of;
use paper::Layout::L4868;
use paper::{Facts, Identity};

// A form with its numbers, and whether 0100 is digits: what several rules ask.
#[derive(Clone, Copy)]
struct Form<'a> {
    bytes: &'a [u8],
    identity: Identity,
    digits100: bool,
    ghost whole: { length bytes.now ≡ 384 },
    ghost numbers: { identity ≡ identity_of bytes.now },
    ghost spouse: { digits100 ≡ digits (field L4868 100 bytes.now) },
}

// The set of the rules that a form breaks, and its numbers.
#[derive(Clone, Copy)]
pub struct Reading {
    pub set: u64,
    pub identity: Identity,
}

// The number that a field writes; none where it is not digits.
#[tactic(auto, unfolding(words::specs::Past::number_if))]
fn number_in(f: &[u8]) -> Option<u64>
    ensures { result ≡ number_if f.now }
{
    kinds::digits(f).then(|| text::number_of(f))
}

#[tactic(auto, unfolding(words::specs::Past::identity_of))]
fn identity_of(form: &[u8]) -> Identity
    ensures { result ≡ identity_of form.now }
{
    Identity {
        ssn: number_in(field_of(L4868, 90, form)),
        dsn: number_in(field_of(L4868, 7, form)),
        dcn: number_in(field_of(L4868, 8, form)),
    }
}

fn tell(bytes: &[u8]) -> Form<'_>
    requires { length bytes.now ≡ 384 }
    ensures { result.bytes.now ≡ bytes.now }
{
    Form {
        bytes,
        identity: identity_of(bytes),
        digits100: kinds::digits(field_of(L4868, 100, bytes)),
    }
}

// 0045: a filler not blank.
#[tactic(auto, unfolding(paper::specs::Conditions::form_fillers))]
fn fillers(form: &[u8]) -> bool
    ensures { result ≡ form_fillers form.now }
{
    !text::blank(field_of(L4868, 4, form)) || !text::blank(field_of(L4868, 6, form))
}

fn of_foreign(n: u32) -> bool
    ensures { result ≡ within 32 36 n }
{
    matches!(n, 32..=36)
}

// An address field is judged: 0032 to 0036 where the indicator is 3, the others where it is not.
#[tactic(auto, unfolding(paper::specs::Conditions::addressed, paper::specs::Conditions::pick))]
fn is_addressed(n: u32, form: &[u8]) -> bool
    ensures { result ≡ addressed n form.now }
{
    match text::byte(field_of(L4868, 80, form), 0) {
        b'3' => of_foreign(n),
        _ => !of_foreign(n),
    }
}

// An address field is judged, and fails its test.
fn is_addressed_not<F: FnOnce(&[u8]) -> bool>(n: u32, form: &[u8], good: F) -> bool
    requires { F.IsAlwaysCallable good }
    ensures { (p : List ℕ → Bool) → ((x : _) (r : _) → F.post good x r → r ≡ p x.now) → result ≡ (addressed n form.now && not (p (field L4868 n form.now))) }
{
    is_addressed(n, form) && !good(field_of(L4868, n, form))
}

#[tactic(auto, unfolding(paper::specs::Pack::lines_in), using(crate::proofs::Laws::no_rows))]
fn no_lines(zips: &[u8]) -> bool
    ensures { result ≡ empty (lines_in 8 zips.now) }
{
    zips.len() / 8 == 0
}

#[tactic(auto, unfolding(paper::specs::Conditions::wrong_state))]
fn wrong_state(form: &[u8], zips: &[u8]) -> bool
    ensures { result ≡ wrong_state form.now (lines_in 8 zips.now) }
{
    is_addressed(60, form) && (!kinds::letters(field_of(L4868, 60, form)) || no_lines(zips))
}

#[tactic(auto, unfolding(paper::specs::Conditions::bad_zip))]
fn bad_zip(f: &[u8], zips: &[u8]) -> bool
    ensures { result ≡ bad_zip f.now (lines_in 8 zips.now) }
{
    !field::zip(f) || !lookup::covers_prefix(zips, text::piece(f, 0, 3)) || field::zip_ends_00(f)
}

#[tactic(auto, unfolding(paper::specs::Conditions::wrong_zip))]
fn wrong_zip(form: &[u8], zips: &[u8]) -> bool
    ensures { result ≡ wrong_zip form.now (lines_in 8 zips.now) }
{
    is_addressed(70, form) && bad_zip(field_of(L4868, 70, form), zips)
}

// 0306: a blank field of the foreign address, or one of the domestic address that is present.
#[tactic(auto, unfolding(paper::specs::Conditions::wrong_foreign))]
fn wrong_foreign(form: &[u8]) -> bool
    ensures { result ≡ wrong_foreign form.now }
{
    words::is_foreign(field_of(L4868, 80, form))
        && (text::blank(field_of(L4868, 32, form))
            || text::blank(field_of(L4868, 34, form))
            || text::blank(field_of(L4868, 36, form))
            || !text::blank(field_of(L4868, 40, form))
            || !text::blank(field_of(L4868, 50, form))
            || !text::blank(field_of(L4868, 60, form))
            || !field::zeros_then_blanks(field_of(L4868, 70, form)))
}

// 0314: 0180 significant, 0114 X, 0100 blank.
#[tactic(auto, unfolding(paper::specs::Conditions::no_spouse))]
fn no_spouse(form: &[u8]) -> bool
    ensures { result ≡ no_spouse form.now }
{
    text::is_same(field_of(L4868, 114, form), b"X")
        && text::significant(field_of(L4868, 180, form))
        && text::blank(field_of(L4868, 100, form))
}

// 0060, 0061: digits, and not above the earlier number; size is the first number of more digits.
fn not_above(number: Option<u64>, past: Option<u64>, size: u64) -> bool
    requires { 1 ≤ size }
    ensures { result ≡ is_at_most size number past }
{
    matches!((number, past), (Some(n), Some(last)) if n <= last % size)
}

// The rules on the form and its head, before later ones.
#[tactic(auto, unfolding(paper::specs::Conditions::form_holds, paper::specs::Conditions::pick, paper::specs::Conditions::other_number, words::specs::Past::identity_of), using(words::proofs::Digits::some_number, crate::proofs::Laws::other_told))]
fn of_head(form: &Form<'_>, date: &[u8], whole: Facts, later: u64) -> u64
    ensures { result ≡ bits_on (breaks form.now.bytes.now [] [] [] None None date.now whole) (1 ∷ 44 ∷ 45 ∷ 310 ∷ 30004 ∷ 50003 ∷ []) later }
{
    let set = words::and_rule(
        !text::is_same(field_of(L4868, 5, form.bytes), b"200312"),
        later,
    );
    // Where 0003 is the same as 0090, both are digits or neither is.
    let set = words::and_rule(
        words::other_number(
            form.identity.ssn.is_some(),
            field_of(L4868, 3, form.bytes),
            field_of(L4868, 90, form.bytes),
        ),
        set,
    );
    let set = words::and_rule(words::late(date), set);
    let set = words::and_rule(fillers(form.bytes), set);
    let set = words::and_rule(words::wrong_page(field_of(L4868, 2, form.bytes)), set);
    words::and_rule(!whole.sum, set)
}

// The rules on 0007 and 0008, the numbers of the declaration, before later ones.
#[tactic(auto, unfolding(paper::specs::Conditions::form_holds, paper::specs::Conditions::pick, paper::specs::Conditions::not_double0, paper::specs::Conditions::not_year4, words::specs::Past::identity_of), using(words::proofs::Digits::some_number, crate::proofs::Laws::dsn_told, crate::proofs::Laws::dcn_told))]
fn of_numbers(form: &Form<'_>, dsn: Option<u64>, dcn: Option<u64>, later: u64) -> u64
    ensures { result ≡ bits_on (breaks form.now.bytes.now [] [] [] dsn dcn [] (facts_of [])) (70031 ∷ 70060 ∷ 80032 ∷ 80061 ∷ 80062 ∷ 80064 ∷ []) later }
{
    let own_dsn = form.identity.dsn;
    let own_dcn = form.identity.dcn;
    let set = words::and_rule(
        words::not_year_4(own_dcn.is_some(), field_of(L4868, 8, form.bytes)),
        later,
    );
    let set = words::and_rule(
        words::not_double_0(own_dcn.is_some(), field_of(L4868, 8, form.bytes)),
        set,
    );
    let set = words::and_rule(not_above(own_dcn, dcn, 100000000000000), set);
    let set = words::and_rule(own_dcn.is_none(), set);
    let set = words::and_rule(not_above(own_dsn, dsn, 10000000000000000), set);
    words::and_rule(own_dsn.is_none(), set)
}

// The rules on 0010 to 0030, the names, before later ones.
#[tactic(auto, unfolding(paper::specs::Conditions::form_holds, paper::specs::Conditions::pick, paper::specs::Conditions::unlisted, words::specs::Past::identity_of), using(words::proofs::Digits::some_number))]
fn of_names(form: &Form<'_>, payer: &[u8], spouse: &[u8], later: u64) -> u64
    ensures { result ≡ bits_on (breaks form.now.bytes.now payer.now spouse.now [] None None [] (facts_of [])) (100315 ∷ 200316 ∷ 300020 ∷ 300312 ∷ []) later }
{
    let set = words::and_rule(
        words::wrong_and(
            field_of(L4868, 30, form.bytes),
            field_of(L4868, 100, form.bytes),
        ),
        later,
    );
    let set = words::and_rule(!field::name(field_of(L4868, 30, form.bytes)), set);
    let set = words::and_rule(
        words::unlisted(form.digits100, field_of(L4868, 20, form.bytes), spouse),
        set,
    );
    words::and_rule(
        words::unlisted(
            form.identity.ssn.is_some(),
            field_of(L4868, 10, form.bytes),
            payer,
        ),
        set,
    )
}

// The rules on 0032 to 0080, the address, before later ones.
#[tactic(auto, unfolding(paper::specs::Conditions::form_holds, paper::specs::Conditions::pick, paper::specs::Conditions::form0010, paper::specs::Conditions::wrong_street, paper::specs::Conditions::wrong_city))]
fn of_address(form: &[u8], zips: &[u8], later: u64) -> u64
    ensures { result ≡ bits_on (breaks form.now [] [] zips.now None None [] (facts_of [])) (320007 ∷ 340007 ∷ 360023 ∷ 400007 ∷ 500023 ∷ 600022 ∷ 700016 ∷ 800010 ∷ 800306 ∷ []) later }
{
    let set = words::and_rule(wrong_foreign(form), later);
    let set = words::and_rule(!words::one_of(b"123 ", field_of(L4868, 80, form)), set);
    let set = words::and_rule(wrong_zip(form, zips), set);
    let set = words::and_rule(wrong_state(form, zips), set);
    let set = words::and_rule(is_addressed_not(50, form, field::city), set);
    let set = words::and_rule(is_addressed_not(40, form, field::street), set);
    let set = words::and_rule(is_addressed_not(36, form, field::city), set);
    let set = words::and_rule(is_addressed_not(34, form, field::street), set);
    words::and_rule(is_addressed_not(32, form, field::street), set)
}

// The rules on 0090 to 0114, the taxpayer and the spouse, before later ones.
#[tactic(auto, unfolding(paper::specs::Conditions::form_holds, paper::specs::Conditions::pick, paper::specs::Conditions::form0010, paper::specs::Conditions::not_digits, paper::specs::Conditions::no_number, words::specs::Past::identity_of), using(words::proofs::Digits::some_number))]
fn of_payers(form: &Form<'_>, later: u64) -> u64
    ensures { result ≡ bits_on (breaks form.now.bytes.now [] [] [] None None [] (facts_of [])) (900010 ∷ 1000010 ∷ 1000071 ∷ 1000314 ∷ 1120010 ∷ 1140010 ∷ []) later }
{
    let spouse = field_of(L4868, 100, form.bytes);
    let set = words::and_rule(words::not_x(field_of(L4868, 114, form.bytes)), later);
    let set = words::and_rule(words::not_x(field_of(L4868, 112, form.bytes)), set);
    let set = words::and_rule(no_spouse(form.bytes), set);
    let set = words::and_rule(words::no_number(form.digits100, spouse), set);
    let set = words::and_rule(!text::blank(spouse) && !form.digits100, set);
    words::and_rule(form.identity.ssn.is_none(), set)
}

// A field that is present but not digits, before later rules.
fn and_not_digits(n: u32, form: &[u8], later: u64) -> u64
    ensures { result ≡ bit_on (not_digits (field L4868 n form.now)) later }
{
    words::and_rule(kinds::not_digits(field_of(L4868, n, form)), later)
}

// The rules on 0120 to 0210, the money, before later ones.
#[tactic(auto, unfolding(paper::specs::Conditions::form_holds, paper::specs::Conditions::pick, paper::specs::Conditions::form0010))]
fn of_money(form: &[u8], later: u64) -> u64
    ensures { result ≡ bits_on (breaks form.now [] [] [] None None [] (facts_of [])) (1200010 ∷ 1300010 ∷ 1400010 ∷ 1700010 ∷ 1800010 ∷ 2000010 ∷ 2100010 ∷ []) later }
{
    // No loop: it reads the layout by a number that is only known when the program runs, and a form then takes more than twice the time.
    let set = and_not_digits(210, form, later);
    let set = and_not_digits(200, form, set);
    let set = and_not_digits(180, form, set);
    let set = and_not_digits(170, form, set);
    let set = and_not_digits(140, form, set);
    let set = and_not_digits(130, form, set);
    and_not_digits(120, form, set)
}

// Payer, spouse and zips are the lines that the pack has of 0090, 0100 and the state; dsn and dcn are the nearest earlier numbers of 0007 and
// 0008. A record of another length is no form, and has no number.
#[tactic(auto, unfolding(paper::specs::Conditions::form_rules, paper::specs::Conditions::form_holds, paper::specs::Conditions::pick))]
pub fn broken(
    form: &[u8],
    payer: &[u8],
    spouse: &[u8],
    zips: &[u8],
    dsn: Option<u64>,
    dcn: Option<u64>,
    date: &[u8],
    whole: Facts,
) -> Reading
    ensures set_value { result.set ≡ cond (eqb (length form.now) 384) (bits_by (breaks form.now payer.now spouse.now zips.now dsn dcn date.now whole) form_rules) 0 }
    ensures identity_value { result.identity ≡ cond (eqb (length form.now) 384) (identity_of form.now) no_identity }
{
    if form.len() != 384 {
        return Reading {
            set: 0,
            identity: paper::NO_IDENTITY,
        };
    }
    let told = tell(form);
    let set = of_money(form, 0);
    let set = of_payers(&told, set);
    let set = of_address(form, zips, set);
    let set = of_names(&told, payer, spouse, set);
    let set = of_numbers(&told, dsn, dcn, set);
    let set = of_head(&told, date, whole, set);
    let identity = told.identity;
    Reading { set, identity }
}

// The rules in their order, each by the digits of its field and of its code.
static RULES: [[u8; 8]; 38] = [
    *b"00000001",
    *b"00000044",
    *b"00000045",
    *b"00000310",
    *b"00030004",
    *b"00050003",
    *b"00070031",
    *b"00070060",
    *b"00080032",
    *b"00080061",
    *b"00080062",
    *b"00080064",
    *b"00100315",
    *b"00200316",
    *b"00300020",
    *b"00300312",
    *b"00320007",
    *b"00340007",
    *b"00360023",
    *b"00400007",
    *b"00500023",
    *b"00600022",
    *b"00700016",
    *b"00800010",
    *b"00800306",
    *b"00900010",
    *b"01000010",
    *b"01000071",
    *b"01000314",
    *b"01120010",
    *b"01140010",
    *b"01200010",
    *b"01300010",
    *b"01400010",
    *b"01700010",
    *b"01800010",
    *b"02000010",
    *b"02100010",
];

// What is written of each rule, in the table's order.
#[tactic(auto, unfolding(paper::specs::Conditions::form_rules, words::specs::Tables::rule_text))]
pub fn texts() -> &'static [[u8; 8]]
    ensures { result.now ≡ map rule_text form_rules }
{
    &RULES
}
