// The rules of an authentication: which of them a record breaks.
#![tactic(auto)]

ghost use Rattle.std.specs.Prelude.{◌≡◌, not, ◌&&◌, cond, [], ◌∷◌, eqb, length, map};
ghost use Rattle.paper.specs.Bytes.{same, blank, present};
ghost use Rattle.paper.specs.Conditions.{not_date, not_digits, not_pin, income_in, wrong_auth, typed, spouse_only, self_only, auth_rules};
ghost use Rattle.words.specs.Tables.{rule_text};
ghost use Rattle.words.specs.Sets.{bit_on, bits_on, bits_by};
ghost use Rattle.auth.specs.Asked.{asked_of};
ghost use Rattle.auth.specs.Breaks.{breaks, breaks_asked};

use layout::field_of;
use paper::Facts;
use paper::Layout::{L4868, LAuth};

// What a document asks of its authentication. The codes that a blank field has: 0670 (s) and 0681 (o) in a field of the taxpayer, 0671
// (spouse_s) and 0682 (spouse_o) in one of the spouse, 0697 and an I in 0075 (p); and an E in 0075 and the prior income (select).
#[derive(Clone, Copy)]
struct Asked {
    s: bool,
    spouse_s: bool,
    o: bool,
    spouse_o: bool,
    select: bool,
    p: bool,
}

// 0045: the filler or the form number not blank, a second ATH, or occurrence not 0000001.
#[tactic(auto, unfolding(paper::specs::Conditions::wrong_auth))]
fn wrong_auth(own: &[u8], before: usize) -> bool
    ensures { result ≡ wrong_auth own.now before }
{
    !text::blank(field_of(LAuth, 4, own))
        || !text::blank(field_of(LAuth, 1, own))
        || 0 < before
        || !text::is_same(field_of(LAuth, 5, own), b"0000001")
}

#[tactic(auto, unfolding(paper::specs::Conditions::typed))]
fn is_typed(kind: &[u8], own: &[u8]) -> bool
    ensures { result ≡ typed kind.now own.now }
{
    text::is_same(field_of(LAuth, 8, own), kind)
}

// "Spouse only: 0100 present, all payments 0709S, 0180 significant, 0170 not."
#[tactic(auto, unfolding(paper::specs::Conditions::spouse_only))]
fn spouse_only(form: &[u8], whole: Facts) -> bool
    ensures { result ≡ spouse_only form.now whole }
{
    !text::blank(field_of(L4868, 100, form))
        && whole.spouse
        && text::significant(field_of(L4868, 180, form))
        && !text::significant(field_of(L4868, 170, form))
}

// "Self only: all 0709P, 0170 significant, 0180 not."
#[tactic(auto, unfolding(paper::specs::Conditions::self_only))]
fn self_only(form: &[u8], whole: Facts) -> bool
    ensures { result ≡ self_only form.now whole }
{
    whole.own
        && text::significant(field_of(L4868, 170, form))
        && !text::significant(field_of(L4868, 180, form))
}

#[tactic(auto, unfolding(crate::specs::Asked::asked_of))]
fn asked_of(form: &[u8], own: &[u8], whole: Facts) -> Asked
    ensures { result ≡ asked_of form.now own.now whole }
{
    let s = is_typed(b"S", own);
    let o = is_typed(b"O", own);
    let pays = 0 < whole.pays;
    let of_payer = pays && !spouse_only(form, whole);
    let of_spouse = pays && !text::blank(field_of(L4868, 100, form)) && !self_only(form, whole);
    Asked {
        s: s && of_payer,
        spouse_s: s && of_spouse,
        o: o && of_payer,
        spouse_o: o && of_spouse,
        select: s || o,
        p: is_typed(b"P", own),
    }
}

// The rules on the head, before later ones.
#[tactic(auto, unfolding(paper::specs::Conditions::auth_holds, paper::specs::Conditions::pick, paper::specs::Conditions::auth0010, paper::specs::Conditions::other_number))]
fn of_head(form: &[u8], own: &[u8], whole: Facts, before: usize, later: u64) -> u64
    ensures { result ≡ bits_on (breaks form.now own.now [] [] whole before) (30 ∷ 44 ∷ 45 ∷ 30004 ∷ 80010 ∷ []) later }
{
    let number = field_of(LAuth, 3, own);
    let set = words::and_rule(!words::one_of(b"PSO", field_of(LAuth, 8, own)), later);
    let set = words::and_rule(
        words::other_number(kinds::digits(number), number, field_of(L4868, 90, form)),
        set,
    );
    let set = words::and_rule(wrong_auth(own, before), set);
    let set = words::and_rule(words::wrong_page(field_of(LAuth, 2, own)), set);
    words::and_rule(whole.pays == 0, set)
}

// 0010 of a birth date or a PIN, and the codes with which type S and type O ask for it, before later rules.
fn and_asked(is_wrong: bool, f: &[u8], s: bool, o: bool, later: u64) -> u64
    ensures { result ≡ bit_on is_wrong (bit_on (s && blank f.now) (bit_on (o && blank f.now) later)) }
{
    let is_blank = text::blank(f);
    let set = words::and_rule(o && is_blank, later);
    let set = words::and_rule(s && is_blank, set);
    words::and_rule(is_wrong, set)
}

// The same of a prior income, which select asks to be the one of the line.
fn and_income(f: &[u8], line: &[u8], select: bool, s: bool, o: bool, later: u64) -> u64
    ensures { result ≡ bit_on (not_digits f.now) (bit_on (s && blank f.now) (bit_on (select && present f.now && not (same (income_in line.now) f.now)) (bit_on (o && blank f.now) later))) }
{
    let is_blank = text::blank(f);
    let set = words::and_rule(o && is_blank, later);
    let set = words::and_rule(
        select && !is_blank && !text::is_same(text::piece(line, 21, 12), f),
        set,
    );
    let set = words::and_rule(s && is_blank, set);
    words::and_rule(kinds::not_digits(f), set)
}

// The rules on the taxpayer's fields, 0010 to 0035, before later ones.
#[tactic(auto, unfolding(crate::specs::Asked::field_holds, paper::specs::Conditions::pick, paper::specs::Conditions::auth0010), using(words::proofs::Told::not_date_by, words::proofs::Told::not_pin_by))]
fn of_payer(own: &[u8], line: &[u8], asked: Asked, later: u64) -> u64
    ensures { result ≡ bits_on (breaks_asked asked own.now line.now) (100010 ∷ 100670 ∷ 100681 ∷ 200010 ∷ 200670 ∷ 200679 ∷ 200681 ∷ 350010 ∷ 350670 ∷ 350681 ∷ 350697 ∷ []) later }
{
    let (s, o) = (asked.s, asked.o);
    let birth = field_of(LAuth, 10, own);
    let income = field_of(LAuth, 20, own);
    let pin = field_of(LAuth, 35, own);
    let wrong_birth = words::not_date(kinds::not_digits(birth), birth);
    let wrong_pin = words::not_pin(kinds::not_digits(pin), pin);
    let set = words::and_rule(asked.p && text::blank(pin), later);
    let set = and_asked(wrong_pin, pin, s, o, set);
    let set = and_income(income, line, asked.select, s, o, set);
    and_asked(wrong_birth, birth, s, o, set)
}

// The rules on the spouse's fields, 0040 to 0065, before later ones.
#[tactic(auto, unfolding(crate::specs::Asked::field_holds, paper::specs::Conditions::pick, paper::specs::Conditions::auth0010), using(words::proofs::Told::not_date_by, words::proofs::Told::not_pin_by))]
fn of_spouse(own: &[u8], line: &[u8], asked: Asked, later: u64) -> u64
    ensures { result ≡ bits_on (breaks_asked asked own.now line.now) (400010 ∷ 400671 ∷ 400682 ∷ 500010 ∷ 500671 ∷ 500680 ∷ 500682 ∷ 650010 ∷ 650671 ∷ 650682 ∷ []) later }
{
    let (s, o) = (asked.spouse_s, asked.spouse_o);
    let birth = field_of(LAuth, 40, own);
    let income = field_of(LAuth, 50, own);
    let pin = field_of(LAuth, 65, own);
    let wrong_birth = words::not_date(kinds::not_digits(birth), birth);
    let wrong_pin = words::not_pin(kinds::not_digits(pin), pin);
    let set = and_asked(wrong_pin, pin, s, o, later);
    let set = and_income(income, line, asked.select, s, o, set);
    and_asked(wrong_birth, birth, s, o, set)
}

// 0670, 0671, 0681 and 0682 of a field of both, before later ones.
fn and_missing(is_blank: bool, asked: Asked, later: u64) -> u64
    ensures { result ≡ bit_on (asked.s && is_blank) (bit_on (asked.spouse_s && is_blank) (bit_on (asked.o && is_blank) (bit_on (asked.spouse_o && is_blank) later))) }
{
    let set = words::and_rule(asked.spouse_o && is_blank, later);
    let set = words::and_rule(asked.o && is_blank, set);
    let set = words::and_rule(asked.spouse_s && is_blank, set);
    words::and_rule(asked.s && is_blank, set)
}

// The rules on the fields of both, 0070 to 0080, before later ones.
#[tactic(auto, unfolding(crate::specs::Asked::field_holds, paper::specs::Conditions::pick, paper::specs::Conditions::auth0010), using(words::proofs::Told::not_date_by))]
fn of_both(own: &[u8], asked: Asked, later: u64) -> u64
    ensures { result ≡ bits_on (breaks_asked asked own.now []) (700010 ∷ 700670 ∷ 700671 ∷ 700681 ∷ 700682 ∷ 700697 ∷ 750326 ∷ 750670 ∷ 750671 ∷ 750681 ∷ 750682 ∷ 750697 ∷ 800010 ∷ 800670 ∷ 800671 ∷ 800681 ∷ 800682 ∷ []) later }
{
    let code = field_of(LAuth, 80, own);
    let set = and_missing(text::blank(code), asked, later);
    let set = words::and_rule(!words::one_of(b"1234 ", code), set);
    let jurat = field_of(LAuth, 75, own);
    let is_blank = text::blank(jurat);
    let set = words::and_rule(asked.p && is_blank, set);
    let set = and_missing(is_blank, asked, set);
    let set = words::and_rule(
        asked.select && !text::is_same(jurat, b"E") || asked.p && !text::is_same(jurat, b"I"),
        set,
    );
    let signed = field_of(LAuth, 70, own);
    let is_blank = text::blank(signed);
    let set = words::and_rule(asked.p && is_blank, set);
    let set = and_missing(is_blank, asked, set);
    words::and_rule(words::not_date(kinds::not_digits(signed), signed), set)
}

// The set of the rules that an authentication breaks, after so many of the document, where both records have their length; payer and spouse
// are the taxpayer lines of 0090 and 0100.
#[tactic(auto, unfolding(paper::specs::Conditions::auth_rules, paper::specs::Conditions::auth_holds, paper::specs::Conditions::pick, paper::specs::Conditions::wrong_jurat, paper::specs::Conditions::wrong_income, paper::specs::Conditions::missing_p, crate::specs::Asked::asked_of, crate::specs::Asked::field_holds), using(crate::proofs::Laws::missing_asked, crate::proofs::Laws::missing_spouse_asked))]
pub fn broken(
    form: &[u8],
    own: &[u8],
    payer: &[u8],
    spouse: &[u8],
    whole: Facts,
    before: usize,
) -> u64
    ensures { result ≡ cond (eqb (length form.now) 384 && eqb (length own.now) 340) (bits_by (breaks form.now own.now payer.now spouse.now whole before) auth_rules) 0 }
{
    if form.len() != 384 || own.len() != 340 {
        return 0;
    }
    let asked = asked_of(form, own, whole);
    let set = of_both(own, asked, 0);
    let set = of_spouse(own, spouse, asked, set);
    let set = of_payer(own, payer, asked, set);
    of_head(form, own, whole, before, set)
}

// The rules in their order, each by the digits of its field and of its code.
static RULES: [[u8; 8]; 43] = [
    *b"00000030",
    *b"00000044",
    *b"00000045",
    *b"00030004",
    *b"00080010",
    *b"00100010",
    *b"00100670",
    *b"00100681",
    *b"00200010",
    *b"00200670",
    *b"00200679",
    *b"00200681",
    *b"00350010",
    *b"00350670",
    *b"00350681",
    *b"00350697",
    *b"00400010",
    *b"00400671",
    *b"00400682",
    *b"00500010",
    *b"00500671",
    *b"00500680",
    *b"00500682",
    *b"00650010",
    *b"00650671",
    *b"00650682",
    *b"00700010",
    *b"00700670",
    *b"00700671",
    *b"00700681",
    *b"00700682",
    *b"00700697",
    *b"00750326",
    *b"00750670",
    *b"00750671",
    *b"00750681",
    *b"00750682",
    *b"00750697",
    *b"00800010",
    *b"00800670",
    *b"00800671",
    *b"00800681",
    *b"00800682",
];

// What is written of each rule, in the table's order.
#[tactic(auto, unfolding(paper::specs::Conditions::auth_rules, words::specs::Tables::rule_text))]
pub fn texts() -> &'static [[u8; 8]]
    ensures { result.now ≡ map rule_text auth_rules }
{
    &RULES
}
