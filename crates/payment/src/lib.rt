// The rules of a payment: which of them a record breaks.
#![tactic(auto)]

ghost use Rattle.std.specs.Prelude.{◌≡◌, cond, ◌&&◌, [], ◌∷◌, eqb, length, map};
ghost use Rattle.paper.specs.declared.Layout.TheVariants.{LPayment};
ghost use Rattle.paper.specs.Layouts.{field};
ghost use Rattle.paper.specs.Conditions.{wrong_pay_date, foreign, runs, wrong_payment, other_spouse, wrong_bank, tax_type, payment_rules};
ghost use Rattle.words.specs.Tables.{rule_text};
ghost use Rattle.words.specs.Sets.{bits_on, bits_by};
ghost use Rattle.payment.specs.Breaks.{breaks};

use layout::field_of;
use paper::Layout::{L4868, LPayment};

// The running number from 0000001, after so many payments; none beyond the third.
#[tactic(auto, unfolding(paper::specs::Conditions::runs, paper::specs::Conditions::pick))]
fn is_running(f: &[u8], n: usize) -> bool
    ensures { result ≡ runs f.now n }
{
    match n {
        0 => text::is_same(f, b"0000001"),
        1 => text::is_same(f, b"0000002"),
        2 => text::is_same(f, b"0000003"),
        _ => false,
    }
}

// 0045: the filler not blank, or the occurrence not its running number.
#[tactic(auto, unfolding(paper::specs::Conditions::wrong_payment))]
fn wrong_payment(own: &[u8], n: usize) -> bool
    ensures { result ≡ wrong_payment own.now n }
{
    !text::blank(field_of(LPayment, 4, own)) || !is_running(field_of(LPayment, 5, own), n)
}

#[tactic(auto, unfolding(paper::specs::Conditions::other_spouse))]
fn other_spouse(f: &[u8], spouse: &[u8]) -> bool
    ensures { result ≡ other_spouse f.now spouse.now }
{
    !text::blank(f) && !text::is_same(f, spouse)
}

// 0396 at 0030: not digits, first two not 01-12 or 21-32, or no Y line.
#[tactic(auto, unfolding(paper::specs::Conditions::wrong_bank, paper::specs::Fields::routing))]
fn wrong_bank(f: &[u8], bank: &[u8]) -> bool
    ensures { result ≡ wrong_bank f.now bank.now }
{
    !(kinds::digits(f) && field::district(f)) || !text::is_same(text::piece(bank, 9, 1), b"Y")
}

#[tactic(auto, unfolding(paper::specs::Conditions::tax_type))]
fn tax_type(f: &[u8]) -> bool
    ensures { result ≡ tax_type f.now }
{
    text::is_same(f, b"4868E") || text::is_same(f, b"0709P") || text::is_same(f, b"0709S")
}

// 0397: no valid date or after the last day, which is a later one where the form's address indicator is 3.
#[tactic(auto, using(words::proofs::Told::pay_date_by))]
fn wrong_date(form: &[u8], own: &[u8]) -> bool
    ensures { result ≡ wrong_pay_date (foreign form.now) (field LPayment 80 own.now) }
{
    let day = field_of(LPayment, 80, own);
    let abroad = words::is_foreign(field_of(L4868, 80, form));
    words::wrong_pay_date(kinds::digits(day), abroad, day)
}

// The rules on the head, 0010 and 0020, before later ones.
#[tactic(auto, unfolding(paper::specs::Conditions::payment_holds, paper::specs::Conditions::pick, paper::specs::Conditions::payment0010, paper::specs::Conditions::wrong_payer, paper::specs::Conditions::other_number))]
fn of_payer(form: &[u8], own: &[u8], before: usize, later: u64) -> u64
    ensures { result ≡ bits_on (breaks form.now own.now [] before) (44 ∷ 45 ∷ 30004 ∷ 100010 ∷ 100395 ∷ 200010 ∷ 200395 ∷ []) later }
{
    let spouse = field_of(LPayment, 20, own);
    let payer = field_of(LPayment, 10, own);
    let number = field_of(LPayment, 3, own);
    let set = words::and_rule(other_spouse(spouse, field_of(L4868, 100, form)), later);
    let set = words::and_rule(kinds::not_digits(spouse), set);
    let set = words::and_rule(!text::is_same(payer, field_of(L4868, 90, form)), set);
    let set = words::and_rule(!kinds::digits(payer), set);
    let set = words::and_rule(
        words::other_number(kinds::digits(number), number, field_of(L4868, 90, form)),
        set,
    );
    let set = words::and_rule(wrong_payment(own, before), set);
    words::and_rule(words::wrong_page(field_of(LPayment, 2, own)), set)
}

// The rules on 0030 to 0090, before later ones.
#[tactic(auto, unfolding(paper::specs::Conditions::payment_holds, paper::specs::Conditions::pick, paper::specs::Conditions::payment0010, paper::specs::Conditions::payment0396, paper::specs::Conditions::not_positive))]
fn of_money(form: &[u8], own: &[u8], bank: &[u8], later: u64) -> u64
    ensures { result ≡ bits_on (breaks form.now own.now bank.now 0) (300396 ∷ 400396 ∷ 500396 ∷ 600010 ∷ 700010 ∷ 800397 ∷ 900010 ∷ []) later }
{
    let amount = field_of(LPayment, 60, own);
    let set = words::and_rule(kinds::not_digits(field_of(LPayment, 90, own)), later);
    let set = words::and_rule(wrong_date(form, own), set);
    let set = words::and_rule(!tax_type(field_of(LPayment, 70, own)), set);
    let set = words::and_rule(words::not_positive(!kinds::digits(amount), amount), set);
    let set = words::and_rule(!words::one_of(b"12", field_of(LPayment, 50, own)), set);
    let set = words::and_rule(!field::account(field_of(LPayment, 40, own)), set);
    words::and_rule(wrong_bank(field_of(LPayment, 30, own), bank), set)
}

// The set of the rules that a payment breaks, after so many payments of the document; bank is the line of 0030.
#[tactic(auto, unfolding(paper::specs::Conditions::payment_rules, paper::specs::Conditions::payment_holds, paper::specs::Conditions::pick))]
pub fn broken(form: &[u8], own: &[u8], bank: &[u8], before: usize) -> u64
    ensures { result ≡ cond (eqb (length form.now) 384 && eqb (length own.now) 123) (bits_by (breaks form.now own.now bank.now before) payment_rules) 0 }
{
    if form.len() != 384 || own.len() != 123 {
        return 0;
    }
    let set = of_money(form, own, bank, 0);
    of_payer(form, own, before, set)
}

// The rules in their order, each by the digits of its field and of its code.
static RULES: [[u8; 8]; 14] = [
    *b"00000044",
    *b"00000045",
    *b"00030004",
    *b"00100010",
    *b"00100395",
    *b"00200010",
    *b"00200395",
    *b"00300396",
    *b"00400396",
    *b"00500396",
    *b"00600010",
    *b"00700010",
    *b"00800397",
    *b"00900010",
];

// What is written of each rule, in the table's order.
#[tactic(auto, unfolding(paper::specs::Conditions::payment_rules, words::specs::Tables::rule_text))]
pub fn texts() -> &'static [[u8; 8]]
    ensures { result.now ≡ map rule_text payment_rules }
{
    &RULES
}
