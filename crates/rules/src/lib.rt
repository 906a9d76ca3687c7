// What a record after a document's first breaks: a set, with a bit for a rule in the order of its kind's table, the first rule the lowest
// bit; and what is written of a kind's rules, in that order.
#![tactic(auto)]

ghost use Rattle.std.specs.Prelude.{◌≡◌, map};
ghost use Rattle.paper.specs.Conditions.{rules_of};
ghost use Rattle.words.specs.Tables.{rule_text};
ghost use Rattle.rules.specs.Sets.{others_of};

use paper::{Facts, Kind};

// Of an FRM of an unknown form: its one rule.
static UNKNOWN: [[u8; 8]; 1] = [*b"00000044"];

// What is written of each rule of a kind, its field and its code, in its table's order. As digits, since to write them from a number takes a
// sixth of a file of very many findings.
#[tactic(auto, unfolding(words::specs::Tables::rule_text))]
pub fn texts(kind: Kind) -> &'static [[u8; 8]]
    ensures { result.now ≡ map rule_text (rules_of kind) }
{
    match kind {
        Kind::Form => form::texts(),
        Kind::Payment => payment::texts(),
        Kind::Auth => auth::texts(),
        Kind::Summary => summary::texts(),
        Kind::Unknown => &UNKNOWN,
        Kind::TranA | Kind::TranB | Kind::Recap | Kind::Stray => &[],
    }
}

// How many payments and authentications of the document stand before a record.
#[derive(Clone, Copy)]
pub struct Before {
    pub pays: usize,
    pub aths: usize,
}

// The set of the rules that a record of a document after its first breaks: form is the document's first record; payer and spouse are the
// taxpayer lines of 0090 and 0100, bank the line of a payment's 0030; whole are the facts of the document.
#[tactic(auto, unfolding(crate::specs::Sets::others_of))]
pub fn others(
    kind: Kind,
    form: &[u8],
    own: &[u8],
    payer: &[u8],
    spouse: &[u8],
    bank: &[u8],
    whole: Facts,
    before: Before,
) -> u64
    ensures { result ≡ others_of kind form.now own.now payer.now spouse.now bank.now whole before }
{
    match kind {
        Kind::Payment => payment::broken(form, own, bank, before.pays),
        Kind::Auth => auth::broken(form, own, payer, spouse, whole, before.aths),
        Kind::Summary => summary::broken(form, own),
        Kind::Form | Kind::Unknown | Kind::TranA | Kind::TranB | Kind::Recap | Kind::Stray => 0,
    }
}
