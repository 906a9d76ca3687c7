// One document's judgment: its letter, its numbers, its findings, its facts and field 0117; and what it leaves for the later ones to see.
#![tactic(auto)]

ghost use Rattle.std.specs.Prelude.{◌≡◌, true, false, not, ◌&&◌, ◌||◌, [], ◌∷◌, ◌++◌, map, ◌+◌, ◌≤◌, length, drop, take};
ghost use Rattle.paper.specs.declared.Kind.TheVariants.{Form};
ghost use Rattle.paper.specs.declared.Layout.TheVariants.{L4868};
ghost use Rattle.paper.specs.Bytes.{bit, empty, member};
ghost use Rattle.paper.specs.Layouts.{field};
ghost use Rattle.paper.specs.Pack.{lent};
ghost use Rattle.paper.specs.Walk.{is, kind_of};
ghost use Rattle.paper.specs.Conditions.{sight};
ghost use Rattle.paper.specs.Judge.{letter_by, turn, asked};
ghost use Rattle.lookup.specs.Find.{line_in};
ghost use Rattle.walk.specs.Parts.{doc_here};
ghost use Rattle.judge.specs.Kept.{broke_if, held, listed, kept_of, added};
ghost use Rattle.words.specs.Past.{identity_of};
ghost use Rattle.judge.specs.Seen.{numbers_in, some_among, seen_by, no_past, next_past, next_row, past_after, row_after};
ghost use Rattle.judge.specs.Judged.{searched, bank_for, item_in, broke_from, form_broke, form_births, broke_in, counts, judgment_of};

use arrayvec::ArrayVec;
use layout::field_of;
use paper::Layout::{L4868, LPayment};
use paper::{Broken, Facts, Findings, Identity, Judgment, Kind, Letter, Reference};
use rules::Before;

// What the earlier documents leave, beside a row of the primary numbers of those that got A: the nearest 0007 and 0008 that are digits, and
// how many numbers of the row there are.
#[derive(Clone, Copy)]
pub struct Past {
    pub dsn: Option<u64>,
    pub dcn: Option<u64>,
    pub n: usize,
}

impl Past {
    // Before the first document.
    pub fn new() -> Self
        ensures { result ≡ no_past }
    {
        Past {
            dsn: None,
            dcn: None,
            n: 0,
        }
    }
}

// The findings of a 4868 document, the numbers of its form, and field 0117.
#[derive(Clone, Copy)]
struct Formed {
    found: Findings,
    identity: Identity,
    births: u8,
}

// FINDINGS

const NO_FINDINGS: Findings = Findings {
    kept: 0,
    ath: false,
};

// One more at the end of the list, which takes the first 96.
#[tactic(auto, using(crate::proofs::Kept::pushed, crate::proofs::Kept::pushed_none))]
fn keep(b: Broken, list: &mut ArrayVec<Broken, 96>)
    ensures { list.new.items ≡ take 96 (list.old.items ++ b ∷ []) }
{
    // Where there is no room for it, it is not kept.
    let _ = list.try_push(b);
}

// A record of a kind at a place, with the set of the rules that it breaks, added to the findings and to the list of such records.
fn collected(
    f: Findings,
    place: usize,
    kind: Kind,
    set: u64,
    list: &mut ArrayVec<Broken, 96>,
) -> Findings
    requires { (length list.old.items ≤ 96) × (f.kept ≤ 96) }
    ensures result_after { held list.new.items result ≡ added (held list.old.items f) (broke_if place kind set) }
    ensures bounds { (length list.new.items ≤ 96) × (result.kept ≤ 96) }
{
    if set == 0 {
        return f;
    }
    keep(Broken { place, kind, set }, list);
    Findings {
        kept: (f.kept + set.count_ones() as usize).min(96),
        ath: f.ath | (kind == Kind::Auth),
    }
}

// THE EARLIER DOCUMENTS

// An earlier document with this primary number got A.
fn is_accepted(ssn: Option<u64>, accepted: &[u32]) -> bool
    ensures { result ≡ some_among ssn accepted.now }
{
    let Some(n) = ssn else {
        return false;
    };
    accepted.iter().any(|x| n == u64::from(*x))
}

// What a form leaves for the later documents to see, with its letter.
#[tactic(auto, unfolding(crate::specs::Seen::next_past, crate::specs::Seen::next_row))]
fn pass(identity: Identity, letter: Letter, past: &mut Past, row: &mut [u32])
    ensures past_becomes { past.new ≡ next_past identity letter past.old row.old }
    ensures row_becomes { row.new ≡ next_row identity letter past.old row.old }
{
    past.dsn = identity.dsn.or(past.dsn);
    past.dcn = identity.dcn.or(past.dcn);
    // Where there is no room for its number, it is not kept.
    if letter == Letter::A && past.n < row.len() {
        row[past.n] = (identity.ssn.unwrap_or(0) % 4294967296) as u32;
        past.n += 1;
    }
}

// JUDGING

// The bank line of a payment, or no byte, which is what the rules read where there is no line.
#[tactic(auto, unfolding(crate::specs::Judged::bank_for))]
fn bank_of<'a>(banks: &'a [u8], kind: Kind, own: &[u8]) -> &'a [u8]
    ensures { result.now ≡ bank_for banks.now kind own.now }
{
    if kind == Kind::Payment {
        return lookup::line_of(banks, 10, field_of(LPayment, 30, own));
    }
    &[]
}

// After a record of this kind.
fn counted(b: Before, kind: Kind) -> Before
    requires { (b.pays ≤ 18446744073709551614) × (b.aths ≤ 18446744073709551614) }
    ensures { result ≡ counts b kind }
{
    Before {
        pays: b.pays + usize::from(kind == Kind::Payment),
        aths: b.aths + usize::from(kind == Kind::Auth),
    }
}

// The records after the first, added to the findings of the first.
fn with_others(
    t: &[u8],
    at: usize,
    facts: Facts,
    form: &[u8],
    payer: &[u8],
    spouse: &[u8],
    banks: &[u8],
    first: Findings,
    list: &mut ArrayVec<Broken, 96>,
) -> Findings
    requires { (is Form (kind_of (doc_here (drop at t.now)).main) ≡ true) × (form.now ≡ (doc_here (drop at t.now)).main) × (length list.old.items ≤ 96) × (first.kept ≤ 96) }
    ensures { held list.new.items result ≡ added (held list.old.items first) (broke_from (sight form.now payer.now spouse.now [] [] [] [] facts) (at + length form.now) 0 0 (map (item_in banks.now) (doc_here (drop at t.now)).others)) }
{
    let mut found = first;
    let mut before = Before { pays: 0, aths: 0 };
    let mut to = at + form.len();
    for record in walk::others_from(t, to) {
        let own = record.bytes;
        let bank = bank_of(banks, record.kind, own);
        let set = rules::others(record.kind, form, own, payer, spouse, bank, facts, before);
        found = collected(found, to, record.kind, set, list);
        before = counted(before, record.kind);
        to += own.len();
    }
    found
}

// The records of a 4868 document that break a rule.
fn of_form(
    t: &[u8],
    at: usize,
    facts: Facts,
    form: &[u8],
    reference: Reference,
    date: &[u8],
    dsn: Option<u64>,
    dcn: Option<u64>,
    list: &mut ArrayVec<Broken, 96>,
) -> Formed
    requires { (is Form (kind_of (doc_here (drop at t.now)).main) ≡ true) × (form.now ≡ (doc_here (drop at t.now)).main) × (list.old.items ≡ []) }
    ensures identity_value { result.identity ≡ identity_of form.now }
    ensures found_after { held list.new.items result.found ≡ kept_of (form_broke at (doc_here (drop at t.now)) reference.entry.taxpayers.now reference.entry.banks.now reference.entry.states.now date.now dsn dcn facts) }
    ensures births_value { result.births ≡ form_births (doc_here (drop at t.now)) reference.entry.taxpayers.now facts }
{
    let taxpayers = reference.taxpayers;
    let payer = lookup::line_of(taxpayers, 33, field_of(L4868, 90, form));
    let spouse = lookup::line_of(taxpayers, 33, field_of(L4868, 100, form));
    let zips = lookup::rows_of(reference.states, 8, field_of(L4868, 60, form));
    let reading = form::broken(form, payer, spouse, zips, dsn, dcn, date, facts);
    let first = collected(NO_FINDINGS, at, Kind::Form, reading.set, list);
    let found = with_others(
        t,
        at,
        facts,
        form,
        payer,
        spouse,
        reference.banks,
        first,
        list,
    );
    let births = births::birth_byte(t, at + form.len(), payer, spouse, facts.pays);
    Formed {
        found,
        identity: reading.identity,
        births,
    }
}

// The first record of any other document: an unknown form breaks its one rule.
fn of_other(at: usize, kind: Kind, list: &mut ArrayVec<Broken, 96>) -> Findings
    requires { (is Form kind ≡ false) × (list.old.items ≡ []) }
    ensures { held list.new.items result ≡ kept_of (broke_if at kind (bit (is Kind.Unknown kind))) }
{
    collected(
        NO_FINDINGS,
        at,
        kind,
        u64::from(kind == Kind::Unknown),
        list,
    )
}

// The letter by whether there is no finding, alone.
fn letter_by(clean: bool) -> Letter
    ensures { result ≡ letter_by clean false }
{
    if clean { Letter::A } else { Letter::R }
}

fn letter_of(clean: bool, identity: Identity, filed: &[u8], form: &[u8], accepted: &[u32]) -> Letter
    requires { (identity ≡ identity_of form.now) × (length form.now ≡ 384) }
    ensures { result ≡ letter_by clean (not (empty (line_in 9 (field L4868 90 form.now) filed.now)) || member (field L4868 90 form.now) (numbers_in accepted.now)) }
{
    if !clean {
        return Letter::R;
    }
    if !lookup::line_of(filed, 9, field_of(L4868, 90, form)).is_empty() {
        return Letter::D;
    }
    if is_accepted(identity.ssn, accepted) {
        return Letter::D;
    }
    Letter::A
}

// The document whose first record is at a place: its judgment, with the records that break a rule, the first 96, and what the later ones see.
// Of an unknown form only the first record is judged, and nothing is looked up.
pub fn judge(
    t: &[u8],
    at: usize,
    reference: Reference,
    date: &[u8],
    past: &mut Past,
    row: &mut [u32],
    list: &mut ArrayVec<Broken, 96>,
) -> Judgment
    ensures value { result ≡ judgment_of at (turn date.now (seen_by past.old row.old) (asked (searched (lent reference.entry)) (doc_here (drop at t.now)))) }
    ensures past_becomes { past.new ≡ past_after (turn date.now (seen_by past.old row.old) (asked (searched (lent reference.entry)) (doc_here (drop at t.now)))) past.old row.old }
    ensures row_becomes { row.new ≡ row_after (turn date.now (seen_by past.old row.old) (asked (searched (lent reference.entry)) (doc_here (drop at t.now)))) past.old row.old }
    ensures list_after { list.new.items ≡ listed (broke_in at (turn date.now (seen_by past.old row.old) (asked (searched (lent reference.entry)) (doc_here (drop at t.now))))) }
{
    list.clear();
    let doc = walk::document(t, at);
    let kind = doc.first.kind;
    if kind != Kind::Form {
        let found = of_other(at, kind, list);
        return Judgment {
            size: doc.size,
            letter: letter_by(list.is_empty()),
            known: false,
            identity: paper::NO_IDENTITY,
            found,
            facts: doc.facts,
            births: b'0',
        };
    }
    let end = at + doc.first.size;
    let form = &t[at..end];
    let formed = of_form(
        t, at, doc.facts, form, reference, date, past.dsn, past.dcn, list,
    );
    let accepted = &row[..past.n.min(row.len())];
    let letter = letter_of(
        list.is_empty(),
        formed.identity,
        reference.filed,
        form,
        accepted,
    );
    pass(formed.identity, letter, past, row);
    Judgment {
        size: doc.size,
        letter,
        known: true,
        identity: formed.identity,
        found: formed.found,
        facts: doc.facts,
        births: formed.births,
    }
}
