// The records of the acknowledgment file, written into an output: 120 blanks, over which texts are laid by the layout tables.
#![tactic(auto)]

ghost use Rattle.std.specs.Prelude.{◌≡◌, ◌+◌, ◌≤◌, length};
ghost use Rattle.paper.specs.Bytes.{part, laid};
ghost use Rattle.paper.specs.Layouts.{entry};
ghost use Rattle.paper.specs.File.{verdict_byte, key_record, recap_record};
ghost use Rattle.record.specs.Parts.{started, ended, error_model, error_by, placed};

use paper::{Layout, Verdict};

// What an ACK Key says of its document: its primary number, its sequence number, the verdict, field 0065, the receiving date, its control
// number, the number of Error records, field 0115 and field 0117.
#[derive(Clone, Copy)]
pub struct Key<'a> {
    pub ssn: &'a [u8],
    pub sequence: &'a [u8],
    pub verdict: Verdict,
    pub pin: u8,
    pub date: &'a [u8],
    pub control: &'a [u8],
    pub errors: u32,
    pub literal: &'a [u8],
    pub births: u8,
}

#[inline(always)]
fn lay(r: &mut [u8], l: Layout, number: u32, text: &[u8])
    ensures { r.new ≡ laid r.old (entry l number).start text.now }
{
    text::lay(r, layout::start_of(l, number), text)
}

// 120 blanks, the byte count, and the record's id.
#[tactic(auto, unfolding(crate::specs::Parts::started))]
fn start(l: Layout, id: &[u8]) -> [u8; 120]
    ensures { result ≡ started l id.now }
{
    let mut r = [32u8; 120];
    text::lay(&mut r, 0, b"0120****");
    lay(&mut r, l, 0, id);
    r
}

#[tactic(auto, unfolding(crate::specs::Parts::ended))]
fn end(r: &mut [u8])
    ensures { r.new ≡ ended r.old }
{
    text::lay(r, 119, b"#")
}

fn verdict_byte(v: Verdict) -> u8
    ensures { result ≡ verdict_byte v }
{
    match v {
        Verdict::Whole(_) => b'T',
        Verdict::Judged(l) => u8::from(l),
    }
}

#[tactic(auto, unfolding(paper::specs::File::key_record, paper::specs::File::record_of, crate::specs::Parts::started, crate::specs::Parts::ended))]
fn key_record(key: Key) -> [u8; 120]
    ensures { let k = key.entry in result ≡ key_record k.ssn.now k.sequence.now k.verdict k.pin k.date.now k.control.now k.errors k.literal.now k.births }
{
    let mut r = start(Layout::LKey, b"ACK   ");
    lay(&mut r, Layout::LKey, 20, key.ssn);
    lay(&mut r, Layout::LKey, 30, key.sequence);
    lay(&mut r, Layout::LKey, 50, &[verdict_byte(key.verdict)]);
    lay(&mut r, Layout::LKey, 65, &[key.pin]);
    lay(&mut r, Layout::LKey, 80, key.date);
    lay(&mut r, Layout::LKey, 90, key.control);
    lay(
        &mut r,
        Layout::LKey,
        100,
        &text::written::<2>(u64::from(key.errors)),
    );
    lay(&mut r, Layout::LKey, 110, b"00");
    lay(&mut r, Layout::LKey, 115, key.literal);
    lay(&mut r, Layout::LKey, 117, &[key.births]);
    end(&mut r);
    r
}

// What the Error records of one record of a document share: all but the running number and the rule.
#[tactic(auto, unfolding(crate::specs::Parts::error_model, paper::specs::File::record_of, crate::specs::Parts::started, crate::specs::Parts::ended))]
pub fn error_model(ssn: &[u8], id: &[u8], form: &[u8], page: &[u8], occurrence: &[u8]) -> [u8; 120]
    ensures { result ≡ error_model ssn.now id.now form.now page.now occurrence.now }
{
    let mut r = start(Layout::LError, b"ACKR  ");
    lay(&mut r, Layout::LError, 10, ssn);
    lay(&mut r, Layout::LError, 40, id);
    lay(&mut r, Layout::LError, 50, form);
    lay(&mut r, Layout::LError, 60, page);
    lay(&mut r, Layout::LError, 70, occurrence);
    end(&mut r);
    r
}

#[tactic(auto, unfolding(crate::specs::Parts::error_by))]
fn error_by(model: &[u8; 120], n: u32, text: [u8; 8]) -> [u8; 120]
    ensures { result ≡ error_by model.now n text }
{
    let mut r = *model;
    lay(
        &mut r,
        Layout::LError,
        30,
        &text::written::<2>(u64::from(n)),
    );
    lay(&mut r, Layout::LError, 80, &text);
    r
}

// With the counts of the accepted and of all documents.
#[tactic(auto, unfolding(paper::specs::File::recap_record, paper::specs::File::record_of, crate::specs::Parts::started, crate::specs::Parts::ended))]
fn recap_record(recap: &[u8], twelve: &[u8], accepted: u32, all: u32, name: &[u8]) -> [u8; 120]
    ensures { result ≡ recap_record recap.now twelve.now accepted all name.now }
{
    let count = layout::field_of(Layout::LRecap, 30, recap);
    let rejected = all.saturating_sub(accepted);
    let mut r = start(Layout::LAckRecap, b"RECAP ");
    lay(&mut r, Layout::LAckRecap, 20, b"000000");
    lay(&mut r, Layout::LAckRecap, 30, count);
    lay(&mut r, Layout::LAckRecap, 40, twelve);
    lay(
        &mut r,
        Layout::LAckRecap,
        70,
        &text::written::<6>(u64::from(accepted)),
    );
    lay(&mut r, Layout::LAckRecap, 80, b"000000");
    lay(
        &mut r,
        Layout::LAckRecap,
        90,
        &text::written::<6>(u64::from(rejected)),
    );
    lay(&mut r, Layout::LAckRecap, 100, b"000000");
    lay(&mut r, Layout::LAckRecap, 110, b"000000");
    lay(
        &mut r,
        Layout::LAckRecap,
        120,
        &text::written::<6>(u64::from(all)),
    );
    lay(&mut r, Layout::LAckRecap, 140, name);
    end(&mut r);
    r
}

// A record goes to a place of out; where it does not fit whole, nothing is changed.
#[tactic(auto, using(crate::proofs::Laws::not_placed, crate::proofs::Laws::lent_placed))]
fn put(out: &mut [u8], at: usize, r: &[u8; 120])
    ensures { out.new ≡ placed out.old at r.now }
{
    if at.saturating_add(120) <= out.len() {
        out[at..at + 120].copy_from_slice(r)
    }
}

// ACK Key.
pub fn put_key(out: &mut [u8], at: usize, key: Key)
    ensures { let k = key.entry in out.new ≡ placed out.old at (key_record k.ssn.now k.sequence.now k.verdict k.pin k.date.now k.control.now k.errors k.literal.now k.births) }
{
    put(out, at, &key_record(key))
}

// ACK Error: a model with its running number and the eight digits of its rule, the field and the code.
pub fn put_error(out: &mut [u8], at: usize, model: &[u8; 120], n: u32, text: [u8; 8])
    ensures { out.new ≡ placed out.old at (error_by model.now n text) }
{
    put(out, at, &error_by(model, n, text))
}

// ACK Recap, with RECAP's own count and TRANA's 12 digits.
pub fn put_recap(
    out: &mut [u8],
    at: usize,
    recap: &[u8],
    twelve: &[u8],
    accepted: u32,
    all: u32,
    name: &[u8],
)
    ensures { out.new ≡ placed out.old at (recap_record recap.now twelve.now accepted all name.now) }
{
    put(out, at, &recap_record(recap, twelve, accepted, all, name))
}
