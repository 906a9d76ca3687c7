// A document's ACK Key, and what its ACK Error records show of a record.
#![tactic(auto)]

ghost use Rattle.std.specs.Prelude.{◌≡◌, cond, ◌&&◌, ◌||◌, drop};
ghost use Rattle.std.specs.Option.{is_some};
ghost use Rattle.paper.specs.Bytes.{digits};
ghost use Rattle.paper.specs.Layouts.{field};
ghost use Rattle.paper.specs.Walk.{is};
ghost use Rattle.paper.specs.File.{pin_byte};
ghost use Rattle.record.specs.Parts.{placed};
ghost use Rattle.recordset.specs.Key.{key_of};

use paper::{Judgment, Kind, Layout, Letter, Verdict};
use record::Key;

// Field 0065, a byte as the Key holds it.
#[tactic(auto, unfolding(paper::specs::File::pin_byte))]
fn pin_byte(j: Judgment) -> u8
    ensures { result ≡ pin_byte j.known j.found.ath j.facts }
{
    if !j.known || j.facts.aths == 0 {
        return b'0';
    }
    if j.found.ath {
        return b' ';
    }
    match j.facts.pin {
        Some(b'P') => b'1',
        Some(b'S') => b'2',
        Some(b'O') => b'3',
        _ => b' ',
    }
}

// A field of the opening record that holds this number, or the zeros where there is none.
pub fn shown<'a>(number: Option<u64>, main: &'a [u8], n: u32, zeros: &'a [u8]) -> &'a [u8]
    ensures { result.now ≡ cond (is_some number) (field Layout.L4868 n main.now) zeros.now }
{
    match number {
        Some(_) => layout::field_of(Layout::L4868, n, main),
        None => zeros,
    }
}

// The ACK Key of a document with so many Error records, at the front of out.
#[tactic(auto, unfolding(crate::specs::Key::key_of, paper::specs::File::date_for, paper::specs::File::literal_for))]
pub fn put_set_key(out: &mut [u8], main: &[u8], date: &[u8], j: Judgment, errors: u32)
    ensures { out.new ≡ placed out.old 0 (key_of main.now date.now j errors) }
{
    let accepted = j.letter == Letter::A;
    let key = Key {
        ssn: shown(j.identity.ssn, main, 90, b"000000000"),
        sequence: shown(j.identity.dsn, main, 7, b"0000000000000000"),
        verdict: Verdict::Judged(j.letter),
        pin: pin_byte(j),
        date: if accepted { date } else { b"00000000" },
        control: shown(j.identity.dcn, main, 8, b"00000000000000"),
        errors,
        literal: if accepted && 0 < j.facts.pays {
            b"PYMNT RQST RECD"
        } else {
            b"               "
        },
        births: j.births,
    };
    record::put_key(out, 0, key)
}

// The bytes from a place on. What an Error record shows of a record is read in those from its start on.
pub fn from(t: &[u8], place: usize) -> &[u8]
    ensures { result.now ≡ drop place t.now }
{
    &t[place.min(t.len())..]
}

pub fn type_at<'a>(kind: Kind, r: &'a [u8], blanks: &'a [u8]) -> &'a [u8]
    ensures { result.now ≡ cond (is Kind.Summary kind) blanks.now (field Layout.L4868 1 r.now) }
{
    if kind == Kind::Summary {
        blanks
    } else {
        layout::field_of(Layout::L4868, 1, r)
    }
}

pub fn occurrence_at<'a>(kind: Kind, r: &'a [u8], first: &'a [u8]) -> &'a [u8]
    ensures { result.now ≡ cond ((is Kind.Payment kind || is Kind.Auth kind) && digits (field Layout.LPayment 5 r.now)) (field Layout.LPayment 5 r.now) first.now }
{
    let f = layout::field_of(Layout::LPayment, 5, r);
    if matches!(kind, Kind::Payment | Kind::Auth) && kinds::digits(f) {
        f
    } else {
        first
    }
}
