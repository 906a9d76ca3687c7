// A document's record set, written at the front of an output.
#![tactic(auto)]

ghost use Rattle.std.specs.Prelude.{◌≡◌, cond, ◌+◌, ◌-◌, ◌*◌, ◌≤◌, min, leb, length, take};
ghost use Rattle.paper.specs.Bytes.{bytes, laid};
ghost use Rattle.paper.specs.Layouts.{field};
ghost use Rattle.paper.specs.Judge.{type_at, occurrence_at};
ghost use Rattle.paper.specs.File.{errors_from};
ghost use Rattle.record.specs.Parts.{error_model};
ghost use Rattle.sets.specs.Set.{found_in, found_from, set_as};

use paper::{Broken, Judgment, Kind, Layout};

// What the Error records of the record of this kind at the front of r share.
#[tactic(auto, unfolding(paper::specs::Judge::type_at, paper::specs::Judge::occurrence_at))]
fn model_of(ssn: &[u8], kind: Kind, r: &[u8]) -> [u8; 120]
    ensures { result ≡ error_model ssn.now (field Layout.L4868 0 r.now) (type_at kind r.now) (bytes "00001") (occurrence_at kind r.now) }
{
    let id = layout::field_of(Layout::L4868, 0, r);
    let form = recordset::type_at(kind, r, b"      ");
    let occurrence = recordset::occurrence_at(kind, r, b"0000001");
    record::error_model(ssn, id, form, b"00001", occurrence)
}

// The Error records of the rules that a record of the transmission t broke: their numbers start with first and stay below end. The number
// after the last of them.
fn put_broken(
    out: &mut [u8],
    ssn: &[u8],
    t: &[u8],
    broken: &Broken,
    first: usize,
    end: usize,
) -> usize
    requires { (first ≤ end) × (end ≤ 97) × (120 * end ≤ length out.old) }
    ensures value { result ≡ first + length (take (end - first) (found_in t.now broken.now)) }
    ensures out_after { out.new ≡ laid out.old (120 * first) (errors_from ssn.now first (take (end - first) (found_in t.now broken.now))) }
{
    let model = model_of(ssn, broken.kind, recordset::from(t, broken.place));
    let mut n = first;
    let mut left = broken.set;
    for text in rules::texts(broken.kind) {
        if left % 2 == 1 && n < end {
            record::put_error(out, 120 * n, &model, n as u32, *text);
            n += 1;
        }
        left /= 2;
    }
    n
}

// The Error records of the records of a list, after the Key: their numbers stay below end.
fn put_errors(out: &mut [u8], ssn: &[u8], t: &[u8], list: &[Broken], end: usize)
    requires { (1 ≤ end) × (end ≤ 97) × (120 * end ≤ length out.old) }
    ensures { out.new ≡ laid out.old 120 (errors_from ssn.now 1 (take (end - 1) (found_from t.now list.now))) }
{
    let mut n: usize = 1;
    for broken in list {
        n = put_broken(out, ssn, t, broken, n, end);
    }
}

// The record set of a document by its bytes, which start with its opening record, its judgment, and the list of its records with a finding,
// whose places are in the transmission t. Where it does not fit, nothing is written.
pub fn put_set(out: &mut [u8], main: &[u8], t: &[u8], date: &[u8], j: Judgment, list: &[Broken])
    ensures { out.new ≡ cond (leb (120 + 120 * min 96 j.found.kept) (length out.old)) (laid out.old 0 (set_as main.now t.now date.now j list.now)) out.old }
{
    let errors = j.found.kept.min(96);
    if 120 + 120 * errors <= out.len() {
        let ssn = recordset::shown(j.identity.ssn, main, 90, b"000000000");
        recordset::put_set_key(out, main, date, j, errors as u32);
        put_errors(out, ssn, t, list, errors + 1)
    }
}
