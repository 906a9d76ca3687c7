// The file of a whole rejection: one Key with T, and an Error record a code.
#![tactic(auto)]

ghost use Rattle.std.specs.Prelude.{◌≡◌, ◌++◌, ◌+◌, ◌*◌, ◌/◌, ◌%◌, ◌≤◌, length};
ghost use Rattle.paper.specs.Bytes.{written, zeros, blanks, laid};
ghost use Rattle.paper.specs.File.{error_record, code_list, whole_errors, rejection};
ghost use Rattle.paper.specs.Answer.{room_for, left_by};

use paper::{Codes, Refusal, Verdict};
use record::Key;

// The codes, ascending.
fn codes_of(codes: Codes) -> &'static [u32]
    ensures value { result.now ≡ code_list codes }
    ensures upper_bound { length result.now ≤ 2 }
{
    match codes {
        Codes::C0823 => &[823],
        Codes::C0822 => &[822],
        Codes::C0840 => &[840],
        Codes::C0822And0840 => &[822, 840],
    }
}

// The n-th Error record, for a code.
#[tactic(auto, using(crate::proofs::Laws::code_laid))]
fn put_code(out: &mut [u8], n: u32, code: u32)
    requires { 120 * n + 120 ≤ length out.old }
    ensures { out.new ≡ laid out.old (120 * n) (error_record (zeros 9) n (blanks 6) (blanks 6) (zeros 5) (zeros 7) code) }
{
    let model = record::error_model(b"000000000", b"      ", b"      ", b"00000", b"0000000");
    let text = text::written::<8>(u64::from(code));
    record::put_error(out, 120 * n as usize, &model, n, text)
}

// An Error record a code.
fn put_codes(out: &mut [u8], codes: &[u32])
    requires few { length codes.now ≤ 2 }
    requires room { 120 + 120 * length codes.now ≤ length out.old }
    ensures { out.new ≡ laid out.old 120 (whole_errors 1 codes.now) }
{
    for (i, code) in codes.iter().enumerate() {
        put_code(out, i as u32 + 1, *code);
    }
}

// The length of the file.
pub fn size_of(codes: Codes) -> usize
    ensures { result ≡ 120 + 120 * length (code_list codes) }
{
    120 + 120 * codes_of(codes).len()
}

// One Key with T, and an Error record a code.
pub fn reject(sequence: &[u8], codes: Codes, out: &mut [u8]) -> Result<usize, Refusal>
    ensures value { result ≡ room_for (length out.old) (rejection sequence.now codes) }
    ensures out_after { out.new ≡ left_by result (rejection sequence.now codes) out.old }
{
    let size = size_of(codes);
    if out.len() < size {
        return Err(Refusal::ShortOutput);
    }
    let list = codes_of(codes);
    let key = Key {
        ssn: b"000000000",
        sequence,
        verdict: Verdict::Whole(codes),
        pin: b' ',
        date: b"00000000",
        control: b"00000000000000",
        errors: list.len() as u32,
        literal: b"               ",
        births: b'0',
    };
    record::put_key(out, 0, key);
    put_codes(out, list);
    Ok(size)
}
