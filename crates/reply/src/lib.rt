// What a program writes for a transmission: the acknowledgment file, or how much room it needs; or "refused ", the number and a line end.
#![tactic(auto)]

ghost use Rattle.std.specs.Prelude.{◌≡◌, [], ◌∷◌, ◌++◌, ◌≤◌, ltb, length, count_by};
ghost use Rattle.paper.specs.Bytes.{plain, laid};
ghost use Rattle.paper.specs.Answer.{prescribed, answer, refusal_line, shown};
ghost use Rattle.paper.specs.Room.{need, need_shown, told};
ghost use Rattle.reply.specs.Digits.{leads};

use paper::{Ask, Refusal};

// A text and a line end, laid at the front of out; and their length.
#[tactic(auto, using(crate::proofs::Laws::line_long, crate::proofs::Laws::line_laid))]
fn put_line(out: &mut [u8], text: &[u8]) -> usize
    requires { length text.now ≤ 9 }
    ensures value { result ≡ length (text.now ++ 10 ∷ []) }
    ensures out_after { out.new ≡ laid out.old 0 (text.now ++ 10 ∷ []) }
{
    text::lay(out, 0, text);
    text::lay(out, text.len(), b"\n");
    text.len() + 1
}

fn put_refusal(out: &mut [u8], r: Refusal) -> usize
    ensures value { result ≡ length (refusal_line r) }
    ensures out_after { out.new ≡ laid out.old 0 (refusal_line r) }
{
    let [digit] = text::written::<1>(u64::from(r.number()));
    let mut text = *b"refused 0";
    text[8] = digit;
    put_line(out, &text)
}

fn count_above(n: usize, numbers: &[usize]) -> usize
    ensures { result ≡ count_by (ltb n) numbers.now }
{
    numbers.iter().filter(|x| n < **x).count()
}

// The zeros before a number in seven digits: as many as powers of ten are above it, 10 the lowest.
fn zeros_before(n: usize) -> usize
    ensures { result ≡ leads 7 n }
{
    count_above(n, &[10, 100, 1_000, 10_000, 100_000, 1_000_000])
}

// The number without them. Not by `write!` into a buffer of fixed size: what that ensures does not say that the text fits.
fn put_number(out: &mut [u8], n: usize) -> usize
    ensures value { result ≡ length (plain 7 n ++ 10 ∷ []) }
    ensures out_after { out.new ≡ laid out.old 0 (plain 7 n ++ 10 ∷ []) }
{
    let digits = text::written::<7>(n as u64);
    put_line(out, &digits[zeros_before(n)..])
}

// The reply, laid at the front of out, which is the output that is lent; and its length. What would stand past the last byte is left out.
#[tactic(auto, using(crate::proofs::Laws::file_long))]
pub fn reply(t: &[u8], pack: &[u8], date: &[u8], name: &[u8], out: &mut [u8]) -> usize
    ensures value { result ≡ length (shown (answer t.now pack.now date.now name.now (length out.old)) (prescribed t.now pack.now date.now name.now)) }
    ensures out_after { out.new ≡ laid out.old 0 (shown (answer t.now pack.now date.now name.now (length out.old)) (prescribed t.now pack.now date.now name.now)) }
{
    match ack::acknowledge(t, pack, date, name, out) {
        Ok(n) => n,
        Err(r) => put_refusal(out, r),
    }
}

// The need, in the same way.
fn room(t: &[u8], pack: &[u8], date: &[u8], name: &[u8], out: &mut [u8]) -> usize
    ensures value { result ≡ length (need_shown (need t.now pack.now date.now name.now)) }
    ensures out_after { out.new ≡ laid out.old 0 (need_shown (need t.now pack.now date.now name.now)) }
{
    match ack::need(t, pack, date, name) {
        Ok(n) => put_number(out, n),
        Err(r) => put_refusal(out, r),
    }
}

// What is asked, in the same way.
pub fn reply_to(ask: Ask, t: &[u8], pack: &[u8], date: &[u8], name: &[u8], out: &mut [u8]) -> usize
    ensures value { result ≡ length (told ask t.now pack.now date.now name.now (length out.old)) }
    ensures out_after { out.new ≡ laid out.old 0 (told ask t.now pack.now date.now name.now (length out.old)) }
{
    match ask {
        Ask::File => reply(t, pack, date, name, out),
        Ask::Room => room(t, pack, date, name, out),
    }
}
