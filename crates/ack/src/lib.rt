// The acknowledgment file of a transmission, how much room it needs, and the entry points.
#![tactic(auto)]

ghost use Rattle.std.specs.Prelude.{◌≡◌, ◌+◌, ◌-◌, ◌*◌, ◌/◌, ◌≤◌, min, leb, length};
ghost use Rattle.paper.specs.Bytes.{laid};
ghost use Rattle.paper.specs.Pack.{lent};
ghost use Rattle.paper.specs.Answer.{prescribed, answer, number_of, length_of, coded, left_by};
ghost use Rattle.paper.specs.Room.{need, enough};
ghost use Rattle.judge.specs.Judged.{searched};
ghost use Rattle.rejection.specs.Given.{Given};
ghost use Rattle.route.specs.Way.{sequence_for};
ghost use Rattle.ack.specs.Ties.{Begins, turns_in, sets_in, judged_file, Written};

use arrayvec::ArrayVec;
use judge::Past;
use paper::{Broken, Codes, Layout, Letter, Reference, Refusal};
use route::Way;

// No transmission has more accepted documents: each is a 4868 document of 384 bytes and a SUM of 314. The proof uses only 86 bytes of it.
const MOST_ACCEPTED: usize = 762;

// Where the record sets end, and how many documents are accepted.
#[derive(Clone, Copy)]
struct Done {
    to: usize,
    accepted: usize,
}

// A sound transmission of n documents, and the blocks of the pack and the date by which they are judged.
#[derive(Clone, Copy)]
struct Sound<'a> {
    t: &'a [u8],
    n: usize,
    reference: Reference<'a>,
    date: &'a [u8],
    ghost begins: { Begins t.now n },
}

// THE JUDGED FILE

// The most that the file of n documents can take: the set of a document of 43 bytes has 240, and that of a 4868 document, which has 341
// bytes more at least, has 11,400 more at most.
fn most(size: usize, n: usize) -> usize
    requires { (size ≤ 65536) × (43 * n ≤ size) }
    ensures { (result ≡ 360 + 240 * n + 11400 * min n ((size - 43 * n) / 341)) × (result ≤ enough size) }
{
    let forms = n.min((size - 43 * n) / 341);
    360 + 240 * n + 11400 * forms
}

impl Sound<'_> {
    // The length of the file: TRANA, TRANB and the Recap, and the record sets of all documents.
    fn file_size(self) -> usize
        ensures { result ≡ 360 + length (sets_in (turns_in (searched (lent self.entry.reference)) self.entry.date.now self.entry.t.now)) }
    {
        let mut list: ArrayVec<Broken, 96> = ArrayVec::new();
        let mut row = [0u32; MOST_ACCEPTED];
        let mut past = Past::new();
        let mut at: usize = 240;
        let mut size: usize = 0;
        for _ in 0..self.n {
            let j = judge::judge(
                self.t,
                at,
                self.reference,
                self.date,
                &mut past,
                &mut row,
                &mut list,
            );
            size += 120 + 120 * j.found.kept;
            at += j.size;
        }
        size + 360
    }

    // The file goes into so many bytes: the most that it could take does, or else what it takes.
    fn has_room(self, room: usize) -> bool
        ensures { result ≡ leb (360 + length (sets_in (turns_in (searched (lent self.entry.reference)) self.entry.date.now self.entry.t.now))) room }
    {
        if most(self.t.len(), self.n) <= room {
            return true;
        }
        self.file_size() <= room
    }

    // The record sets of all documents, written after the 240 bytes of TRANA and TRANB.
    fn write_sets(self, out: &mut [u8]) -> Done
        requires { 240 + length (sets_in (turns_in (searched (lent self.reference)) self.date.now self.t.now)) ≤ length out.old }
        ensures { Written (turns_in (searched (lent self.entry.reference)) self.entry.date.now self.entry.t.now) 240 out.old out.new result }
    {
        let mut list: ArrayVec<Broken, 96> = ArrayVec::new();
        let mut row = [0u32; MOST_ACCEPTED];
        let mut past = Past::new();
        let mut at: usize = 240;
        let mut to: usize = 240;
        let mut accepted: usize = 0;
        for _ in 0..self.n {
            let j = judge::judge(
                self.t,
                at,
                self.reference,
                self.date,
                &mut past,
                &mut row,
                &mut list,
            );
            let end = at + j.size;
            sets::put_set(
                &mut out[to..],
                &self.t[at..end],
                self.t,
                self.date,
                j,
                list.as_slice(),
            );
            to += 120 + 120 * j.found.kept;
            accepted += usize::from(j.letter == Letter::A);
            at = end;
        }
        Done { to, accepted }
    }

    // TRANA and TRANB, the record sets and the Recap, written at the front of out; and their length.
    fn put_file(self, name: &[u8], out: &mut [u8]) -> usize
        requires { length (judged_file (searched (lent self.reference)) self.date.now name.now self.t.now) ≤ length out.old }
        ensures value { result ≡ length (judged_file (searched (lent self.entry.reference)) self.entry.date.now name.now self.entry.t.now) }
        ensures out_after { out.new ≡ laid out.old 0 (judged_file (searched (lent self.entry.reference)) self.entry.date.now name.now self.entry.t.now) }
    {
        // By way of an array: to copy from one lent slice to another takes `memmove`, which the library for C asks for nowhere else.
        let mut head = [0u8; 240];
        head.copy_from_slice(&self.t[0..240]);
        text::lay(out, 0, &head);
        let done = self.write_sets(out);
        let to = done.to;
        let from = self.t.len() - 120;
        let twelve = layout::through(Layout::LTrana, 60, 80, &self.t[0..120]);
        record::put_recap(
            out,
            to,
            &self.t[from..],
            twelve,
            done.accepted as u32,
            self.n as u32,
            name,
        );
        to + 120
    }

    // The file of a transmission that is not rejected whole. That it fits is known before a byte is written.
    fn judge_all(self, name: &[u8], out: &mut [u8]) -> Result<usize, Refusal>
        ensures { Given (judged_file (searched (lent self.entry.reference)) self.entry.date.now name.now self.entry.t.now) out.old out.new result }
    {
        if !self.has_room(out.len()) {
            return Err(Refusal::ShortOutput);
        }
        Ok(self.put_file(name, out))
    }
}

// THE ENTRY POINTS

// 0030 of a whole rejection: zeros, or the 12 digits and 0000 if not 0823.
fn sequence_of(t: &[u8], codes: Codes) -> [u8; 16]
    ensures { result ≡ sequence_for codes t.now }
{
    let mut s = [b'0'; 16];
    if let Codes::C0823 = codes {
        return s;
    }
    text::lay(&mut s, 0, layout::through(Layout::LTrana, 60, 80, t));
    s
}

// The acknowledgment file of a transmission t, written at the front of out, and its length; or a refusal, which changes no byte of out.
pub fn acknowledge(
    t: &[u8],
    pack: &[u8],
    date: &[u8],
    name: &[u8],
    out: &mut [u8],
) -> Result<usize, Refusal>
    ensures value { result ≡ answer t.now pack.now date.now name.now (length out.old) }
    ensures out_after { out.new ≡ left_by result (prescribed t.now pack.now date.now name.now) out.old }
{
    match route::choose(t, pack, date, name)? {
        Way::Reject(codes) => {
            let sequence = sequence_of(t, codes);
            rejection::reject(&sequence, codes, out)
        }
        Way::Judge(n, reference) => {
            let sound = Sound {
                t,
                n,
                reference,
                date,
            };
            sound.judge_all(name, out)
        }
    }
}

// The length of that file, worked out without writing it, or a refusal: how much to lend for it.
pub fn need(t: &[u8], pack: &[u8], date: &[u8], name: &[u8]) -> Result<usize, Refusal>
    ensures { result ≡ need t.now pack.now date.now name.now }
{
    match route::choose(t, pack, date, name)? {
        Way::Reject(codes) => Ok(rejection::size_of(codes)),
        Way::Judge(n, reference) => {
            let sound = Sound {
                t,
                n,
                reference,
                date,
            };
            Ok(sound.file_size())
        }
    }
}

// 0 for a file, or the refusal's number.
pub fn number_of(a: Result<usize, Refusal>) -> u32
    ensures { result ≡ number_of a }
{
    match a {
        Ok(_) => 0,
        Err(r) => r.number(),
    }
}

// The file's length, or 0.
pub fn length_of(a: Result<usize, Refusal>) -> usize
    ensures { result ≡ length_of a }
{
    match a {
        Ok(n) => n,
        Err(_) => 0,
    }
}

#[tactic(auto, unfolding(paper::specs::Answer::coded))]
fn code_of(a: Result<usize, Refusal>) -> u64
    ensures { result ≡ coded a }
{
    number_of(a) as u64 * 4294967296 + length_of(a) as u64
}

// The answer as one number: the refusal's number, or 0, times 2 to the 32nd, plus the length.
pub fn bluffcradle_acknowledge(
    t: &[u8],
    pack: &[u8],
    date: &[u8],
    name: &[u8],
    out: &mut [u8],
) -> u64
    ensures value { result ≡ coded (answer t.now pack.now date.now name.now (length out.old)) }
    ensures out_after { out.new ≡ left_by (answer t.now pack.now date.now name.now (length out.old)) (prescribed t.now pack.now date.now name.now) out.old }
{
    code_of(acknowledge(t, pack, date, name, out))
}

// The need as one number, in the same way.
pub fn bluffcradle_need(t: &[u8], pack: &[u8], date: &[u8], name: &[u8]) -> u64
    ensures { result ≡ coded (need t.now pack.now date.now name.now) }
{
    code_of(need(t, pack, date, name))
}
