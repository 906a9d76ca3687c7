// What becomes of a transmission: it is refused, rejected whole, or its documents are judged.
#![tactic(auto)]

ghost use Rattle.std.specs.Prelude.{◌≡◌};
ghost use Rattle.paper.specs.Answer.{file_name};
ghost use Rattle.paper.specs.Pack.{lent};
ghost use Rattle.route.specs.Way.{course, told, by_marks, by_digits, route_of};

use kinds::{PRINTABLE, all_of};
use paper::{Codes, Layout, Reference, Refusal};

// Rejected whole with these codes; or so many documents are judged, by these blocks of the pack.
#[derive(Clone, Copy)]
pub enum Way<'a> {
    Reject(Codes),
    Judge(usize, Reference<'a>),
}

fn by_marks(before: bool, differs: bool, n: usize, blocks: Reference<'_>) -> Way<'_>
    ensures { course result ≡ by_marks before differs n (lent blocks.entry) }
{
    match (before, differs) {
        (true, true) => Way::Reject(Codes::C0822And0840),
        (true, false) => Way::Reject(Codes::C0822),
        (false, true) => Way::Reject(Codes::C0840),
        (false, false) => Way::Judge(n, blocks),
    }
}

// 0822: the 12 digits were sent before; 0840: RECAP has others.
#[tactic(auto, using(lookup::proofs::Runs::equal_same, walk::proofs::Laws::tail), unfolding(crate::specs::Way::by_digits, paper::specs::Walk::twelve, paper::specs::Walk::twelve_again))]
fn by_digits<'a>(t: &[u8], n: usize, blocks: Reference<'a>) -> Way<'a>
    ensures { course result ≡ by_digits t.now n (lent blocks.entry) }
{
    let twelve = layout::through(Layout::LTrana, 60, 80, text::piece(t, 0, 120));
    let again = layout::through(Layout::LRecap, 40, 60, &t[t.len().saturating_sub(120)..]);
    let sent = lookup::line_of(blocks.sent, 12, twelve);
    by_marks(!sent.is_empty(), twelve != again, n, blocks)
}

#[tactic(auto, unfolding(paper::specs::Answer::file_name), using(kinds::proofs::Ranges::printable_kind))]
fn is_file_name(s: &[u8]) -> bool
    ensures { result ≡ file_name s.now }
{
    s.len() == 20 && all_of(kinds::table(), PRINTABLE, s)
}

// Refusals 1, 2 and 3, the lowest that applies; then 0823; then 0822 and 0840.
#[tactic(auto, unfolding(crate::specs::Way::route_of, paper::specs::Answer::refusal_of, pack::specs::Shape::shape_of))]
pub fn choose<'a>(t: &[u8], pack: &'a [u8], date: &[u8], name: &[u8]) -> Result<Way<'a>, Refusal>
    ensures { told result ≡ route_of t.now pack.now date.now name.now }
{
    if 65536 < t.len() {
        return Err(Refusal::LongTransmission);
    }
    let blocks = pack::check(pack).ok_or(Refusal::BadPack)?;
    if !(date::valid_date(date) && is_file_name(name)) {
        return Err(Refusal::BadDateOrName);
    }
    let Some(n) = walk::structure(t) else {
        return Ok(Way::Reject(Codes::C0823));
    };
    Ok(by_digits(t, n, blocks))
}
