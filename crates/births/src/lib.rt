// The birth dates of a document's first authentication, held against the taxpayer lines: field 0117 of the ACK Key.
#![tactic(auto)]

ghost use Rattle.std.specs.Prelude.{◌≡◌, drop};
ghost use Rattle.paper.specs.Conditions.{first_auth, other_birth, compares_births, validity, birth_byte};
ghost use Rattle.walk.specs.Parts.{own_in};

use layout::field_of;
use paper::Kind;
use paper::Layout::LAuth;

// The first authentication among the records that go on with a document, which start at a place; or no byte, as the paper's
// `first_auth` has it.
fn first_auth(t: &[u8], from: usize) -> &[u8]
    ensures { result.now ≡ first_auth (own_in (drop from t.now)) }
{
    walk::others_from(t, from)
        .find(|record| record.kind == Kind::Auth)
        .map_or(&[], |record| record.bytes)
}

// Type S or O, with a payment, and a birth date present.
#[tactic(auto, unfolding(paper::specs::Conditions::compares_births))]
fn compares(own: &[u8], pays: usize) -> bool
    ensures { result ≡ compares_births own.now pays }
{
    let kind = field_of(LAuth, 8, own);
    (text::is_same(kind, b"S") || text::is_same(kind, b"O"))
        && 0 < pays
        && (!text::blank(field_of(LAuth, 10, own)) || !text::blank(field_of(LAuth, 40, own)))
}

// A birth date is present and not the one of the taxpayer's line. A missing line has none.
#[tactic(auto, unfolding(paper::specs::Conditions::other_birth))]
fn differs(n: u32, own: &[u8], line: &[u8]) -> bool
    ensures { result ≡ other_birth n own.now line.now }
{
    let birth = field_of(LAuth, n, own);
    !text::blank(birth) && !text::is_same(text::piece(line, 13, 8), birth)
}

fn validity(primary: bool, spouse: bool) -> u8
    ensures { result ≡ validity primary spouse }
{
    match (primary, spouse) {
        (true, true) => b'4',
        (true, false) => b'2',
        (false, true) => b'3',
        (false, false) => b'1',
    }
}

// Field 0117 of a document with so many payments whose records after the first start at a place; 0 where no date is compared. It is a byte,
// as the Key holds it.
#[tactic(auto, using(crate::proofs::First::no_payment), unfolding(paper::specs::Conditions::birth_byte))]
pub fn birth_byte(t: &[u8], from: usize, payer: &[u8], spouse: &[u8], pays: usize) -> u8
    ensures { result ≡ birth_byte (first_auth (own_in (drop from t.now))) payer.now spouse.now pays }
{
    // Without a payment no authentication is looked for.
    if pays == 0 {
        return b'0';
    }
    let own = first_auth(t, from);
    if compares(own, pays) {
        validity(differs(10, own, payer), differs(40, own, spouse))
    } else {
        b'0'
    }
}
