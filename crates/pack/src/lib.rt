// The reference pack: whether it is well formed, and its five blocks of lines.
#![tactic(auto)]

ghost use Rattle.std.specs.Prelude.{◌≡◌, true, false, MatchOption};
ghost use Rattle.std.specs.Option.{option_map};
ghost use Rattle.paper.specs.Pack.{good_block, body, after, lent};
ghost use Rattle.pack.specs.Shape.{shape_of};

use lines::good_body;
use paper::Reference;

// The lines of the block of this kind that starts the slice, and what follows the block. Its head says how many bytes its lines have, and
// its kind, as numbers; so the kind is one here.
#[tactic(auto, unfolding(paper::specs::Pack::good_block, paper::specs::Pack::body, paper::specs::Pack::after, paper::specs::Pack::size_said, paper::specs::Pack::kind_said))]
fn block(kind: u8, s: &[u8]) -> Option<(&[u8], &[u8])>
    ensures { MatchOption result (good_block kind s.now ≡ false)
        (λ b. (good_block kind s.now ≡ true) × (b.0.now ≡ body s.now) × (b.1.now ≡ after s.now)) }
{
    let (&[a, b, c, d, e, f], rest) = s.split_first_chunk::<6>()?;
    if u16::from_le_bytes([e, f]) != u16::from(kind) {
        return None;
    }
    let (lines, rest) = rest.split_at_checked(u32::from_le_bytes([a, b, c, d]) as usize)?;
    good_body(kind, lines).then_some((lines, rest))
}

// The blocks of a well-formed pack.
#[tactic(auto, unfolding(crate::specs::Shape::shape_of, paper::specs::Pack::well_formed, paper::specs::Pack::blocks_of, paper::specs::Pack::block_of))]
pub fn check(pack: &[u8]) -> Option<Reference<'_>>
    ensures { option_map lent result ≡ shape_of pack.now }
{
    if 65536 < pack.len() {
        return None;
    }
    let (taxpayers, rest) = block(1, pack)?;
    let (banks, rest) = block(2, rest)?;
    let (filed, rest) = block(3, rest)?;
    let (states, rest) = block(4, rest)?;
    let (sent, rest) = block(5, rest)?;
    rest.is_empty().then_some(Reference {
        taxpayers,
        banks,
        filed,
        states,
        sent,
    })
}
