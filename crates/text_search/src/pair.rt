// The rarest pair of a needle.
ghost use Rattle.std.specs.Prelude.{◌≡◌, ◌≤◌, true, length};
ghost use Rattle.text_search.specs.Needles.{stands_in};

/// The two bytes that stand side by side in a needle least often, as far as 256 counts tell.
#[tactic(auto, using(crate::proofs::Needles::part_stands))]
pub(crate) fn rarest_pair(needle: &[u8]) -> &[u8]
    ensures { stands_in result.now needle.now ≡ true }
{
    let from = rarest_place(needle);
    &needle[from..needle.len().min(from + 2)]
}

// Where they begin.
fn rarest_place(needle: &[u8]) -> usize
    ensures { result ≤ length needle.now }
{
    let mut counts = [0u32; 256];
    for end in 1..needle.len() {
        let slot = slot(needle[end - 1], needle[end]);
        counts[slot] = counts[slot].saturating_add(1);
    }
    let mut rarest = 0;
    let mut least = u32::MAX;
    for end in 1..needle.len() {
        let count = counts[slot(needle[end - 1], needle[end])];
        if count < least {
            least = count;
            rarest = end - 1;
        }
    }
    rarest
}

fn slot(one: u8, other: u8) -> usize
    ensures { result ≤ 255 }
{
    usize::from(one.wrapping_mul(31).wrapping_add(other))
}
