// A claim over the claims before it, where it has a parent: drawn from the parent (b), with fewer hands left (d), and no circle along
// the chain (e).
ghost use Rattle.std.specs.Prelude.{◌≡◌, suc, ltb, get_or};
ghost use Rattle.soundness_rules.specs.Sound.{drawn_from};
ghost use Rattle.claim_judging.specs.Over.{hands_at, circles_up, over_at};

use register::{Claim, Register};

// (b): whether a claim is drawn from its parent.
fn drawn_from(p: Claim, c: Claim) -> bool
    ensures { result ≡ drawn_from p c }
{
    if p.holder != c.grantor {
        return false;
    }
    if p.resource != c.resource {
        return false;
    }
    if !rights::has(p.rights, rights::DELEGATE) {
        return false;
    }
    if !rights::has_all(p.rights, c.rights) {
        return false;
    }
    c.weight <= p.weight
}

// The place at a place, 0 past the end.
fn place_at(places: &[u16], at: usize) -> usize
    ensures { result ≡ get_or places.now at 0 }
{
    if at < places.len() {
        places[at] as usize
    } else {
        0
    }
}

// Whether `h` holds the claim at the place `from` or one of those up to `steps` higher, or is the grantor of the last of them. `ups` has
// for each place that of the parent.
pub fn circles_up<'a>(
    ups: &'a [u16],
    grantors: &'a [u32],
    holders: &'a [u32],
    from: usize,
    steps: usize,
    h: u32,
) -> bool
    ensures { result ≡ circles_up ups.now grantors.now holders.now from steps h }
{
    let mut member = from;
    for _step in 0..steps {
        if columns::number_at(holders, member) == h {
            return true;
        }
        member = place_at(ups, member);
    }
    (columns::number_at(holders, member) == h) | (columns::number_at(grantors, member) == h)
}

// (d): whether a claim has fewer hands left than its parent `p`, which has `steps` hops. In version 1 the claim then has at most 16.
pub fn fewer_left(version: u64, steps: usize, p: Claim, c: Claim) -> bool
    ensures { result ≡ ltb (hands_at version (suc steps) c) (hands_at version steps p) }
{
    if version == Register::VERSION_TWO {
        return c.left < p.left;
    }
    steps < Register::HOPS
}

// Whether a claim is drawn from its parent `p` (b), has fewer hands left (d) and closes no circle along the chain (e): the parent stands at
// the place `up` and has `steps` hops, and `ups` has for each place that of the parent.
pub fn stands_over<'a>(
    version: u64,
    ups: &'a [u16],
    grantors: &'a [u32],
    holders: &'a [u32],
    up: usize,
    steps: usize,
    p: Claim,
    c: Claim,
) -> bool
    ensures { result ≡ over_at version ups.now grantors.now holders.now up steps p c }
{
    if !drawn_from(p, c) {
        return false;
    }
    if !fewer_left(version, steps, p, c) {
        return false;
    }
    !circles_up(ups, grantors, holders, up, steps, c.holder)
}
