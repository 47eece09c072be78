// How far the path of a claim reaches over a use, and which of the gathered claims is the nearest that covers it.
ghost use Rattle.std.specs.Prelude.{◌≡◌, take};
ghost use Rattle.coverage.specs.Coverage.{reach_to, short_at, reach_from, nearest_covering};

use crate::laying::is_inside;
use register::Register;

// Whether the claim at place `j` has the right, on a resource whose path contains the one at `spot`, and how far it reaches.
fn reach<'a>(
    rights: &'a [u32],
    spots: &'a [u16],
    bytes: &'a [u8],
    lens: &'a [usize],
    j: usize,
    right: u32,
    spot: usize,
) -> Option<usize>
    ensures { result ≡ reach_to rights.now spots.now bytes.now lens.now right spot j }
{
    if !rights::has(columns::number_at(rights, j), right) {
        return None;
    }
    if spots.len() <= j {
        return None;
    }
    if Register::RESOURCES <= spots[j] as usize {
        return None;
    }
    if Register::RESOURCES <= spot {
        return None;
    }
    is_inside(bytes, lens, spots[j] as usize, spot)
}

// Whether the path of the claim at place `j` is shorter than `bar`, as it is written.
fn is_short<'a>(spots: &'a [u16], lens: &'a [usize], j: usize, bar: usize) -> bool
    ensures { result ≡ short_at spots.now lens.now bar j }
{
    if spots.len() <= j {
        return false;
    }
    let spot = spots[j] as usize;
    if lens.len() <= spot {
        return false;
    }
    lens[spot] < bar
}

// As `reach`, with a yes only where it reaches at least `bar`. The right, which most claims lack, is asked first; a path that is shorter even as
// it is written is passed over before any bytes are compared.
fn reach_from<'a>(
    rights: &'a [u32],
    spots: &'a [u16],
    bytes: &'a [u8],
    lens: &'a [usize],
    j: usize,
    right: u32,
    spot: usize,
    bar: usize,
) -> Option<usize>
    ensures { result ≡ reach_from rights.now spots.now bytes.now lens.now right spot bar j }
{
    let held = columns::number_at(rights, j);
    if !rights::has(held, right) {
        return None;
    }
    if is_short(spots, lens, j, bar) {
        return None;
    }
    match reach(rights, spots, bytes, lens, j, right, spot) {
        None => None,
        Some(length) => { if length < bar { None } else { Some(length) } }
    }
}

// Of the gathered places whose claim has the right, on a resource whose path contains the one at `spot`, the one that reaches furthest, the
// first of them on a tie. `bar` is what a further one must reach: 0 while there is none, since a length of 0 comes with a yes too.
pub fn nearest_covering<'a>(
    places: &'a [u16],
    count: usize,
    rights: &'a [u32],
    spots: &'a [u16],
    bytes: &'a [u8],
    lens: &'a [usize],
    right: u32,
    spot: usize,
) -> Option<usize>
    ensures { result ≡ nearest_covering (take count places.now) rights.now spots.now bytes.now lens.now right spot }
{
    let mut best = None;
    let mut bar: usize = 0;
    for place in &places[..count.min(places.len())] {
        let j = *place as usize;
        if let Some(length) = reach_from(rights, spots, bytes, lens, j, right, spot, bar) {
            best = Some(j);
            bar = length + 1;
        }
    }
    best
}
