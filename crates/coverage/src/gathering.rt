// What stands ready before a use is asked for: the place of a resource, when each claim ends, and the claims that an actor holds
// and that have not ended, gathered once for an action.
ghost use Rattle.std.specs.Prelude.{◌≡◌};
ghost use Rattle.coverage.specs.Gathering.{spot_in, end_under, ends_of, looked_at, gathered_by};

use crate::Gathered;
use register::Register;

// The place of a resource among the first `m`, 64 where it is none of them. Every place is looked at, without a way out of the loop.
pub fn spot(reports: &[u32], m: usize, x: u32) -> usize
    ensures { result ≡ spot_in reports.now m x }
{
    let mut at = Register::RESOURCES;
    for i in 0..m.min(reports.len()) {
        if reports[i] == x {
            at = i;
        }
    }
    at
}

// The end of a claim by its weight, its expiry and the end of what it is drawn from.
fn end_under(weight: u32, expiry: u64, most: u64) -> u64
    ensures { result ≡ end_under weight expiry most }
{
    if weight == 0 {
        return 0;
    }
    if expiry == 0 {
        return most;
    }
    expiry.min(most)
}

// The end of each of the first `n` claims, by their columns and the places of their parents: the first moment at which it is not live. A claim
// has no later end than its parent, whose end is found before it; 2^32 is for never, and 0 stands past the claims.
pub fn ends<'a>(
    weights: &'a [u32],
    expiries: &'a [u32],
    ups: &'a [u16],
    n: usize,
) -> [u64; Register::CLAIMS]
    ensures { result ≡ ends_of weights.now expiries.now ups.now n }
{
    let long = weights.len().min(expiries.len()).min(ups.len());
    let mut found = [0u64; Register::CLAIMS];
    for i in 0..n.min(Register::CLAIMS).min(long) {
        let up = ups[i] as usize;
        let most = if up < i {
            found[up]
        } else {
            register::MOMENT_END
        };
        found[i] = end_under(weights[i], expiries[i] as u64, most);
    }
    found
}

// How many of the first `n` are looked at: as many as there are in each column.
fn looked_at<'a>(holders: &'a [u32], ends: &'a [u64], n: usize) -> usize
    ensures { result ≡ looked_at holders.now ends.now n }
{
    n.min(Register::CLAIMS).min(holders.len()).min(ends.len())
}

// Of the first `n` claims, by their columns, those that `x` holds and that have not ended at the moment.
pub fn gather<'a>(holders: &'a [u32], ends: &'a [u64], n: usize, x: u32, moment: u64) -> Gathered
    ensures { result ≡ gathered_by holders.now ends.now n x moment }
{
    let mut places = [0u16; Register::CLAIMS];
    let mut count: usize = 0;
    for i in 0..looked_at(holders, ends, n) {
        if (holders[i] == x) & (moment < ends[i]) {
            places[count] = i as u16;
            count += 1;
        }
    }
    Gathered { places, count }
}
