// Where each of many numbers stands in a column.
// Every column and count is taken; at most the first 256 places are looked at.
#![tactic(auto)]

ghost use Rattle.std.specs.Prelude.{◌≡◌, min, length, take};
ghost use Rattle.lists.specs.Lists.{distinct};
ghost use Rattle.register.specs.Limits.{claim_limit};
ghost use Rattle.columns.specs.Columns.{latest_place};
ghost use Rattle.lookup.specs.Finding.{place_number, places_found, earlier_found, both_places};
ghost use Rattle.lookup.specs.Tables.{bucket_of, Indexing, Sought};

use register::Register;

// The places of a list of numbers, and whether the numbers that they were looked up among are distinct.
#[derive(Clone, Copy)]
pub struct Found {
    pub places: [u16; Register::CLAIMS],
    pub distinct: bool,
}

// The places of two lists of numbers, looked up by one table, and whether the numbers that they were looked up among are distinct.
#[derive(Clone, Copy)]
pub struct Both {
    pub first: [u16; Register::CLAIMS],
    pub second: [u16; Register::CLAIMS],
    pub distinct: bool,
}

// How many buckets a table has.
const BUCKETS: usize = 512;

// The place that says nowhere: it is past them all.
pub const NOWHERE: u16 = Register::CLAIMS as u16;

// The places of a column by buckets, so that few places are looked at for a number. A link is 0 for none, else a place and 1: a
// bucket's head links to its latest place, and each place to the latest before it in its bucket. It tells besides whether the numbers
// are distinct.
#[derive(Clone, Copy)]
struct Table {
    heads: [u16; BUCKETS],
    nexts: [u16; Register::CLAIMS],
    distinct: bool,
}

// The bucket of a number.
fn bucket_of(x: u32) -> usize
    ensures { result ≡ bucket_of x }
{
    x as usize % BUCKETS
}

// The table of the first `n` of a column.
fn tabulate(column: &[u32], n: usize) -> Table
    ensures indexing { Indexing column.now (min n (min claim_limit (length column.now))) result.heads result.nexts }
    ensures distinct { result.distinct ≡ distinct (take (min n claim_limit) column.now) }
{
    let count = n.min(Register::CLAIMS).min(column.len());
    let mut table = Table {
        heads: [0; BUCKETS],
        nexts: [0; Register::CLAIMS],
        distinct: true,
    };
    // Beside the table while it is made: within it, it would be read and written anew each turn.
    let mut distinct = true;
    for i in 0..count {
        let before = table.seek(column, i, column[i]);
        distinct &= before == NOWHERE;
        let bucket = bucket_of(column[i]);
        table.nexts[i] = table.heads[bucket];
        table.heads[bucket] = (i + 1) as u16;
    }
    table.distinct = distinct;
    table
}

impl Table {
    // The latest place below `below` at which a column holds `x`, by a table that has all of these places; `NOWHERE` where there is
    // none.
    fn seek(&self, column: &[u32], below: usize, x: u32) -> u16
        requires { Sought column.now below self.now.heads self.now.nexts }
        ensures { result ≡ place_number claim_limit (latest_place column.now below x) }
    {
        let mut link = self.heads[bucket_of(x)];
        while link != 0 {
            let place = link - 1;
            let at = place as usize;
            if (at < below) & (column[at] == x) {
                return place;
            }
            link = self.nexts[at];
        }
        NOWHERE
    }
}

// The latest place of each of the first `m` wanted numbers among the first `n` of a column; `NOWHERE` where there is
// none, and past them.
pub fn places_of<'a>(column: &'a [u32], n: usize, wanted: &'a [u32], m: usize) -> Found
    ensures { result ≡ places_found column.now n wanted.now m }
{
    let below = n.min(Register::CLAIMS);
    let table = tabulate(column, below);
    let top = m.min(Register::CLAIMS).min(wanted.len());
    let mut found = Found {
        places: [NOWHERE; Register::CLAIMS],
        distinct: table.distinct,
    };
    for i in 0..top {
        found.places[i] = table.seek(column, below, wanted[i]);
    }
    found
}

// The latest place before `i` of the number wanted at `i`, for each of the first `m`; `NOWHERE` where there is none, and
// past them.
pub fn earlier_places<'a>(column: &'a [u32], wanted: &'a [u32], m: usize) -> Found
    ensures { result ≡ earlier_found column.now wanted.now m }
{
    let top = m.min(Register::CLAIMS).min(wanted.len());
    let table = tabulate(column, top);
    let mut found = Found {
        places: [NOWHERE; Register::CLAIMS],
        distinct: table.distinct,
    };
    for i in 0..top {
        found.places[i] = table.seek(column, i, wanted[i]);
    }
    found
}

// `places_of` of two lists of wanted numbers, as many as there are in each.
pub fn both_places<'a>(
    column: &'a [u32],
    n: usize,
    wanted: &'a [u32],
    other: &'a [u32],
    m: usize,
) -> Both
    ensures { result ≡ both_places column.now n wanted.now other.now m }
{
    let below = n.min(Register::CLAIMS);
    let table = tabulate(column, below);
    let top = m.min(Register::CLAIMS).min(wanted.len()).min(other.len());
    let mut places = Both {
        first: [NOWHERE; Register::CLAIMS],
        second: [NOWHERE; Register::CLAIMS],
        distinct: table.distinct,
    };
    for i in 0..top {
        places.first[i] = table.seek(column, below, wanted[i]);
        places.second[i] = table.seek(column, below, other[i]);
    }
    places
}
