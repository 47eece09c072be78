// The register's numbers as columns, the claims' in one lent sheet.
// Judgements over many claims look at columns that are lent to them, and copy nothing. Every call
// answers for every column and count: past the end of a column there is nothing, and a number is 0.
#![tactic(auto)]

ghost use Rattle.std.specs.Prelude.{◌≡◌, ◌<◌, min, eqb, length, get_or, take};
ghost use Rattle.lists.specs.Lists.{any};
ghost use Rattle.register.specs.Limits.{claim_limit};
ghost use Rattle.register.specs.Register.{claims_of};
ghost use Rattle.columns.specs.Columns.{latest_place, steps_up, beside, actors_to, resources_to, actor_columns, resource_columns, places_up};
ghost use Rattle.columns.specs.Sheet.{sheet_limit, column_of, claim_at, claim_put, taken_apart, sheet_with};

use register::{Actors, Claim, Claims, Register, Resources};

// A sheet of claims: ten columns one behind the other, each with a number for every place that a claim may stand at.
pub const SHEET: usize = 2560;

// The columns of a sheet. An expiry is kept as what it is past the last whole run of moments, and how many such runs there are: none where it is in
// range.
pub const IDS: usize = 0;

pub const PARENTS: usize = 1;

pub const GRANTORS: usize = 2;

pub const HOLDERS: usize = 3;

pub const CLAIMED: usize = 4;

pub const RIGHTS: usize = 5;

pub const WEIGHTS: usize = 6;

pub const EXPIRIES: usize = 7;

pub const LATE: usize = 8;

pub const LEFT: usize = 9;

// The columns of the actors: their ids are the names that claims and actions know them by.
#[derive(Clone, Copy)]
pub struct ActorColumns {
    pub names: [u32; Register::ACTORS],
    pub kinds: [u32; Register::ACTORS],
    pub owners: [u32; Register::ACTORS],
}

// The columns of the resources: their ids are the reports.
#[derive(Clone, Copy)]
pub struct ResourceColumns {
    pub reports: [u32; Register::RESOURCES],
    pub keepers: [u32; Register::RESOURCES],
    pub publics: [u32; Register::RESOURCES],
}

// The actors' columns up to the count, 0 behind it, in one pass.
pub fn actor_columns(k: Actors) -> ActorColumns
    ensures { result ≡ actor_columns (actors_to k).list }
{
    let top = k.count.min(Register::ACTORS);
    let mut columns = ActorColumns {
        names: [0; Register::ACTORS],
        kinds: [0; Register::ACTORS],
        owners: [0; Register::ACTORS],
    };
    for i in 0..top {
        columns.names[i] = k.list[i].id;
        columns.kinds[i] = k.list[i].kind;
        columns.owners[i] = k.list[i].owner;
    }
    columns
}

// The resources' columns up to the count, 0 behind it, in one pass.
pub fn resource_columns(k: Resources) -> ResourceColumns
    ensures { result ≡ resource_columns (resources_to k).list }
{
    let top = k.count.min(Register::RESOURCES);
    let mut columns = ResourceColumns {
        reports: [0; Register::RESOURCES],
        keepers: [0; Register::RESOURCES],
        publics: [0; Register::RESOURCES],
    };
    for i in 0..top {
        columns.reports[i] = k.list[i].id;
        columns.keepers[i] = k.list[i].keeper;
        columns.publics[i] = k.list[i].public;
    }
    columns
}

// Puts a claim's numbers into their columns at place `i`.
fn put_claim(sheet: &mut [u32], i: usize, c: Claim)
    requires { (i < claim_limit) × (length sheet.old ≡ sheet_limit) }
    ensures { sheet.new ≡ claim_put sheet.old i c }
{
    sheet[IDS * Register::CLAIMS + i] = c.id;
    sheet[PARENTS * Register::CLAIMS + i] = c.parent;
    sheet[GRANTORS * Register::CLAIMS + i] = c.grantor;
    sheet[HOLDERS * Register::CLAIMS + i] = c.holder;
    sheet[CLAIMED * Register::CLAIMS + i] = c.resource;
    sheet[RIGHTS * Register::CLAIMS + i] = c.rights;
    sheet[WEIGHTS * Register::CLAIMS + i] = c.weight;
    sheet[EXPIRIES * Register::CLAIMS + i] = (c.expiry % register::MOMENT_END) as u32;
    sheet[LATE * Register::CLAIMS + i] = (c.expiry / register::MOMENT_END) as u32;
    sheet[LEFT * Register::CLAIMS + i] = c.left;
}

// Takes a claim apart into its numbers, at a place of a sheet. A slice of another length stays unchanged, and so does a sheet without that place.
pub fn take_apart(sheet: &mut [u32], at: usize, c: Claim)
    ensures { sheet.new ≡ taken_apart sheet.old at c }
{
    if sheet.len() == SHEET {
        if at < Register::CLAIMS {
            put_claim(sheet, at, c);
        }
    }
}

// Puts the claims that stand into a sheet, from its first place on. What is no sheet is left as it is.
pub fn put_claims(sheet: &mut [u32], k: Claims)
    ensures { sheet.new ≡ sheet_with sheet.old (claims_of k) }
{
    if sheet.len() == SHEET {
        let top = k.count.min(Register::CLAIMS);
        for i in 0..top {
            put_claim(sheet, i, k.list[i]);
        }
    }
}

// A column of a sheet: none where the sheet is too short, or has no such column.
pub fn column<'a>(sheet: &'a [u32], which: usize) -> &'a [u32]
    ensures { result.now ≡ column_of which sheet.now }
{
    if sheet.len() < SHEET {
        return &sheet[..0];
    }
    if LEFT < which {
        return &sheet[..0];
    }
    let start = which * Register::CLAIMS;
    let end = start + Register::CLAIMS;
    &sheet[start..end]
}

// The claim at a place of a sheet, all zeros past its end.
pub fn claim_at(sheet: &[u32], i: usize) -> Claim
    ensures { result ≡ claim_at sheet.now i }
{
    if sheet.len() < SHEET {
        return Claim::none();
    }
    if Register::CLAIMS <= i {
        return Claim::none();
    }
    let low = sheet[EXPIRIES * Register::CLAIMS + i] as u64;
    let late = sheet[LATE * Register::CLAIMS + i] as u64;
    Claim {
        id: sheet[IDS * Register::CLAIMS + i],
        parent: sheet[PARENTS * Register::CLAIMS + i],
        grantor: sheet[GRANTORS * Register::CLAIMS + i],
        holder: sheet[HOLDERS * Register::CLAIMS + i],
        resource: sheet[CLAIMED * Register::CLAIMS + i],
        rights: sheet[RIGHTS * Register::CLAIMS + i],
        weight: sheet[WEIGHTS * Register::CLAIMS + i],
        left: sheet[LEFT * Register::CLAIMS + i],
        expiry: low + register::MOMENT_END * late,
    }
}

// The number at a place of a column, 0 past its end.
pub fn number_at(column: &[u32], at: usize) -> u32
    ensures { result ≡ get_or column.now at 0 }
{
    if at < column.len() { column[at] } else { 0 }
}

// Whether `x` stands among the first `n` of a column.
pub fn is_among(column: &[u32], n: usize, x: u32) -> bool
    ensures { result ≡ any (eqb x) (take n column.now) }
{
    let top = n.min(column.len());
    let mut hit = false;
    for y in &column[..top] {
        hit |= x == *y;
    }
    hit
}

// Whether, among the first `n` of two columns, a place holds `x` in the one and `y` in the other.
pub fn is_beside<'a>(column: &'a [u32], other: &'a [u32], n: usize, x: u32, y: u32) -> bool
    ensures { result ≡ beside (take n column.now) (take n other.now) x y }
{
    let top = n.min(column.len()).min(other.len());
    let mut hit = false;
    for i in 0..top {
        hit |= (x == column[i]) & (y == other[i]);
    }
    hit
}

// The latest place below `n` at which a column holds `x`.
pub fn latest_place(column: &[u32], n: usize, x: u32) -> Option<usize>
    ensures { result ≡ latest_place column.now n x }
{
    for i in (0..n.min(column.len())).rev() {
        if column[i] == x {
            return Some(i);
        }
    }
    None
}

// The place that is kept for a place, the place itself past the end.
pub fn place_above(ups: &[u16], at: usize) -> usize
    ensures { result ≡ get_or ups.now at at }
{
    if at < ups.len() { ups[at] as usize } else { at }
}

// The number of steps up to the root of the chain of the claim at the place `from`, by the places of the parents; none where the root is not
// within 16 steps. A parent's place is an earlier one; any other number says that there is none.
pub fn hop_count(ups: &[u16], from: usize) -> Option<usize>
    ensures { result ≡ steps_up (places_up ups.now from) }
{
    let mut at = from;
    let mut up = place_above(ups, from);
    for steps in 0..Register::HOPS {
        if at <= up {
            return Some(steps);
        }
        at = up;
        up = place_above(ups, at);
    }
    if at <= up {
        return Some(Register::HOPS);
    }
    None
}
