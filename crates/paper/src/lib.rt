// The paper of the plain gate: one walk through the claims fills the tables of two actors.
// The walk goes from first to last. It remarks on each claim its hop count and whether it lives,
// each time by what is remarked on its parent, and fills two tables of what the actor and its owner
// cover: a row for each resource, a cell for each right. A cell is a number: 0 for nothing, 1 for
// public, and from 2 on a claim, by 256 times the length of its resource's trimmed path and the
// claim's place. So a cell below the first number of a length has no claim with a path as long or
// longer.
#![tactic(auto)]

ghost use Rattle.std.specs.Prelude.{◌≡◌, true, false, cond, ◌+◌, ◌<◌, ◌≤◌, ltb, length, get_or};
ghost use Rattle.register.specs.Limits.{resource_limit, claim_limit, hop_limit, path_limit};
ghost use Rattle.register.specs.Register.{path_of};
ghost use Rattle.paths.specs.Containment.{reach_between};
ghost use Rattle.columns.specs.Columns.{latest_place};
ghost use Rattle.paper.specs.Cells.{cell_limit, OpenCells, RowEntered, RowsEntered, ClaimEntered, cell_in};
ghost use Rattle.paper.specs.Paper.{Walkable, Written};

use actions::Usage;
use register::{Claim, Register, Resource, Resources};

// How many cells a table has: one for each of 64 resources and 17 rights.
pub const CELLS: usize = 1088;

// What a cell holds: nothing, public, or a claim, from this number on.
pub const NOTHING: u16 = 0;

pub const PUBLIC: u16 = 1;

pub const CLAIM: usize = 2;

// What is on the paper after the last claim: the hop count of each claim and whether it lives, and the tables of the actor and of its owner.
#[derive(Clone, Copy)]
pub struct Page {
    pub hops: [u16; Register::CLAIMS],
    pub lives: [bool; Register::CLAIMS],
    pub own: [u16; CELLS],
    pub theirs: [u16; CELLS],
}

// A table before the first claim: public at READ of each public resource, else nothing.
fn open_cells(k: Resources) -> [u16; CELLS]
    requires { k.count ≤ resource_limit }
    ensures { OpenCells k result }
{
    let mut cells = [NOTHING; CELLS];
    for row in 0..k.count {
        if k.list[row].public == 1 {
            cells[row * rights::COUNT] = PUBLIC;
        }
    }
    cells
}

// Whether the path of one resource contains that of another, and how far it reaches.
fn reach(outer: Resource, inner: Resource) -> Option<usize>
    ensures { (result ≡ reach_between (path_of outer) (path_of inner)) × (length (path_of outer) ≤ path_limit) }
{
    let long = (outer.len as usize).min(Register::PATH);
    let wide = (inner.len as usize).min(Register::PATH);
    paths::contains(&outer.path[..long], &inner.path[..wide])
}

// Enters a claim in the row of a resource whose path its own contains: at each right that it has, unless a claim with a path as long or longer
// stands there.
fn enter_row(cells: &mut [u16], row: usize, rights: u32, place: usize, far: usize)
    requires { (length cells.old ≡ cell_limit) × (row < resource_limit) × (place < claim_limit) × (far ≤ path_limit) }
    ensures { RowEntered cells.old row rights place far cells.new }
{
    let first = (CLAIM + Register::CLAIMS * far) as u16;
    let mine = (CLAIM + Register::CLAIMS * far + place) as u16;
    for right in 0..rights::COUNT {
        let at = row * rights::COUNT + right;
        if rights::has(rights, right as u32) & (cells[at] < first) {
            cells[at] = mine;
        }
    }
}

// Enters a claim on the resource at `spot` in the row of each resource whose path that one's contains.
fn enter_rows(cells: &mut [u16], k: Resources, spot: usize, rights: u32, place: usize)
    requires { (length cells.old ≡ cell_limit) × (k.count ≤ resource_limit) × (spot < resource_limit) × (place < claim_limit) }
    ensures { RowsEntered cells.old k spot rights place cells.new }
{
    let outer = k.list[spot];
    for row in 0..k.count {
        let inner = k.list[row];
        match reach(outer, inner) {
            None => {}
            Some(far) => enter_row(cells, row, rights, place, far),
        }
    }
}

// Enters the claim at a place. Its resource is looked up in the column of the resources' ids.
fn enter_claim(cells: &mut [u16], reports: &[u32], k: Resources, c: Claim, place: usize)
    requires { (length cells.old ≡ cell_limit) × (k.count ≤ resource_limit) × (length reports.now ≡ resource_limit) × (place < claim_limit) }
    ensures { ClaimEntered cells.old reports.now k c place cells.new }
{
    let claimed = columns::latest_place(reports, k.count, c.resource);
    match claimed {
        Some(spot) => enter_rows(cells, k, spot, c.rights, place),
        None => {}
    }
}

// The hop count of the claim at place `i` whose parent stands at `up`: one more than the parent's; 0 for a root, which has none before it.
fn hops_over(hops: &[u16], i: usize, up: usize) -> u16
    requires { (i ≤ length hops.now) × (get_or hops.now up 0 ≤ hop_limit) }
    ensures { result ≡ cond (ltb up i) (get_or hops.now up 0 + 1) 0 }
{
    if up < i { hops[up] + 1 } else { 0 }
}

// Whether the source of the claim at place `i` lives: the parent at `up` does; a root has none to ask.
fn lives_over(lives: &[bool], i: usize, up: usize) -> bool
    requires { i ≤ length lives.now }
    ensures { result ≡ cond (ltb up i) (get_or lives.now up false) true }
{
    if up < i { lives[up] } else { true }
}

// The walk through the claims of a sound register, which stand in the sheet. `ups` has the place of each claim's parent before it, `reports` the ids
// of the resources. A claim that lives is entered in the table of its holder.
pub fn walk<'a>(
    r: Register,
    sheet: &'a [u32],
    ups: &'a [u16],
    reports: &'a [u32],
    actor: u32,
    owner: u32,
    moment: u64,
) -> Page
    requires { Walkable r sheet.now ups.now reports.now }
    ensures { Written r moment actor owner result }
{
    let o = r.resources;
    let mut own = open_cells(o);
    let mut theirs = own;
    let mut hops = [0u16; Register::CLAIMS];
    let mut lives = [false; Register::CLAIMS];
    for i in 0..r.claims.count {
        let c = columns::claim_at(sheet, i);
        let up = ups[i] as usize;
        hops[i] = hops_over(&hops, i, up);
        let live = c.is_current(moment) & lives_over(&lives, i, up);
        lives[i] = live;
        if live & (c.holder == actor) {
            enter_claim(&mut own, reports, o, c, i);
        } else if live & (c.holder == owner) {
            enter_claim(&mut theirs, reports, o, c, i);
        }
    }
    Page {
        hops,
        lives,
        own,
        theirs,
    }
}

// What stands in the cell of a use: nothing where its resource does not stand, or its right is none.
pub fn cell_in<'a>(cells: &'a [u16], reports: &'a [u32], m: usize, u: Usage) -> u16
    ensures { result ≡ cell_in cells.now u.right (latest_place reports.now m u.resource) }
{
    let used = columns::latest_place(reports, m, u.resource);
    match used {
        Some(row) => {
            if Register::RESOURCES <= row {
                return NOTHING;
            }
            if rights::COUNT <= u.right as usize {
                return NOTHING;
            }
            let at = row * rights::COUNT + u.right as usize;
            if cells.len() <= at {
                return NOTHING;
            }
            cells[at]
        }
        None => NOTHING,
    }
}
