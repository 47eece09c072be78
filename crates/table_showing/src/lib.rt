// The cover table of an actor shown as numbers: what stands on the paper.
// Tests 1, 2 and 3 come first. Then of each claim its hop count, and whether it lives or why not;
// and for the actor and its owner, each resource and right, the place of the claim that speaks.
#![tactic(auto)]

ghost use Rattle.std.specs.Prelude.{◌≡◌, Bool, true, false, cond, ◌*◌, ◌≤◌, eqb, length, get_or};
ghost use Rattle.lists.specs.Fills.{filled_by};
ghost use Rattle.rights.specs.Rights.{right_count};
ghost use Rattle.register.specs.Limits.{resource_limit, claim_limit};
ghost use Rattle.register.specs.Register.{no_claim};
ghost use Rattle.refusals.specs.Refusals.{outcome_of};
ghost use Rattle.paper.specs.Cells.{cell_limit};
ghost use Rattle.paper.specs.Paper.{Walkable};
ghost use Rattle.table_showing.specs.Shown.{nothing_number, state_number, owner_shown, table_held, table_none, table_shown};
ghost use Rattle.table_showing.specs.Columns.{cell_number, owners_in, tests_by};

use paper::CELLS;
use refusals::Refusal;
use register::{Actor, Actors, Claim, Claims, Register};
use soundness::Findings;

// What is said of a claim: it lives; or the first of these that holds: it has no weight, it has expired, its source is dead.
pub const LIVE: u32 = 1;

pub const WEIGHTLESS: u32 = 2;

pub const EXPIRED: u32 = 3;

pub const SOURCE_DEAD: u32 = 4;

// What stands in a cell besides the place of a claim: public, nothing.
pub const PUBLIC: u32 = 256;

pub const NOTHING: u32 = 257;

// What is shown of a register for an actor and a moment: the owner that is asked, 0 for none; of each claim its hop count and its state, 0 past the
// claims; and the cells of the actor and of its owner, seventeen to a resource, with nothing past the resources and where there is no owner.
#[derive(Clone, Copy)]
pub struct TableShown {
    pub outcome: Result<(), Refusal>,
    pub owner: u32,
    pub hops: [u32; Register::CLAIMS],
    pub states: [u32; Register::CLAIMS],
    pub own: [u32; CELLS],
    pub owners: [u32; CELLS],
}

// Tests 1, 2 and 3: the register is sound, the actor and the moment are in range, and the actor stands, by the ids of the first `n` actors.
fn table_outcome(
    sound: bool,
    names: &[u32],
    n: usize,
    actor: u32,
    moment: u64,
) -> Result<(), Refusal>
    ensures { result ≡ outcome_of (tests_by sound names.now n actor moment) }
{
    if !sound {
        return Err(Refusal::Unsound);
    }
    if register::ID_LIMIT < actor {
        return Err(Refusal::Range);
    }
    if register::MOMENT_END <= moment {
        return Err(Refusal::Range);
    }
    if !columns::is_among(names, n, actor) {
        return Err(Refusal::Absent);
    }
    Ok(())
}

// The owner of the machine numbered `x`, 0 where it has none or is no machine of these.
fn owner_asked(k: Actors, x: u32) -> u32
    ensures { result ≡ owner_shown (owners_in k x) }
{
    let top = k.count.min(Register::ACTORS);
    for a in &k.list[..top] {
        if (x == a.id) & ((Actor::MACHINE == a.kind) & (a.owner != 0)) {
            return a.owner;
        }
    }
    0
}

// The state of a claim whose remark says whether it lives.
fn state(c: Claim, lives: bool, moment: u64) -> u32
    ensures { result ≡ state_number moment c lives }
{
    if c.weight == 0 {
        return WEIGHTLESS;
    }
    if !c.is_current(moment) {
        return EXPIRED;
    }
    if lives { LIVE } else { SOURCE_DEAD }
}

// The states of the claims, 0 past them.
fn states(k: Claims, lives: &[bool], moment: u64) -> [u32; Register::CLAIMS]
    requires { (k.count ≤ claim_limit) × (length lives.now ≡ claim_limit) }
    ensures { result ≡ filled_by claim_limit (λ j. state_number moment (get_or k.list j no_claim) (get_or lives.now j false)) k.count 0 }
{
    let mut shown = [0u32; Register::CLAIMS];
    for i in 0..k.count {
        let c = k.list[i];
        shown[i] = state(c, lives[i], moment);
    }
    shown
}

// The hop counts of the first `n` claims, 0 past them.
fn hop_counts(hops: &[u16], n: usize) -> [u32; Register::CLAIMS]
    requires { (n ≤ claim_limit) × (length hops.now ≡ claim_limit) }
    ensures { result ≡ filled_by claim_limit (λ j. get_or hops.now j 0) n 0 }
{
    let mut shown = [0u32; Register::CLAIMS];
    for i in 0..n {
        shown[i] = u32::from(hops[i]);
    }
    shown
}

// What a cell of the paper holds, as it is shown.
fn cell_number(cell: u16) -> u32
    ensures { result ≡ cell_number cell }
{
    if cell == paper::NOTHING {
        return NOTHING;
    }
    if cell == paper::PUBLIC {
        return PUBLIC;
    }
    (u32::from(cell) - 2) % 256
}

// The cells of the first `n` resources, with nothing past them.
fn cells_shown(cells: &[u16], n: usize) -> [u32; CELLS]
    requires { (n ≤ resource_limit) × (length cells.now ≡ cell_limit) }
    ensures { result ≡ filled_by cell_limit (λ k. cell_number (get_or cells.now k 0)) (n * right_count) nothing_number }
{
    let top = n * rights::COUNT;
    let mut shown = [NOTHING; CELLS];
    for i in 0..top {
        shown[i] = cell_number(cells[i]);
    }
    shown
}

// How many rows are shown of the owner: none where there is no owner.
fn rows_asked(owner: u32, n: usize) -> usize
    ensures { result ≡ cond (eqb owner 0) 0 n }
{
    if owner == 0 { 0 } else { n }
}

// The table of an actor of a sound register.
fn show(r: Register, sheet: &[u32], found: Findings, actor: u32, moment: u64) -> TableShown
    requires { Walkable r sheet.now found.ups found.resources.reports }
    ensures { result ≡ table_held r actor moment }
{
    let k = r.claims;
    let actors = r.actors;
    let owner = owner_asked(actors, actor);
    let page = paper::walk(
        r,
        sheet,
        &found.ups,
        &found.resources.reports,
        actor,
        owner,
        moment,
    );
    let hops = hop_counts(&page.hops, r.claims.count);
    let states = states(k, &page.lives, moment);
    let own = cells_shown(&page.own, r.resources.count);
    let rows = rows_asked(owner, r.resources.count);
    let owners = cells_shown(&page.theirs, rows);
    TableShown {
        outcome: Ok(()),
        owner,
        hops,
        states,
        own,
        owners,
    }
}

// What is shown where a test is not passed: nothing.
fn refused(outcome: Result<(), Refusal>) -> TableShown
    ensures { result ≡ table_none outcome }
{
    TableShown {
        outcome,
        owner: 0,
        hops: [0; Register::CLAIMS],
        states: [0; Register::CLAIMS],
        own: [NOTHING; CELLS],
        owners: [NOTHING; CELLS],
    }
}

// The cover table of an actor at a moment.
pub fn cover_table(r: Register, actor: u32, moment: u64) -> TableShown
    ensures { result ≡ table_shown r actor moment }
{
    let mut sheet = [0u32; columns::SHEET];
    let found = soundness::examine(&mut sheet, r.version, r.actors, r.resources, r.claims);
    let outcome = table_outcome(
        found.sound,
        &found.actors.names,
        r.actors.count,
        actor,
        moment,
    );
    match outcome {
        Err(why) => refused(Err(why)),
        Ok(()) => show(r, &sheet, found, actor, moment),
    }
}
