// A register lent as the bytes of its struct, judged.
// Nothing lent is written, and no register is built. What is judged is filled from the bytes: the
// sheet of the claims, the columns of the actors and the resources that stand, and the paths; then
// it is judged as any other. Bytes of another length than a register's are refused with 1. The
// bytes are read one by one, the least of a number first, so they may lie anywhere.
#![tactic(auto)]

ghost use Rattle.std.specs.Prelude.{◌≡◌, ◌+◌, ◌*◌, ◌≤◌, length, take, drop, replicate};
ghost use Rattle.std.proofs.Math.Seq.{paste};
ghost use Rattle.register.specs.Limits.{path_limit};
ghost use Rattle.register.specs.Register.{claims_of};
ghost use Rattle.register_bytes.specs.Bytes.{number_size, wide_size, resource_size, claim_size, register_size, number_in, resource_in, claim_in, register_at, register_in};
ghost use Rattle.columns.specs.Columns.{actors_to, resources_to, actor_columns, resource_columns};
ghost use Rattle.columns.specs.Sheet.{sheet_limit, sheet_with};
ghost use Rattle.soundness_rules.specs.Sound.{sound};
ghost use Rattle.soundness.specs.World.{resources_alone};
ghost use Rattle.soundness.specs.Opened.{Opened};
ghost use Rattle.coverage.specs.Laid.{bytes_limit, laid_in, lens_of};
ghost use Rattle.gate_rules.specs.Gate.{gated};
ghost use Rattle.gate_rules.specs.Plans.{planned};
ghost use Rattle.gate.specs.Judged.{counts_of};

use actions::{Action, Plan, PlanVerdict, Verdict};
use columns::{ActorColumns, ResourceColumns};
use gate::{Counts, LentRegister};
use refusals::Refusal;
use register::{Claim, Register, Resource};
use soundness::Findings;

// How many bytes there are of a number, a wide number, an actor, a resource, a claim.
const NUMBER: usize = 4;

const WIDE: usize = 8;

const ACTOR: usize = 3 * NUMBER;

const RESOURCE: usize = 4 * NUMBER + Register::PATH;

const CLAIM: usize = 8 * NUMBER + WIDE;

// Where the parts of a register stand, and how many bytes it has.
const ACTOR_COUNT_AT: usize = Register::ACTORS * ACTOR;

const RESOURCES_AT: usize = ACTOR_COUNT_AT + WIDE;

const RESOURCE_COUNT_AT: usize = RESOURCES_AT + Register::RESOURCES * RESOURCE;

const CLAIMS_AT: usize = RESOURCE_COUNT_AT + WIDE;

const CLAIM_COUNT_AT: usize = CLAIMS_AT + Register::CLAIMS * CLAIM;

const VERSION_AT: usize = CLAIM_COUNT_AT + WIDE;

const REGISTER: usize = VERSION_AT + WIDE;

// The number at a place.
fn number_at(bytes: &[u8], at: usize) -> u32
    requires { at + number_size ≤ length bytes.now }
    ensures { result ≡ number_in number_size at bytes.now }
{
    u32::from_le_bytes([bytes[at], bytes[at + 1], bytes[at + 2], bytes[at + 3]])
}

// The wide number at a place.
fn wide_at(bytes: &[u8], at: usize) -> u64
    requires { at + wide_size ≤ length bytes.now }
    ensures { result ≡ number_in wide_size at bytes.now }
{
    let low = number_at(bytes, at) as u64;
    let high = number_at(bytes, at + NUMBER) as u64;
    low + 4294967296 * high
}

// The path at a place.
fn path_at(bytes: &[u8], at: usize) -> [u8; Register::PATH]
    requires { at + path_limit ≤ length bytes.now }
    ensures { result ≡ take path_limit (drop at bytes.now) }
{
    let mut path = [0u8; Register::PATH];
    for i in 0..Register::PATH {
        path[i] = bytes[at + i];
    }
    path
}

// The resource at a place.
fn resource_at(bytes: &[u8], at: usize) -> Resource
    requires { at + resource_size ≤ length bytes.now }
    ensures { result ≡ resource_in bytes.now at }
{
    let path = path_at(bytes, at + 4 * NUMBER);
    Resource {
        id: number_at(bytes, at),
        public: number_at(bytes, at + NUMBER),
        keeper: number_at(bytes, at + 2 * NUMBER),
        len: number_at(bytes, at + 3 * NUMBER),
        path,
    }
}

// The claim at a place.
fn claim_at(bytes: &[u8], at: usize) -> Claim
    requires { at + claim_size ≤ length bytes.now }
    ensures { result ≡ claim_in bytes.now at }
{
    Claim {
        id: number_at(bytes, at),
        parent: number_at(bytes, at + NUMBER),
        grantor: number_at(bytes, at + 2 * NUMBER),
        holder: number_at(bytes, at + 3 * NUMBER),
        resource: number_at(bytes, at + 4 * NUMBER),
        rights: number_at(bytes, at + 5 * NUMBER),
        weight: number_at(bytes, at + 6 * NUMBER),
        left: number_at(bytes, at + 7 * NUMBER),
        expiry: wide_at(bytes, at + 8 * NUMBER),
    }
}

// The columns of the actors that stand, 0 behind them, in one pass.
fn actors_in(bytes: &[u8], count: usize) -> ActorColumns
    requires { (length bytes.now ≡ register_size) × (count ≡ (register_at bytes.now).actors.count) }
    ensures { result ≡ actor_columns (actors_to (register_at bytes.now).actors).list }
{
    let mut columns = ActorColumns {
        names: [0; Register::ACTORS],
        kinds: [0; Register::ACTORS],
        owners: [0; Register::ACTORS],
    };
    for i in 0..count.min(Register::ACTORS) {
        let at = i * ACTOR;
        columns.names[i] = number_at(bytes, at);
        columns.kinds[i] = number_at(bytes, at + NUMBER);
        columns.owners[i] = number_at(bytes, at + 2 * NUMBER);
    }
    columns
}

// The columns of the resources that stand, 0 behind them, in one pass.
fn resources_in(bytes: &[u8], count: usize) -> ResourceColumns
    requires { (length bytes.now ≡ register_size) × (count ≡ (register_at bytes.now).resources.count) }
    ensures { result ≡ resource_columns (resources_to (register_at bytes.now).resources).list }
{
    let mut columns = ResourceColumns {
        reports: [0; Register::RESOURCES],
        keepers: [0; Register::RESOURCES],
        publics: [0; Register::RESOURCES],
    };
    for i in 0..count.min(Register::RESOURCES) {
        let at = RESOURCES_AT + i * RESOURCE;
        columns.reports[i] = number_at(bytes, at);
        columns.publics[i] = number_at(bytes, at + NUMBER);
        columns.keepers[i] = number_at(bytes, at + 2 * NUMBER);
    }
    columns
}

// Whether each resource that stands is as it should be by itself, its keeper aside. Every one is looked at, without a way out of the loop.
fn resources_alone(bytes: &[u8], count: usize) -> bool
    requires { (length bytes.now ≡ register_size) × (count ≡ (register_at bytes.now).resources.count) }
    ensures { result ≡ resources_alone (register_at bytes.now).resources }
{
    let mut fit = true;
    for i in 0..count.min(Register::RESOURCES) {
        let o = resource_at(bytes, RESOURCES_AT + i * RESOURCE);
        fit &= soundness::resource_fits(true, o);
    }
    fit
}

// Writes the path that stands at `from` of the lent bytes at `to` of the paths.
fn put_path(paths: &mut [u8], to: usize, bytes: &[u8], from: usize)
    requires { (to + path_limit ≤ length paths.old) × (from + path_limit ≤ length bytes.now) }
    ensures { paths.new ≡ paste paths.old to (take path_limit (drop from bytes.now)) path_limit }
{
    for i in 0..Register::PATH {
        paths[to + i] = bytes[from + i];
    }
}

// Lays the paths of the resources that stand over the buffer of all paths, and answers their lengths, 0 behind them.
fn lay(paths: &mut [u8], bytes: &[u8], count: usize) -> [usize; Register::RESOURCES]
    requires { (length bytes.now ≡ register_size) × (length paths.old ≡ bytes_limit) × (count ≡ (register_at bytes.now).resources.count) }
    ensures laid { paths.new ≡ laid_in paths.old (register_at bytes.now).resources }
    ensures lengths { result ≡ lens_of (register_at bytes.now).resources }
{
    let mut lens = [0usize; Register::RESOURCES];
    for i in 0..count.min(Register::RESOURCES) {
        let at = RESOURCES_AT + i * RESOURCE;
        put_path(paths, i * Register::PATH, bytes, at + 4 * NUMBER);
        lens[i] = number_at(bytes, at + 3 * NUMBER) as usize;
    }
    lens
}

// Puts the claims that stand into a sheet of zeros.
fn put_claims(sheet: &mut [u32], bytes: &[u8], count: usize)
    requires { (length bytes.now ≡ register_size) × (length sheet.old ≡ sheet_limit) × (count ≡ (register_at bytes.now).claims.count) }
    ensures { sheet.new ≡ sheet_with sheet.old (claims_of (register_at bytes.now).claims) }
{
    for i in 0..count.min(Register::CLAIMS) {
        columns::take_apart(sheet, i, claim_at(bytes, CLAIMS_AT + i * CLAIM));
    }
}

// How many actors, resources and claims the register has.
fn counts_in(bytes: &[u8]) -> Counts
    requires { length bytes.now ≡ register_size }
    ensures { result ≡ counts_of (register_at bytes.now) }
{
    Counts {
        actors: wide_at(bytes, ACTOR_COUNT_AT) as usize,
        resources: wide_at(bytes, RESOURCE_COUNT_AT) as usize,
        claims: wide_at(bytes, CLAIM_COUNT_AT) as usize,
    }
}

// Puts the claims that stand into a sheet of zeros, and says what is found of the register by it and by the columns of the actors and the resources.
fn examine(sheet: &mut [u32], bytes: &[u8], counts: Counts) -> Findings
    requires { (length bytes.now ≡ register_size) × (sheet.old ≡ replicate sheet_limit 0) × (counts ≡ counts_of (register_at bytes.now)) }
    ensures { Opened (register_at bytes.now) sheet.new result }
{
    put_claims(sheet, bytes, counts.claims);
    let version = wide_at(bytes, VERSION_AT);
    let actors = actors_in(bytes, counts.actors);
    let resources = resources_in(bytes, counts.resources);
    let alone = resources_alone(bytes, counts.resources);
    soundness::examine_columns(
        version,
        actors,
        counts.actors,
        resources,
        counts.resources,
        alone,
        sheet,
        counts.claims,
    )
}

// Whether the register that the bytes hold is sound.
pub fn is_sound(bytes: &[u8]) -> bool
    ensures { result ≡ sound (register_in bytes.now) }
{
    if bytes.len() != REGISTER {
        return false;
    }
    let counts = counts_in(bytes);
    let mut sheet = [0u32; columns::SHEET];
    let found = examine(&mut sheet, bytes, counts);
    found.sound
}

// The gate by the register that the bytes hold.
pub fn gate(bytes: &[u8], a: Action) -> Verdict
    ensures { result ≡ gated (register_in bytes.now) a }
{
    if bytes.len() != REGISTER {
        return violations::stopped(Refusal::Unsound);
    }
    let counts = counts_in(bytes);
    let mut sheet = [0u32; columns::SHEET];
    let found = examine(&mut sheet, bytes, counts);
    if !found.sound {
        return violations::stopped(Refusal::Unsound);
    }
    let mut paths = [0u8; coverage::BYTES];
    let lens = lay(&mut paths, bytes, counts.resources);
    let ends = gate::claim_ends(&sheet, &found.ups, counts.claims);
    let outcome = gate::action_outcome(&found.actors.names, counts.actors, a);
    match outcome {
        Err(why) => violations::stopped(why),
        Ok(()) => {
            let lent = LentRegister {
                counts,
                found: &found,
                lens: &lens,
                ends: &ends,
                sheet: &sheet,
                bytes: &paths,
            };
            let judged = lent.judge(a);
            violations::decided(judged.violations, judged.hops)
        }
    }
}

// The gate for a plan by the register that the bytes hold.
pub fn plan(bytes: &[u8], p: Plan) -> PlanVerdict
    ensures { result ≡ planned (register_in bytes.now) p }
{
    if bytes.len() != REGISTER {
        return plans::stopped(Refusal::Unsound, 0);
    }
    let counts = counts_in(bytes);
    let mut sheet = [0u32; columns::SHEET];
    let found = examine(&mut sheet, bytes, counts);
    if !found.sound {
        return plans::stopped(Refusal::Unsound, 0);
    }
    if Plan::ACTIONS < p.count {
        return plans::stopped(Refusal::Range, 0);
    }
    let mut paths = [0u8; coverage::BYTES];
    let lens = lay(&mut paths, bytes, counts.resources);
    let ends = gate::claim_ends(&sheet, &found.ups, counts.claims);
    let stop = plans::first_stop(&found.actors.names, counts.actors, p);
    let outcome = stop.outcome;
    match outcome {
        Err(why) => plans::stopped(why, stop.position),
        Ok(()) => {
            let lent = LentRegister {
                counts,
                found: &found,
                lens: &lens,
                ends: &ends,
                sheet: &sheet,
                bytes: &paths,
            };
            plans::judge_all(lent, p)
        }
    }
}
