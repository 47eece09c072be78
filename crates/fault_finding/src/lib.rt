// The first fault of a register told, and of a text that is to be one.
// The register is examined as a whole first: a sound one costs no more. Then its version and counts,
// its actors and its resources are looked at one by one. The first broken claim is found by halving
// how many claims are judged, and told by the tests that a grant of it would be asked.
#![tactic(auto)]

ghost use Rattle.std.specs.Prelude.{◌≡◌, true, false, [], suc, ◌≤◌, ◌<◌, length, take};
ghost use Rattle.register.specs.Limits.{claim_limit};
ghost use Rattle.register.specs.Register.{actors_of, resources_of};
ghost use Rattle.register.specs.Chain.{latest};
ghost use Rattle.columns.specs.Sheet.{sheet_limit, claim_at, claims_in};
ghost use Rattle.soundness_rules.specs.Sound.{sound, world_of, human};
ghost use Rattle.soundness.specs.Judged.{register_by};
ghost use Rattle.refusals.specs.Refusals.{outcome_of, number_of};
ghost use Rattle.faults.specs.Faults.{told_fault, fault_numbers, no_fault, fault_from, of_actor, of_resource, broken_in, actor_tests, resource_tests, claim_tests, fault_of};
ghost use Rattle.faults.specs.Unread.{why_unread};
ghost use Rattle.fault_finding.specs.Asked.{three_tests, actor_asked, resource_asked, higher_asked, limits_fault, Turning};

use faults::Fault;
use refusals::Refusal;
use register::{Actor, Actors, Claim, Register, Resource, Resources};

// Nothing is broken.
fn no_fault() -> Fault
    ensures { result ≡ fault_numbers no_fault }
{
    Fault {
        sound: 1,
        why: 0,
        list: 0,
        id: 0,
        place: 0,
        line: 0,
    }
}

// A fault, by its refusal, the list, the place and the id of the record.
fn told(why: Refusal, list: u32, place: usize, id: u32) -> Fault
    ensures { result ≡ told_fault why list place id }
{
    Fault {
        sound: 0,
        why: refusals::number(why),
        list,
        id,
        place,
        line: 0,
    }
}

// The fault of the version and of the counts.
fn limits_fault(version: u64, h: usize, m: usize, n: usize) -> Fault
    ensures { result ≡ fault_numbers (limits_fault version h m n) }
{
    if version < Register::VERSION_ONE || Register::VERSION_TWO < version {
        return told(Refusal::Range, 0, 0, 0);
    }
    if Register::ACTORS < h {
        return told(Refusal::Range, Fault::ACTORS, Register::ACTORS, 0);
    }
    if Register::RESOURCES < m {
        return told(Refusal::Range, Fault::RESOURCES, Register::RESOURCES, 0);
    }
    if Register::CLAIMS < n {
        return told(Refusal::Range, Fault::CLAIMS, Register::CLAIMS, 0);
    }
    no_fault()
}

// The outcome of a record's tests, which are three: its fields, who it names, and its id.
fn record_outcome(fit: bool, named: bool, other: Refusal, taken: bool) -> Result<(), Refusal>
    ensures { result ≡ outcome_of (three_tests fit named other taken) }
{
    if !fit {
        return Err(Refusal::Range);
    }
    if !named {
        return Err(other);
    }
    if taken {
        return Err(Refusal::Doubled);
    }
    Ok(())
}

// The outcome of an actor's tests: `owned` says whether its owner is a human of the register, `taken` whether an earlier actor has its id.
fn actor_outcome(owned: bool, taken: bool, a: Actor) -> Result<(), Refusal>
    ensures { result ≡ outcome_of (actor_asked owned taken a) }
{
    let machine = a.kind == Actor::MACHINE;
    let kind = (a.kind == Actor::HUMAN) | machine;
    let fit = register::is_id(a.id) & (kind & (a.owner <= register::ID_LIMIT));
    record_outcome(
        fit,
        (a.owner == 0) | (machine & owned),
        Refusal::BadOwner,
        taken,
    )
}

// The outcome of a resource's tests: `kept` says whether its keeper is a human of the register, `taken` whether an earlier resource has its id.
fn resource_outcome(kept: bool, taken: bool, o: Resource) -> Result<(), Refusal>
    ensures { result ≡ outcome_of (resource_asked kept taken o) }
{
    let room = (o.public <= 1) & (register::is_id(o.keeper) & (o.len as usize <= Register::PATH));
    let fit = register::is_id(o.id) & (room & soundness::path_fits(o));
    record_outcome(fit, kept, Refusal::BadKeeper, taken)
}

// The fault of the first broken actor.
fn actors_fault(a: Actors) -> Fault
    ensures { result ≡ fault_numbers (fault_from of_actor (broken_in (actor_tests (human (actors_of a))) 0 [] (actors_of a)) no_fault) }
{
    let columns = columns::actor_columns(a);
    let top = a.count.min(Register::ACTORS);
    for i in 0..top {
        let x = a.list[i];
        let owned = columns::is_beside(
            &columns.names,
            &columns.kinds,
            a.count,
            x.owner,
            Actor::HUMAN,
        );
        let taken = columns::is_among(&columns.names, i, x.id);
        if let Err(why) = actor_outcome(owned, taken, x) {
            return told(why, Fault::ACTORS, i, x.id);
        }
    }
    no_fault()
}

// The fault of the first broken resource.
fn resources_fault(a: Actors, o: Resources) -> Fault
    ensures { result ≡ fault_numbers (fault_from of_resource (broken_in (resource_tests (human (actors_of a))) 0 [] (resources_of o)) no_fault) }
{
    let people = columns::actor_columns(a);
    let columns = columns::resource_columns(o);
    let top = o.count.min(Register::RESOURCES);
    for i in 0..top {
        let x = o.list[i];
        let kept = columns::is_beside(
            &people.names,
            &people.kinds,
            a.count,
            x.keeper,
            Actor::HUMAN,
        );
        let taken = columns::is_among(&columns.reports, i, x.id);
        if let Err(why) = resource_outcome(kept, taken, x) {
            return told(why, Fault::RESOURCES, i, x.id);
        }
    }
    no_fault()
}

// Tests 9, 10 and 12 to 16 of a claim, over the claims of a sheet and the places of their parents, where its parent stands at the place; a root
// passes. All above it are taken as live.
fn higher_outcome<'a>(
    version: u64,
    sheet: &'a [u32],
    ups: &'a [u16],
    place: Option<usize>,
    c: Claim,
) -> Result<(), Refusal>
    ensures { result ≡ outcome_of (higher_asked version sheet.now ups.now place c) }
{
    if c.parent == 0 {
        return Ok(());
    }
    match place {
        None => Err(Refusal::NoParent),
        Some(at) => {
            let p = columns::claim_at(sheet, at);
            let drawn = granting::drawn_outcome(p, c, true);
            let grantors = columns::column(sheet, columns::GRANTORS);
            let holders = columns::column(sheet, columns::HOLDERS);
            let chained = granting::chain_outcome(version, ups, grantors, holders, at, p, c);
            granting::then(drawn, chained)
        }
    }
}

// The outcome of the tests of the claim behind the first `n` of a sheet, with which the register is sound.
fn claim_outcome(
    version: u64,
    a: Actors,
    o: Resources,
    sheet: &[u32],
    n: usize,
) -> Result<(), Refusal>
    requires { (length sheet.now ≡ sheet_limit) × (sound (register_by version a o sheet.now n) ≡ true) }
    ensures { result ≡ outcome_of (claim_tests (world_of version (actors_of a) (resources_of o)) (latest (take n (claims_in sheet.now))) (claim_at sheet.now n)) }
{
    let c = columns::claim_at(sheet, n);
    if !claim_judging::claim_fits(version, c) {
        return Err(Refusal::Range);
    }
    let found = soundness::examine_sheet(version, a, o, sheet, n);
    let ids = columns::column(sheet, columns::IDS);
    let stands = columns::is_among(ids, n, c.id);
    let place = columns::latest_place(ids, n, c.parent);
    let world = granting::world_outcome(
        &found.actors,
        a.count,
        &found.resources,
        o.count,
        stands,
        0,
        c,
    );
    let higher = higher_outcome(version, sheet, &found.ups, place, c);
    granting::then(world, higher)
}

// How many of the first `n` claims of a sheet stand before the first broken one, by halving: the register is sound with `low` of them, and not with
// `high`.
fn sound_before(version: u64, a: Actors, o: Resources, sheet: &[u32], n: usize) -> usize
    requires { Turning version a o sheet.now 0 n }
    ensures { Turning version a o sheet.now result (suc result) × (result < n) }
{
    let mut low: usize = 0;
    let mut high = n;
    while 1 < high - low {
        let mid = low + (high - low) / 2;
        if soundness::sheet_sound(version, a, o, sheet, mid) {
            low = mid;
        } else {
            high = mid;
        }
    }
    low
}

// The fault of the first broken claim of a sheet, where the register is sound without claims and not with `n`.
fn claims_fault(version: u64, a: Actors, o: Resources, sheet: &[u32], n: usize) -> Fault
    requires { Turning version a o sheet.now 0 n × (n ≤ claim_limit) }
    ensures { result ≡ fault_of (register_by version a o sheet.now n) }
{
    let at = sound_before(version, a, o, sheet, n);
    let c = columns::claim_at(sheet, at);
    match claim_outcome(version, a, o, sheet, at) {
        Err(why) => told(why, Fault::CLAIMS, at, c.id),
        // Never: with the claim at this place the register is not sound.
        Ok(()) => no_fault(),
    }
}

// The first fault of a register.
pub fn why_unsound(r: Register) -> Fault
    ensures { result ≡ fault_of r }
{
    let mut sheet = [0u32; columns::SHEET];
    let found = soundness::examine(&mut sheet, r.version, r.actors, r.resources, r.claims);
    if found.sound {
        return no_fault();
    }
    let limits = limits_fault(r.version, r.actors.count, r.resources.count, r.claims.count);
    if limits.sound == 0 {
        return limits;
    }
    let actors = actors_fault(r.actors);
    if actors.sound == 0 {
        return actors;
    }
    let resources = resources_fault(r.actors, r.resources);
    if resources.sound == 0 {
        return resources;
    }
    claims_fault(r.version, r.actors, r.resources, &sheet, r.claims.count)
}

// The fault of a text whose line of that number fails.
fn failed(why: Refusal, line: usize) -> Fault
    ensures { result ≡ record { sound = 0; why = number_of why; list = 0; id = 0; place = 0; line = line } }
{
    Fault {
        sound: 0,
        why: refusals::number(why),
        line,
        ..no_fault()
    }
}

// The first fault of a text that is to be a register: its first failing line, or else the first fault of the register that its lines say.
pub fn why_unread(text: &[u8]) -> Fault
    ensures { result ≡ why_unread text.now }
{
    let form = register_reading::read_form(text);
    if !lines::goes_on(text, form.cursor) {
        return failed(form.cursor.refusal, form.cursor.line);
    }
    why_unsound(form.register)
}
