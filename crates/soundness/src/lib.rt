// Whether a register is sound; `examine` is the one door to a register.
// Every register is taken, whatever its counts and content: fields in range, owners and keepers who
// are humans of the register, paths of the right bytes, distinct ids, and every claim as it should
// be. The claims stand in a sheet that is lent, and are judged one after the other in list order;
// where what a claim names stands is found once for all claims.
#![tactic(auto)]

mod actors;
mod claims;
mod ranges;

ghost use Rattle.std.specs.Prelude.{◌≡◌};
ghost use Rattle.register.specs.Limits.{ranged, path_byte_least, path_byte_greatest};
ghost use Rattle.columns.specs.Sheet.{sheet_with};
ghost use Rattle.soundness_rules.specs.Sound.{sound, resource_fits};
ghost use Rattle.soundness.specs.Judged.{looked_in, findings_by, findings_over};
ghost use Rattle.lists.specs.Lists.{every};
ghost use Rattle.register.specs.Register.{claims_of, path_of};
ghost use Rattle.soundness.specs.World.{resources_alone};

use actors::{actors_fit, keepers_fit};
use claims::{claims_alone, claims_over};
use columns::{ActorColumns, ResourceColumns};
use register::{Actors, Claims, Register, Resource, Resources};

// What was found of a register: whether it is sound, the place of each claim's parent before it, the place of the resource that each claim is
// to, and the columns of the actors and the resources.
#[derive(Clone, Copy)]
pub struct Findings {
    pub sound: bool,
    pub ups: [u16; Register::CLAIMS],
    pub spots: [u16; Register::CLAIMS],
    pub actors: ActorColumns,
    pub resources: ResourceColumns,
}

// What was looked up of claims: whether nothing is against soundness so far, the place of each claim's parent before it, and the place of the
// resource that each claim is to.
#[derive(Clone, Copy)]
struct Looked {
    begun: bool,
    ups: [u16; Register::CLAIMS],
    spots: [u16; Register::CLAIMS],
}

// What is looked up by the ids of the first `m` resources and the first `n` claims of a sheet, where there are `h` actors. Nothing is against soundness
// so far where a sheet is lent, the counts are within their limits, and the ids of the claims and of the resources are distinct.
fn looked_up<'a>(h: usize, reports: &'a [u32], m: usize, sheet: &'a [u32], n: usize) -> Looked
    ensures { result ≡ looked_in h reports.now m sheet.now n }
{
    let ids = columns::column(sheet, columns::IDS);
    let parents = columns::column(sheet, columns::PARENTS);
    let claimed = columns::column(sheet, columns::CLAIMED);
    let earlier = lookup::earlier_places(ids, parents, n);
    let reported = lookup::places_of(reports, m, claimed, n);
    let within = (n <= Register::CLAIMS) & (h <= Register::ACTORS) & (m <= Register::RESOURCES);
    let apart = earlier.distinct & reported.distinct;
    let ups = earlier.places;
    let spots = reported.places;
    Looked {
        begun: within & apart & (sheet.len() == columns::SHEET),
        ups,
        spots,
    }
}

// What is found by the columns of the first `h` actors and the first `m` resources and the first `n` claims of a sheet, where `alone` says whether
// each resource is as it should be by itself, its keeper aside. A slice of another length than a sheet's is not sound.
pub fn examine_columns(
    version: u64,
    actors: ActorColumns,
    h: usize,
    resources: ResourceColumns,
    m: usize,
    alone: bool,
    sheet: &[u32],
    n: usize,
) -> Findings
    ensures { result ≡ findings_over version actors h resources m alone sheet.now n }
{
    let looked = looked_up(h, &resources.reports, m, sheet, n);
    let ups = looked.ups;
    let spots = looked.spots;
    let mut found = Findings {
        sound: false,
        ups,
        spots,
        actors,
        resources,
    };
    let keepers: &[u32] = &resources.keepers;
    if looked.begun {
        found.sound = (Register::VERSION_ONE <= version)
            & (version <= Register::VERSION_TWO)
            & actors_fit(&actors.names, &actors.kinds, &actors.owners, h)
            & alone
            & keepers_fit(&actors.names, &actors.kinds, h, keepers, m)
            & claims_over(version, &looked.ups, sheet, n)
            & claims_alone(version, actors, h, keepers, &looked.spots, sheet, n);
    }
    found
}

// What is found of the register of the version, the actors, the resources and the first `n` claims of a sheet. A slice of another length is
// not sound.
pub fn examine_sheet(version: u64, a: Actors, o: Resources, sheet: &[u32], n: usize) -> Findings
    ensures { result ≡ findings_by version a o sheet.now n }
{
    let actors = columns::actor_columns(a);
    let resources = columns::resource_columns(o);
    let alone = resources_alone(o);
    examine_columns(
        version, actors, a.count, resources, o.count, alone, sheet, n,
    )
}

// Whether the register of the version, the actors, the resources and the first `n` claims of a sheet is sound. A slice of another length is no
// sheet, and not sound.
pub fn sheet_sound(version: u64, a: Actors, o: Resources, sheet: &[u32], n: usize) -> bool
    ensures { result ≡ (findings_by version a o sheet.now n).sound }
{
    let found = examine_sheet(version, a, o, sheet, n);
    found.sound
}

// The one door to a register: puts its claims into a lent sheet, and says what is found of the register by it.
pub fn examine(sheet: &mut [u32], version: u64, a: Actors, o: Resources, k: Claims) -> Findings
    ensures put { sheet.new ≡ sheet_with sheet.old (claims_of k) }
    ensures found { result ≡ findings_by version a o sheet.new k.count }
{
    columns::put_claims(sheet, k);
    examine_sheet(version, a, o, sheet, k.count)
}

// Whether the register is sound.
pub fn is_sound(r: Register) -> bool
    ensures { result ≡ sound r }
{
    let a = r.actors;
    let o = r.resources;
    let k = r.claims;
    let mut sheet = [0u32; columns::SHEET];
    let found = examine(&mut sheet, r.version, a, o, k);
    found.sound
}

// Whether each byte of a resource's path is one that a path may have. Every byte is looked at, without a way out of the loop: so they are
// compared many at a time.
pub fn path_fits(o: Resource) -> bool
    ensures { result ≡ every (ranged path_byte_least path_byte_greatest) (path_of o) }
{
    let top = (o.len as usize).min(Register::PATH);
    let mut fit = true;
    for b in &o.path[..top] {
        fit &= (register::PATH_BYTE_LEAST <= *b) & (*b <= register::PATH_BYTE_GREATEST);
    }
    fit
}

// Whether a resource's fields are as they should be, where it is told whether its keeper is a human.
pub fn resource_fits(kept: bool, o: Resource) -> bool
    ensures { result ≡ resource_fits (λ x. kept) o }
{
    if !register::is_id(o.id) {
        return false;
    }
    if 1 < o.public {
        return false;
    }
    if !register::is_id(o.keeper) {
        return false;
    }
    if Register::PATH < o.len as usize {
        return false;
    }
    if !kept {
        return false;
    }
    path_fits(o)
}

// Whether each resource that stands is as it should be by itself, its keeper aside.
fn resources_alone(o: Resources) -> bool
    ensures { result ≡ resources_alone o }
{
    let top = o.count.min(Register::RESOURCES);
    let mut fit = true;
    for x in &o.list[..top] {
        fit &= resource_fits(true, *x);
    }
    fit
}
