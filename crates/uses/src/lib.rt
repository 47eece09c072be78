// The uses of an action judged: violations and hop counts.
// By lent columns, in passes over all uses: where each stands, the claim that the actor relies on
// for it and the one that the owner of a machine would, the hop counts, and the violations, which
// are put behind those of a list. What a pass finds stands at the use's place; of a claim it is its
// place, 256 for none. That a use is judged so as 01 says, where the columns are those of a sound
// register, is proved in specs/SightsLaws.
#![tactic(auto)]

ghost use Rattle.std.specs.Prelude.{◌≡◌, take};
ghost use Rattle.violations.specs.Pushed.{pushed_all};
ghost use Rattle.uses.specs.Uses.{open_to, steps_told};
ghost use Rattle.uses.specs.Passes.{uses_by, claim_number, relied_all, hops_at, hops_all, fault_told, faults_all};

use actions::{Action, Violation, Violations};
use register::Register;

// The place of a resource that does not stand.
const NO_SPOT: u16 = Register::RESOURCES as u16;

// The uses of an action as columns: the right of each, and the place of its resource, 64 for none; 0 and 64 past the count.
#[derive(Clone, Copy)]
pub struct Uses {
    pub rights: [u32; Action::USES],
    pub spots: [u16; Action::USES],
    pub count: usize,
}

// The violations with those of the uses, and the hop counts; 0 past the uses.
#[derive(Clone, Copy)]
pub struct UsesJudged {
    pub violations: Violations,
    pub hops: [usize; Action::USES],
}

// The uses of an action, over the ids of the first `m` resources.
pub fn uses_of(reports: &[u32], m: usize, a: Action) -> Uses
    ensures { result ≡ uses_by reports.now m a }
{
    let count = a.used.min(Action::USES);
    let mut uses = Uses {
        rights: [0; Action::USES],
        spots: [NO_SPOT; Action::USES],
        count,
    };
    for i in 0..count {
        let u = a.uses[i];
        let spot = coverage::spot(reports, m, u.resource);
        uses.rights[i] = u.right;
        uses.spots[i] = spot.min(Register::RESOURCES) as u16;
    }
    uses
}

// A place among the claims as a number, 256 for none.
fn claim_number(place: Option<usize>) -> u16
    ensures { result ≡ claim_number place }
{
    match place {
        Some(j) => j.min(Register::CLAIMS) as u16,
        None => lookup::NOWHERE,
    }
}

// The claim relied on for each use: of the first `owns` gathered places, the nearest that covers it.
pub fn relied_on<'a>(
    own: &'a [u16],
    owns: usize,
    rights: &'a [u32],
    spots: &'a [u16],
    bytes: &'a [u8],
    lens: &'a [usize],
    uses: Uses,
) -> [u16; Action::USES]
    ensures { result ≡ relied_all (take owns own.now) rights.now spots.now bytes.now lens.now uses }
{
    let mut relied = [lookup::NOWHERE; Action::USES];
    for i in 0..uses.count.min(Action::USES) {
        let spot = uses.spots[i] as usize;
        let place = coverage::nearest_covering(
            own,
            owns,
            rights,
            spots,
            bytes,
            lens,
            uses.rights[i],
            spot,
        );
        relied[i] = claim_number(place);
    }
    relied
}

// The number that is told of the steps up. In a sound register no chain goes on beyond the limit.
fn steps_told(walked: Option<usize>) -> usize
    ensures { result ≡ steps_told walked }
{
    match walked {
        Some(steps) => steps,
        None => Register::HOPS,
    }
}

// The hop count of the claim at a place, 0 where there is none.
fn hops_at(ups: &[u16], j: usize) -> usize
    ensures { result ≡ hops_at ups.now j }
{
    if j < Register::CLAIMS {
        steps_told(columns::hop_count(ups, j))
    } else {
        0
    }
}

// The hop count of the claim relied on for each of the first `n` uses, 0 where there is none. `ups` has the place of each claim's parent among the
// claims before it: in a sound register that is its place among all.
pub fn hop_counts<'a>(ups: &'a [u16], relied: &'a [u16], n: usize) -> [usize; Action::USES]
    ensures { result ≡ hops_all ups.now relied.now n }
{
    let mut hops = [0usize; Action::USES];
    for i in 0..n.min(Action::USES).min(relied.len()) {
        hops[i] = hops_at(ups, relied[i] as usize);
    }
    hops
}

// Whether the resource at a place is public and the right is READ.
fn is_open(publics: &[u32], spot: usize, right: u32) -> bool
    ensures { result ≡ open_to publics.now spot right }
{
    if right != rights::READ {
        return false;
    }
    columns::number_at(publics, spot) == 1
}

// The violation of the use at a position, which the actor covers or not.
fn fault_told(covered: bool, position: u32) -> Violation
    ensures { result ≡ fault_told covered position }
{
    if covered {
        Violation::OwnerNotCovering(position)
    } else {
        Violation::NotCovered(position)
    }
}

// 4, 5: the violations with one for each use that the actor does not cover, or else the owner of a machine does not. `theirs` are the claims by
// which the owner covers the uses, `owned` whether there is one to ask.
pub fn put_faults<'a>(
    mut vs: Violations,
    relied: &'a [u16],
    theirs: &'a [u16],
    owned: bool,
    publics: &'a [u32],
    uses: Uses,
) -> Violations
    ensures { result ≡ pushed_all vs (faults_all relied.now theirs.now owned publics.now uses) }
{
    let long = relied.len().min(theirs.len());
    for i in 0..uses.count.min(Action::USES).min(long) {
        let freely = is_open(publics, uses.spots[i] as usize, uses.rights[i]);
        let covered = freely | ((relied[i] as usize) < Register::CLAIMS);
        let lacking = owned & !(freely | ((theirs[i] as usize) < Register::CLAIMS));
        if lacking | !covered {
            violations::put(&mut vs, fault_told(covered, i as u32));
        }
    }
    vs
}
