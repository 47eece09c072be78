// The actors by their columns: each by itself, and whether keepers are humans among them.
ghost use Rattle.std.specs.Prelude.{◌≡◌};
ghost use Rattle.soundness_rules.specs.Sound.{actor_fits};
ghost use Rattle.soundness.specs.World.{human_in, actors_fit, human_id, human_ids, keepers_fit};

use register::{Actor, Register};

// Whether an actor's fields are as they should be among the first `n` actors.
fn actor_fits<'a>(names: &'a [u32], kinds: &'a [u32], n: usize, a: Actor) -> bool
    ensures { result ≡ actor_fits (human_in names.now kinds.now n) a }
{
    if !register::is_id(a.id) {
        return false;
    }
    if a.owner == 0 {
        if a.kind == Actor::HUMAN {
            return true;
        }
        return a.kind == Actor::MACHINE;
    }
    if register::ID_LIMIT < a.owner {
        return false;
    }
    if a.kind != Actor::MACHINE {
        return false;
    }
    columns::is_beside(names, kinds, n, a.owner, Actor::HUMAN)
}

// Whether each of the first `n` actors is as it should be by itself, by their columns.
pub(crate) fn actors_fit<'a>(
    names: &'a [u32],
    kinds: &'a [u32],
    owners: &'a [u32],
    n: usize,
) -> bool
    ensures { result ≡ actors_fit names.now kinds.now owners.now n }
{
    let top = n.min(names.len()).min(kinds.len()).min(owners.len());
    for i in 0..top {
        let a = Actor {
            id: names[i],
            kind: kinds[i],
            owner: owners[i],
        };
        if !actor_fits(names, kinds, n, a) {
            return false;
        }
    }
    true
}

// A human's id; 0 for any other actor.
fn human_id(id: u32, kind: u32) -> u32
    ensures { result ≡ human_id id kind }
{
    if kind != Actor::HUMAN {
        return 0;
    }
    id
}

// The ids of the humans among the first `n` actors, each at its place; 0 at the place of any other, and past them.
fn human_ids<'a>(names: &'a [u32], kinds: &'a [u32], n: usize) -> [u32; Register::ACTORS]
    ensures { result ≡ human_ids names.now kinds.now n }
{
    let top = n.min(Register::ACTORS).min(names.len()).min(kinds.len());
    let mut humans = [0; Register::ACTORS];
    for i in 0..top {
        humans[i] = human_id(names[i], kinds[i]);
    }
    humans
}

// Whether each of the first `m` keepers is a human among the first `n` actors, by their columns: they are looked up at once among the ids of
// the humans.
pub(crate) fn keepers_fit<'a>(
    names: &'a [u32],
    kinds: &'a [u32],
    n: usize,
    keepers: &'a [u32],
    m: usize,
) -> bool
    ensures { result ≡ keepers_fit (human_ids names.now kinds.now n) n keepers.now m }
{
    let humans = human_ids(names, kinds, n);
    let top = m.min(Register::RESOURCES);
    let keeping = lookup::places_of(&humans, n, keepers, top);
    let mut fit = true;
    for place in &keeping.places[..top] {
        fit &= (*place as usize) < Register::CLAIMS;
    }
    fit
}
