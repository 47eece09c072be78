// The three withdrawals: revocation, clearing a report, clearing old claims.
// Revocation: tests 1, 3, 17 and 18; the claim and every claim with it on its chain go. Clearing a
// resource by its keeper: tests 1, 3 for the caller, 3 for the resource and 18; the claims on it
// go. Clearing old claims by any human: tests 1, 2 for the moment, 3 for the caller and 18; those
// that have expired at the moment go, with all that is drawn from them. Accepted, the rest keep
// their order, every place behind them holds the zero claim, and the answer says how many went,
// which of a clearing may be none; refused, the claims are handed back as they came. Marking and
// striking are shared by the three.
#![tactic(auto)]

ghost use Rattle.std.specs.Prelude.{◌≡◌, ℕ, ◌<◌, Bool, false, eqb, get_or, ◌∷◌};
ghost use Rattle.lists.specs.Lists.{any};
ghost use Rattle.refusals.specs.Refusals.{outcome_of};
ghost use Rattle.change_rules.specs.Changes.{revoke, withdrawn, clear_resource, clear_expired};
ghost use Rattle.withdrawing.specs.Struck.{struck_claims, asked_tests, gone_by, packed_claims, struck_of};
ghost use Rattle.register.specs.Limits.{claim_limit};
ghost use Rattle.register.specs.Chain.{expired};
ghost use Rattle.columns.specs.Columns.{latest_place, places_up};
ghost use Rattle.columns.specs.Sheet.{claim_at};
ghost use Rattle.lookup.specs.Walks.{up_from};

use refusals::Refusal;
use register::{Actor, Claim, Claims, Register};

// The claims that are left and how many went, beside the outcome. Refused: the claims as they came, and none.
#[derive(Clone, Copy)]
pub struct Struck {
    pub claims: Claims,
    pub removed: usize,
    pub outcome: Result<(), Refusal>,
}

// The outcome of a withdrawal's tests, where it is told whether each is passed: the first asks for a sound register, the last for one who
// may withdraw.
fn outcome(
    whole: bool,
    known: bool,
    unknown: Refusal,
    stands: bool,
    absent: Refusal,
    may: bool,
) -> Result<(), Refusal>
    ensures { result ≡ outcome_of (asked_tests whole known unknown stands absent may) }
{
    if !whole {
        return Err(Refusal::Unsound);
    }
    if !known {
        return Err(unknown);
    }
    if !stands {
        return Err(absent);
    }
    if !may {
        return Err(Refusal::NoGrantor);
    }
    Ok(())
}

// Whether `who` granted the claim at the place `from` or one above it. `ups` has for each place that of the parent.
fn grants_up<'a>(ups: &'a [u16], grantors: &'a [u32], from: usize, who: u32) -> bool
    ensures { result ≡ any (λ j. eqb (get_or grantors.now j 0) who) (from ∷ places_up ups.now from) }
{
    let mut member = from;
    let mut up = columns::place_above(ups, from);
    while up < member {
        if columns::number_at(grantors, member) == who {
            return true;
        }
        member = up;
        up = columns::place_above(ups, member);
    }
    columns::number_at(grantors, member) == who
}

// Whether `who` is a grantor on the chain from the number `x` up, over the first `n` claims.
fn grants_on<'a>(
    ids: &'a [u32],
    ups: &'a [u16],
    grantors: &'a [u32],
    n: usize,
    x: u32,
    who: u32,
) -> bool
    ensures { result ≡ any (λ j. eqb (get_or grantors.now j 0) who) (up_from ups.now (latest_place ids.now n x)) }
{
    let place = columns::latest_place(ids, n, x);
    match place {
        Some(at) => grants_up(ups, grantors, at, who),
        None => false,
    }
}

// Whether the claim at a place is marked: past the end of the marks none is.
fn is_marked(marks: &[bool], at: usize) -> bool
    ensures { result ≡ get_or marks.now at false }
{
    if at < marks.len() { marks[at] } else { false }
}

// Of the first `n` claims, those go that are named by their place, and those that are drawn from one that goes: a parent stands earlier, so
// whether it goes is known.
fn gone_by<F: Fn(usize) -> bool>(named: F, ups: &[u16], n: usize) -> [bool; Register::CLAIMS]
    requires { F.IsAlwaysCallable named }
    ensures { (P : ℕ → Bool) → ((j : ℕ) → j < claim_limit → (b : Bool) → F.post named j b → b ≡ P j) → result ≡ gone_by P ups.now n }
{
    let mut gone = [false; Register::CLAIMS];
    for i in 0..n.min(Register::CLAIMS) {
        let up = columns::place_above(ups, i);
        gone[i] = named(i) | is_marked(&gone, up);
    }
    gone
}

// Of the first `n` claims, those go that have `x` in the column, and those that are drawn from one that goes.
fn gone_with<'a>(ups: &'a [u16], column: &'a [u32], n: usize, x: u32) -> [bool; Register::CLAIMS]
    ensures { result ≡ gone_by (λ j. eqb (get_or column.now j 0) x) ups.now n }
{
    gone_by(|j| columns::number_at(column, j) == x, ups, n)
}

// Whether a claim has expired at the moment: its expiry, 0 for never, is not above it.
fn is_expired(c: Claim, moment: u64) -> bool
    ensures { result ≡ expired moment c }
{
    (c.expiry != 0) & (c.expiry <= moment)
}

// Of the first `n` claims of a sheet, those go that have expired at the moment, and those that are drawn from one that goes.
fn gone_expired<'a>(
    ups: &'a [u16],
    sheet: &'a [u32],
    n: usize,
    moment: u64,
) -> [bool; Register::CLAIMS]
    ensures { result ≡ gone_by (λ j. expired moment (claim_at sheet.now j)) ups.now n }
{
    gone_by(|j| is_expired(columns::claim_at(sheet, j), moment), ups, n)
}

// Of the first `n` claims of a sheet those that stay, in their order, and the zero claim in every place behind them.
fn packed(sheet: &[u32], n: usize, gone: &[bool]) -> Claims
    ensures { result ≡ packed_claims sheet.now n gone.now }
{
    let none = Claim::none();
    let mut list = [none; Register::CLAIMS];
    let mut kept: usize = 0;
    for i in 0..n.min(Register::CLAIMS) {
        if !is_marked(gone, i) {
            list[kept] = columns::claim_at(sheet, i);
            kept += 1;
        }
    }
    Claims { list, count: kept }
}

// Strikes the claims that go, which a sheet has too, where the outcome lets them.
fn strike(k: Claims, sheet: &[u32], gone: &[bool], outcome: Result<(), Refusal>) -> Struck
    ensures { result ≡ struck_claims k sheet.now gone.now outcome }
{
    match outcome {
        Ok(()) => {
            let claims = packed(sheet, k.count, gone);
            Struck {
                claims,
                removed: k.count.min(Register::CLAIMS) - claims.count,
                outcome,
            }
        }
        Err(_) => Struck {
            claims: k,
            removed: 0,
            outcome,
        },
    }
}

// Revokes the claim numbered `x` on behalf of `who`.
pub fn revoke(r: Register, who: u32, x: u32) -> Struck
    ensures { result ≡ struck_of (withdrawn r (revoke who x)) }
{
    let a = r.actors;
    let o = r.resources;
    let k = r.claims;
    let mut sheet = [0u32; columns::SHEET];
    let found = soundness::examine(&mut sheet, r.version, a, o, k);
    let known = columns::is_among(&found.actors.names, a.count, who);
    let ids = columns::column(&sheet, columns::IDS);
    let stands = columns::is_among(ids, k.count, x);
    let grantors = columns::column(&sheet, columns::GRANTORS);
    let grants = grants_on(ids, &found.ups, grantors, k.count, x, who);
    let gone = gone_with(&found.ups, ids, k.count, x);
    let told = outcome(
        found.sound,
        known,
        Refusal::Absent,
        stands,
        Refusal::NoClaim,
        grants,
    );
    strike(k, &sheet, &gone, told)
}

// Clears a resource on behalf of its keeper: every claim on it goes.
pub fn clear_resource(r: Register, caller: u32, resource: u32) -> Struck
    ensures { result ≡ struck_of (withdrawn r (clear_resource caller resource)) }
{
    let a = r.actors;
    let o = r.resources;
    let k = r.claims;
    let mut sheet = [0u32; columns::SHEET];
    let found = soundness::examine(&mut sheet, r.version, a, o, k);
    let known = columns::is_among(&found.actors.names, a.count, caller);
    let listed = columns::is_among(&found.resources.reports, o.count, resource);
    let keeps = columns::is_beside(
        &found.resources.reports,
        &found.resources.keepers,
        o.count,
        resource,
        caller,
    );
    let claimed = columns::column(&sheet, columns::CLAIMED);
    let gone = gone_with(&found.ups, claimed, k.count, resource);
    let told = outcome(
        found.sound,
        known,
        Refusal::Absent,
        listed,
        Refusal::Absent,
        keeps,
    );
    strike(k, &sheet, &gone, told)
}

// Clears old claims on behalf of a human: every claim that has expired at the moment goes, with all that is drawn from it.
pub fn clear_expired(r: Register, caller: u32, moment: u64) -> Struck
    ensures { result ≡ struck_of (withdrawn r (clear_expired caller moment)) }
{
    let a = r.actors;
    let o = r.resources;
    let k = r.claims;
    let mut sheet = [0u32; columns::SHEET];
    let found = soundness::examine(&mut sheet, r.version, a, o, k);
    let known = columns::is_among(&found.actors.names, a.count, caller);
    let human = columns::is_beside(
        &found.actors.names,
        &found.actors.kinds,
        a.count,
        caller,
        Actor::HUMAN,
    );
    let timely = moment < register::MOMENT_END;
    let gone = gone_expired(&found.ups, &sheet, k.count, moment);
    let told = outcome(
        found.sound,
        timely,
        Refusal::Range,
        known,
        Refusal::Absent,
        human,
    );
    strike(k, &sheet, &gone, told)
}
