// The check of a proposal, whoever made it.
// The tests of the call, then whether the proposal passes. It asks the gate of the one use and, for a grant, the grant and the gate of the
// register that the grant leaves. It knows nothing of the planner.
#![tactic(auto)]

ghost use Rattle.std.specs.Prelude.{◌≡◌, ◌&&◌, ◌||◌, cond, ◌<◌, eqb, Err};
ghost use Rattle.register.specs.Limits.{claim_limit};
ghost use Rattle.refusals.specs.declared.Refusal.TheVariants.{Range};
ghost use Rattle.change_rules.specs.Changes.{appended};
ghost use Rattle.actions.specs.Actions.{is_permitted};
ghost use Rattle.gate_rules.specs.Gate.{gated};
ghost use Rattle.proposals.specs.Proposals.{no_grant_kind, grant_kind, permits, of_form, helping, passing_grant, checked};
ghost use Rattle.checking.specs.Asked.{asked_by};
ghost use Rattle.proposals.specs.declared.Checked.TheVariants.{Passes, Fails};

use actions::{Action, Decision, Usage};
use proposals::{Checked, Proposal, Signers};
use refusals::Refusal;
use register::{Claim, Register};

// The number of the refusal of a register that is not sound.
const UNSOUND: u32 = 1;

// 2 where the call's numbers are out of range, else what comes next.
fn ranged(inside: bool, next: Result<(), Refusal>) -> Result<(), Refusal>
    ensures { result ≡ cond inside next (Err Range) }
{
    if inside { next } else { Err(Refusal::Range) }
}

// The outcome of the tests of the call, by what the gate decides of the one use: its 1 is theirs, then comes 2, and what it still stops is 3.
fn asked(decided: Decision, inside: bool) -> Result<(), Refusal>
    ensures { result ≡ asked_by decided inside }
{
    match decided {
        Decision::Permitted | Decision::Refused => ranged(inside, Ok(())),
        Decision::Stopped(why) => {
            if refusals::number(why) == UNSOUND {
                Err(Refusal::Unsound)
            } else {
                ranged(inside, Err(Refusal::Absent))
            }
        }
    }
}

// What the gate decides. It opens the register itself, so that the exported gate stays the one caller of `gate::gate` and keeps it in its own frame.
fn decide(r: Register, a: Action) -> Decision
    ensures { result ≡ (gated r a).decision }
{
    let mut sheet = [0u32; columns::SHEET];
    let found = soundness::examine(&mut sheet, r.version, r.actors, r.resources, r.claims);
    let verdict = gate::gate_by(r, &sheet, found, a);
    verdict.decision
}

// Whether a decision permits.
fn is_permitted(d: Decision) -> bool
    ensures { result ≡ is_permitted d }
{
    matches!(d, Decision::Permitted)
}

// Whether the gate permits an action.
fn permitted(r: Register, a: Action) -> bool
    ensures { result ≡ permits r a }
{
    is_permitted(decide(r, a))
}

// Whether a claim is to the actor, of that single right on that resource, by one of the signers.
fn of_form(x: u32, u: Usage, s: Signers, c: Claim) -> bool
    ensures { result ≡ of_form x u s c }
{
    if c.holder != x {
        return false;
    }
    if c.resource != u.resource {
        return false;
    }
    if c.rights != rights::worth(u.right) {
        return false;
    }
    columns::is_among(&s.list, s.count, c.grantor)
}

// The register with a claim at the end of its list, where there is room.
fn with_claim(r: Register, c: Claim) -> Register
    requires { r.claims.count < claim_limit }
    ensures { result ≡ appended r c }
{
    let mut claims = r.claims;
    claims.list[claims.count] = c;
    claims.count += 1;
    Register { claims, ..r }
}

// Whether a grant would be accepted at the moment, and the one use would then be permitted.
fn helps(r: Register, x: u32, u: Usage, moment: u64, c: Claim) -> bool
    ensures { result ≡ helping r x u moment c }
{
    let settled = granting::grant_outcome(r, c, moment);
    let stored = settled.claim;
    let outcome = settled.outcome;
    match outcome {
        Err(_) => false,
        Ok(()) => {
            let after = with_claim(r, stored);
            permitted(after, actions::one_use(x, u, moment))
        }
    }
}

// Whether a proposal passes, where `already` says whether the one use alone is permitted.
fn passes(
    r: Register,
    x: u32,
    u: Usage,
    moment: u64,
    s: Signers,
    p: Proposal,
    already: bool,
) -> bool
    ensures { result ≡ (eqb p.kind no_grant_kind && already) || (eqb p.kind grant_kind && passing_grant r x u moment s p.claim) }
{
    if p.kind == Proposal::NO_GRANT {
        return already;
    }
    if p.kind != Proposal::GRANT {
        return false;
    }
    let c = p.claim;
    if !of_form(x, u, s, c) {
        return false;
    }
    helps(r, x, u, moment, c)
}

// The answer of the check where no test stops it.
fn told(passes: bool) -> Checked
    ensures { result ≡ cond passes Passes Fails }
{
    if passes {
        Checked::Passes
    } else {
        Checked::Fails
    }
}

// The check.
pub fn check(r: Register, x: u32, u: Usage, moment: u64, s: Signers, p: Proposal) -> Checked
    ensures { result ≡ checked r x u moment s p }
{
    let decided = decide(r, actions::one_use(x, u, moment));
    let outcome = asked(decided, proposals::asks_fit(u, moment, s));
    match outcome {
        Err(why) => Checked::Stopped(why),
        Ok(()) => {
            let already = is_permitted(decided);
            told(passes(r, x, u, moment, s, p, already))
        }
    }
}
