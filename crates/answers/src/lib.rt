// The answers that cross to the portal, as structs of numbers.
// They have no bytes between or behind their fields. Here is what gives the numbers of an inner
// answer. No call asks anything of its caller, and no answer whose numbers are all zero is a yes.
#![tactic(auto)]

ghost use Rattle.std.specs.Prelude.{◌≡◌};
ghost use Rattle.answers.specs.Answers.{yes_number, accepted_number, refusal_number, proposal_answer, check_answer, decision_number, stop_number, violation_numbers, violation_list, judgement_numbers, no_judgement, filled, judgement_list, text_judgement_list, written_answer, version_numbers};
ghost use Rattle.answers.specs.Laws.{containment_of, granted_answer, withdrawn_answer};

use actions::{Action, Decision, Judgement, Plan, PlanVerdict, Violation, Violations};
use buffers::Written;
use fingerprints::{Book, Entry};
use json_rules::ID_BYTES;
use paper::CELLS;
use proposals::{Checked, Proposal, Proposed};
use reasons::Told;
use refusals::Refusal;
use register::{Actors, Claim, Claims, Register, Resources};
use steps::{PlanTextVerdict, TEXT_ACTIONS};
use withdrawing::Struck;

// The answer of a containment: 1 for a yes, with the length of the trimmed outer path, which may be 0. Else zeros.
#[repr(C)]
#[derive(Clone, Copy)]
pub struct Containment {
    pub contained: u64,
    pub length: usize,
}

// Whether a register is sound: 1 for a yes, 0 for a no.
#[repr(C)]
#[derive(Clone, Copy)]
pub struct Soundness {
    pub sound: u32,
}

// The answer of a grant: accepted is 1, with the claim in the register. Else it is 0, with 01's number and the register as it came. The register's
// parts lie in it as they do in a register, the list of claims and their count by name, so that the claim is stored once.
#[repr(C)]
#[derive(Clone, Copy)]
pub struct GrantAnswer {
    pub actors: Actors,
    pub resources: Resources,
    pub list: [Claim; Register::CLAIMS],
    pub count: usize,
    pub version: u64,
    pub accepted: u32,
    pub refusal: u32,
}

// The answer of a revocation or a clearing: accepted is 1, with how many claims went. Else it is 0, with 01's number and the register as it
// came.
#[repr(C)]
#[derive(Clone, Copy)]
pub struct RevokeAnswer {
    pub state: Register,
    pub accepted: u32,
    pub refusal: u32,
    pub removed: usize,
}

// 01's number of a violation's kind, and the flag, actor or position that it is about.
#[repr(C)]
#[derive(Clone, Copy)]
pub struct ViolationNumbers {
    pub kind: u32,
    pub value: u32,
}

// The answer of the gate: permitted is 1, refused is 2 with the violations, stopped is 3 with 01's number. Past the counts, zeros.
#[repr(C)]
#[derive(Clone, Copy)]
pub struct GateAnswer {
    pub decision: u32,
    pub refusal: u32,
    pub violations: [ViolationNumbers; Violations::MOST],
    pub count: usize,
    pub hops: [usize; Action::USES],
}

// The answer of the planner: accepted is 1, with a proposal. Else it is 0, with 01's number and a proposal of zeros, which is of neither kind.
#[repr(C)]
#[derive(Clone, Copy)]
pub struct ProposalAnswer {
    pub proposal: Proposal,
    pub accepted: u32,
    pub refusal: u32,
}

// The answer of the check of a proposal: 1 where it passes, 2 where it does not, 3 where a test stopped the call, with 01's number.
#[repr(C)]
#[derive(Clone, Copy)]
pub struct CheckAnswer {
    pub answer: u32,
    pub refusal: u32,
}

// The verdict on an action of a plan: permitted is 1, refused is 2 with its number of violations, cancelled is 4.
#[repr(C)]
#[derive(Clone, Copy)]
pub struct JudgementNumbers {
    pub decision: u32,
    pub violations: u32,
}

// The answer for a plan: accepted is 1, with a verdict to each action. Else it is 0, with 01's number and the position of the action that
// stopped the plan. Past the count, zeros.
#[repr(C)]
#[derive(Clone, Copy)]
pub struct PlanAnswer {
    pub accepted: u32,
    pub refusal: u32,
    pub position: usize,
    pub list: [JudgementNumbers; Plan::ACTIONS],
    pub count: usize,
}

// The answer for a plan text: accepted is 1, with a verdict to each action in reading order. Else it is 0, with 01's or 02's number, the failing
// line of the text from 1, or the position of the action that stopped the plan. Past the count, zeros.
#[repr(C)]
#[derive(Clone, Copy)]
pub struct PlanTextAnswer {
    pub accepted: u32,
    pub refusal: u32,
    pub line: usize,
    pub position: usize,
    pub list: [JudgementNumbers; TEXT_ACTIONS],
    pub count: usize,
}

// The answer of a reading of a register's text: accepted is 1, with the register and line 0. Else it is 0, with 01's number, the empty
// register, and the failing line from 1, or 0 where the register is not sound.
#[repr(C)]
#[derive(Clone, Copy)]
pub struct RegisterAnswer {
    pub state: Register,
    pub accepted: u32,
    pub refusal: u32,
    pub line: usize,
}

// The answer of a reading of an action's text: accepted is 1, with the action and line 0. Else it is 0, with 01's number, the action of all
// zeros and the failing line from 1.
#[repr(C)]
#[derive(Clone, Copy)]
pub struct ActionAnswer {
    pub action: Action,
    pub accepted: u32,
    pub refusal: u32,
    pub line: usize,
}

// The answer of a reading of a JSON action: accepted is 1, with the action, its kind and its id, zeros behind it. Else it is 0, with 01's
// number, the action of all zeros, no id, and kind 0.
#[repr(C)]
#[derive(Clone, Copy)]
pub struct JsonAnswer {
    pub action: Action,
    pub accepted: u32,
    pub refusal: u32,
    pub kind: u32,
    pub len: u32,
    pub id: [u8; ID_BYTES],
}

// The answer of a writing: accepted is 1, with the length of the text. Else it is 0, with 01's number and length 0.
#[repr(C)]
#[derive(Clone, Copy)]
pub struct WrittenAnswer {
    pub accepted: u32,
    pub refusal: u32,
    pub length: usize,
}

// A fingerprint by itself: C passes no array by value.
#[repr(C)]
#[derive(Clone, Copy)]
pub struct Fingerprint {
    pub bytes: [u8; Entry::BYTES],
}

// The answer of an attach: accepted is 1, with the entry in the book. Else it is 0, with 02's number and the book as it came.
#[repr(C)]
#[derive(Clone, Copy)]
pub struct AttachAnswer {
    pub book: Book,
    pub accepted: u32,
    pub refusal: u32,
}

// The answer of a fetch: accepted is 1, with the fingerprint. Else it is 0, with 02's number and 32 zeros.
#[repr(C)]
#[derive(Clone, Copy)]
pub struct FetchAnswer {
    pub fingerprint: Fingerprint,
    pub accepted: u32,
    pub refusal: u32,
}

// The answer to who may make a use: accepted is 1, with their ids in register order. Else it is 0, with 01's number. Past the count, zeros.
#[repr(C)]
#[derive(Clone, Copy)]
pub struct HoldersAnswer {
    pub accepted: u32,
    pub refusal: u32,
    pub ids: [u32; Register::ACTORS],
    pub count: usize,
}

// The answer with a cover table: accepted is 1, with the owner that is asked, the hop count and the state of each claim, and the cells of the
// actor and of its owner. Else it is 0, with 01's number, and nothing is shown.
#[repr(C)]
#[derive(Clone, Copy)]
pub struct TableAnswer {
    pub accepted: u32,
    pub refusal: u32,
    pub owner: u32,
    pub hops: [u32; Register::CLAIMS],
    pub states: [u32; Register::CLAIMS],
    pub own: [u32; CELLS],
    pub owners: [u32; CELLS],
}

// The answer to why an actor may make a use or may not: accepted is 1, with the actor's reason and, of a machine with an owner, his number and his
// reason. Else it is 0, with 01's number and zeros.
#[repr(C)]
#[derive(Clone, Copy)]
pub struct UseReasonAnswer {
    pub accepted: u32,
    pub refusal: u32,
    pub actor: Told,
    pub owner: u32,
    pub owners: Told,
}

// The version of the calls: another first number where a caller must be changed or compiled anew, another second one where a call is new.
#[repr(C)]
#[derive(Clone, Copy)]
pub struct VersionNumbers {
    pub major: u32,
    pub minor: u32,
    pub patch: u32,
}

// The version of these calls.
pub fn version() -> VersionNumbers
    ensures { result ≡ version_numbers }
{
    VersionNumbers {
        major: 3,
        minor: 5,
        patch: 0,
    }
}

// A yes is 1 and a no is 0.
pub fn yes(held: bool) -> u32
    ensures { result ≡ yes_number held }
{
    if held { 1 } else { 0 }
}

// A containment: a yes with its length, or a no.
pub fn contained(w: Option<usize>) -> Containment
    ensures { result ≡ containment_of w }
{
    match w {
        None => Containment {
            contained: yes(false) as u64,
            length: 0,
        },
        Some(n) => Containment {
            contained: yes(true) as u64,
            length: n,
        },
    }
}

// Accepted is 1 and refused is 0.
pub fn accepted(o: Result<(), Refusal>) -> u32
    ensures { result ≡ accepted_number o }
{
    match o {
        Ok(()) => 1,
        Err(_) => 0,
    }
}

// 01's number of the refusal, 0 where there is none.
pub fn refusal(o: Result<(), Refusal>) -> u32
    ensures { result ≡ refusal_number o }
{
    match o {
        Ok(()) => 0,
        Err(why) => refusals::number(why),
    }
}

// What the planner answers, as numbers.
pub fn proposed(p: Proposed) -> ProposalAnswer
    ensures { result ≡ proposal_answer p }
{
    let outcome = p.outcome;
    let proposal = p.proposal;
    ProposalAnswer {
        proposal,
        accepted: accepted(outcome),
        refusal: refusal(outcome),
    }
}

// What the check of a proposal answers, as numbers.
pub fn checked(k: Checked) -> CheckAnswer
    ensures { result ≡ check_answer k }
{
    match k {
        Checked::Passes => CheckAnswer {
            answer: 1,
            refusal: 0,
        },
        Checked::Fails => CheckAnswer {
            answer: 2,
            refusal: 0,
        },
        Checked::Stopped(why) => CheckAnswer {
            answer: 3,
            refusal: refusals::number(why),
        },
    }
}

// Permitted is 1, refused is 2 and stopped is 3.
pub fn decision(d: Decision) -> u32
    ensures { result ≡ decision_number d }
{
    match d {
        Decision::Permitted => 1,
        Decision::Refused => 2,
        Decision::Stopped(_) => 3,
    }
}

// 01's number of the refusal that stopped a call, 0 where none did.
pub fn stop(d: Decision) -> u32
    ensures { result ≡ stop_number d }
{
    match d {
        Decision::Permitted => 0,
        Decision::Refused => 0,
        Decision::Stopped(why) => refusals::number(why),
    }
}

fn violation(v: Violation) -> ViolationNumbers
    ensures { result ≡ violation_numbers v }
{
    ViolationNumbers {
        kind: actions::kind(v),
        value: actions::value(v),
    }
}

// The violations below the count, and zeros past them.
pub fn violations(vs: Violations) -> [ViolationNumbers; Violations::MOST]
    ensures { result ≡ violation_list vs }
{
    let top = vs.count.min(Violations::MOST);
    let none = ViolationNumbers { kind: 0, value: 0 };
    let mut list = [none; Violations::MOST];
    for i in 0..top {
        list[i] = violation(vs.list[i].what);
    }
    list
}

// The numbers of a verdict on an action.
pub fn judgement(j: Judgement) -> JudgementNumbers
    ensures { result ≡ judgement_numbers j }
{
    JudgementNumbers {
        decision: actions::judgement_number(j),
        violations: actions::judgement_value(j),
    }
}

// The numbers of the verdicts below the count, and zeros past them.
fn judged<const N: usize>(list: &[Judgement; N], count: usize) -> [JudgementNumbers; N]
    ensures { result ≡ filled judgement_numbers no_judgement N count list.now }
{
    let none = JudgementNumbers {
        decision: 0,
        violations: 0,
    };
    let mut numbers = [none; N];
    for i in 0..count.min(N) {
        numbers[i] = judgement(list[i]);
    }
    numbers
}

// The verdicts below the count, and zeros past them.
pub fn judgements(v: PlanVerdict) -> [JudgementNumbers; Plan::ACTIONS]
    ensures { result ≡ judgement_list v }
{
    judged(&v.list, v.count)
}

// The same of a plan text.
pub fn text_judgements(v: PlanTextVerdict) -> [JudgementNumbers; TEXT_ACTIONS]
    ensures { result ≡ text_judgement_list v }
{
    judged(&v.list, v.count)
}

// A writing: its outcome and the length of the text.
pub fn written(w: Written) -> WrittenAnswer
    ensures { result ≡ written_answer w }
{
    let outcome = w.outcome;
    WrittenAnswer {
        accepted: accepted(outcome),
        refusal: refusal(outcome),
        length: w.length,
    }
}

// A grant with this outcome of the claim as it is stored: accepted, and where there is room, the claim goes to the end of the list; else the
// register is as it came. Each part is put in place once.
pub fn granted(r: Register, c: Claim, outcome: Result<(), Refusal>) -> GrantAnswer
    ensures { result ≡ granted_answer r c outcome }
{
    let accepted = accepted(outcome);
    let actors = r.actors;
    let resources = r.resources;
    let k = r.claims;
    let list = k.list;
    let at = k.count;
    let mut answer = GrantAnswer {
        actors,
        resources,
        list,
        count: at,
        version: r.version,
        accepted,
        refusal: refusal(outcome),
    };
    if (accepted == 1) & (at < Register::CLAIMS) {
        answer.list[at] = c;
        answer.count = at + 1;
    }
    answer
}

// A withdrawal that left these claims, with its outcome and how many went. Each part is put in place once.
pub fn withdrawn(r: Register, struck: Struck) -> RevokeAnswer
    ensures { result ≡ withdrawn_answer r struck }
{
    let a = r.actors;
    let o = r.resources;
    let k = struck.claims;
    let outcome = struck.outcome;
    let people = a.list;
    let things = o.list;
    let actors = Actors {
        list: people,
        count: a.count,
    };
    let resources = Resources {
        list: things,
        count: o.count,
    };
    let left = k.list;
    let claims = Claims {
        list: left,
        count: k.count,
    };
    RevokeAnswer {
        state: Register {
            actors,
            resources,
            claims,
            version: r.version,
        },
        accepted: accepted(outcome),
        refusal: refusal(outcome),
        removed: struck.removed,
    }
}
