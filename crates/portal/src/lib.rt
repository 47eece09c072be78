// The calls that the portal links.
// The crate `portal_c` exports them, and include/guvrendik.h declares them. Nothing is decided
// here: each call hands its arguments on, and gives the inner answer as a struct of numbers. No
// call asks anything of its caller, and no answer whose numbers are all zero is a yes.
#![tactic(auto)]

ghost use Rattle.std.specs.Prelude.{◌≡◌};
ghost use Rattle.soundness_rules.specs.Sound.{sound, table_sound};
ghost use Rattle.register_bytes.specs.Bytes.{register_in};
ghost use Rattle.soundness.specs.Judged.{findings_by};
ghost use Rattle.change_rules.specs.Changes.{granted, revoke, clear_resource, clear_expired, withdrawn};
ghost use Rattle.gate_rules.specs.Gate.{gated};
ghost use Rattle.gate_rules.specs.Plans.{planned};
ghost use Rattle.proposals.specs.Proposals.{proposed, checked as proposalChecked};
ghost use Rattle.steps.specs.Judging.{plan_text_judged};
ghost use Rattle.text_rules.specs.Registers.{register_read};
ghost use Rattle.text_rules.specs.Actions.{action_read};
ghost use Rattle.buffers.specs.Buffers.{put};
ghost use Rattle.register_writing.specs.Writing.{register_written, register_buffer};
ghost use Rattle.buffers.specs.Delivery.{delivered};
ghost use Rattle.verdict_printing.specs.Printed.{printed, json_printed};
ghost use Rattle.plan_verdict_text.specs.PlanPrinted.{plan_printed};
ghost use Rattle.json_rules.specs.Actions.{json_read, json_written, json_buffer};
ghost use Rattle.faults.specs.Faults.{fault_of};
ghost use Rattle.faults.specs.Unread.{why_unread};
ghost use Rattle.fingerprints.specs.Fingerprints.{attached, fetched};
ghost use Rattle.reasons.specs.Holders.{who_held};
ghost use Rattle.table_showing.specs.Shown.{table_shown};
ghost use Rattle.reasons.specs.Uses.{use_told_of, why_use};
ghost use Rattle.answers.specs.Answers.{containment, soundness, grant_answer, revoke_answer, proposal_answer, check_answer, gate_answer, plan_answer, plan_text_answer, register_answer, action_answer, written_answer, json_answer, attach_answer, fetch_answer, holders_answer, table_answer, use_reason_answer, version_numbers};
ghost use Rattle.words.specs.Words.{refusal_text, violation_text, right_name, flag_name};

use actions::{Action, Plan, PlanVerdict, Usage, Verdict};
use answers::{
    ActionAnswer, AttachAnswer, CheckAnswer, Containment, FetchAnswer, Fingerprint, GateAnswer,
    GrantAnswer, HoldersAnswer, JsonAnswer, PlanAnswer, PlanTextAnswer, ProposalAnswer,
    RegisterAnswer, RevokeAnswer, Soundness, TableAnswer, UseReasonAnswer, VersionNumbers,
    WrittenAnswer,
};
use faults::Fault;
use fingerprints::Book;
use proposals::{Proposal, Signers};
use register::{Actors, Claim, Register, Resources};

// Whether the outer path contains the inner one, and how far it reaches.
#[unsafe(no_mangle)]
pub extern "C" fn guvrendik_contains(outer: &[u8], inner: &[u8]) -> Containment
    ensures { result ≡ containment outer.now inner.now }
{
    answers::contained(paths::contains(outer, inner))
}

// Whether the register is sound.
#[unsafe(no_mangle)]
pub extern "C" fn guvrendik_sound(r: Register) -> Soundness
    ensures { result ≡ soundness (sound r) }
{
    Soundness {
        sound: answers::yes(soundness::is_sound(r)),
    }
}

// Whether the register of the version, the actors, the resources and the first `n` claims of a sheet is sound.
fn sheet_answer(version: u64, a: Actors, o: Resources, sheet: &[u32], n: usize) -> Soundness
    ensures { result ≡ soundness (findings_by version a o sheet.now n).sound }
{
    Soundness {
        sound: answers::yes(soundness::sheet_sound(version, a, o, sheet, n)),
    }
}

// Whether the register of the version, the actors, the resources and the claims of a lent table is sound. The table is not copied: each of its
// records is taken apart into a sheet, in which things are looked up. More than 256 records are a no before any is looked at.
#[unsafe(no_mangle)]
pub extern "C" fn guvrendik_sound_table(
    claims: &[Claim],
    version: u64,
    actors: Actors,
    resources: Resources,
) -> Soundness
    ensures { result ≡ soundness (table_sound version actors resources claims.now) }
{
    if Register::CLAIMS < claims.len() {
        return Soundness { sound: 0 };
    }
    let mut sheet = [0u32; columns::SHEET];
    for (i, c) in claims.iter().enumerate() {
        columns::take_apart(&mut sheet, i, *c);
    }
    sheet_answer(version, actors, resources, &sheet, claims.len())
}

// Grants a claim at the moment.
#[unsafe(no_mangle)]
pub extern "C" fn guvrendik_grant(r: Register, c: Claim, moment: u64) -> GrantAnswer
    ensures { result ≡ grant_answer (granted r c moment) }
{
    let settled = granting::grant_outcome(r, c, moment);
    answers::granted(r, settled.claim, settled.outcome)
}

// Revokes a claim with all that is drawn from it.
#[unsafe(no_mangle)]
pub extern "C" fn guvrendik_revoke(r: Register, revoker: u32, claim: u32) -> RevokeAnswer
    ensures { result ≡ revoke_answer (withdrawn r (revoke revoker claim)) }
{
    answers::withdrawn(r, withdrawing::revoke(r, revoker, claim))
}

// Clears a resource on behalf of its keeper: every claim on it goes.
#[unsafe(no_mangle)]
pub extern "C" fn guvrendik_clear_resource(r: Register, caller: u32, resource: u32) -> RevokeAnswer
    ensures { result ≡ revoke_answer (withdrawn r (clear_resource caller resource)) }
{
    answers::withdrawn(r, withdrawing::clear_resource(r, caller, resource))
}

// Clears old claims on behalf of a human: every claim that has expired at the moment goes, with all that is drawn from it.
#[unsafe(no_mangle)]
pub extern "C" fn guvrendik_clear_expired(r: Register, caller: u32, moment: u64) -> RevokeAnswer
    ensures { result ≡ revoke_answer (withdrawn r (clear_expired caller moment)) }
{
    answers::withdrawn(r, withdrawing::clear_expired(r, caller, moment))
}

// Whose signature is missing: no grant, or one grant by one of the signers, that has the one use permitted.
#[unsafe(no_mangle)]
pub extern "C" fn guvrendik_propose(
    r: Register,
    actor: u32,
    usage: Usage,
    moment: u64,
    signers: Signers,
) -> ProposalAnswer
    ensures { result ≡ proposal_answer (proposed r actor usage moment signers) }
{
    answers::proposed(proposing::propose(r, actor, usage, moment, signers))
}

// Whether a proposal, whoever made it, would have the one use permitted.
#[unsafe(no_mangle)]
pub extern "C" fn guvrendik_check_proposal(
    r: Register,
    actor: u32,
    usage: Usage,
    moment: u64,
    signers: Signers,
    proposal: Proposal,
) -> CheckAnswer
    ensures { result ≡ check_answer (proposalChecked r actor usage moment signers proposal) }
{
    answers::checked(checking::check(r, actor, usage, moment, signers, proposal))
}

// What the gate answers, as numbers.
fn gate_numbers(verdict: &Verdict) -> GateAnswer
    ensures { result ≡ gate_answer verdict.now }
{
    GateAnswer {
        decision: answers::decision(verdict.decision),
        refusal: answers::stop(verdict.decision),
        violations: answers::violations(verdict.violations),
        count: verdict.violations.count,
        hops: verdict.hops,
    }
}

// What the gate answers for a plan, as numbers.
fn plan_numbers(verdict: &PlanVerdict) -> PlanAnswer
    ensures { result ≡ plan_answer verdict.now }
{
    PlanAnswer {
        accepted: answers::accepted(verdict.outcome),
        refusal: answers::refusal(verdict.outcome),
        position: verdict.position,
        list: answers::judgements(*verdict),
        count: verdict.count,
    }
}

// The gate for an action.
#[unsafe(no_mangle)]
pub extern "C" fn guvrendik_gate(r: Register, a: Action) -> GateAnswer
    ensures { result ≡ gate_answer (gated r a) }
{
    gate_numbers(&gate::gate(r, a))
}

// The gate for a plan.
#[unsafe(no_mangle)]
pub extern "C" fn guvrendik_judge_plan(r: Register, p: Plan) -> PlanAnswer
    ensures { result ≡ plan_answer (planned r p) }
{
    plan_numbers(&plans::plan(r, p))
}

// Whether the register that lent bytes hold is sound.
#[unsafe(no_mangle)]
pub extern "C" fn guvrendik_sound_lent(bytes: &[u8]) -> Soundness
    ensures { result ≡ soundness (sound (register_in bytes.now)) }
{
    Soundness {
        sound: answers::yes(lending::is_sound(bytes)),
    }
}

// The gate for an action, by the register that lent bytes hold.
#[unsafe(no_mangle)]
pub extern "C" fn guvrendik_gate_lent(bytes: &[u8], a: Action) -> GateAnswer
    ensures { result ≡ gate_answer (gated (register_in bytes.now) a) }
{
    gate_numbers(&lending::gate(bytes, a))
}

// The gate for a plan, by the register that lent bytes hold.
#[unsafe(no_mangle)]
pub extern "C" fn guvrendik_judge_plan_lent(bytes: &[u8], p: Plan) -> PlanAnswer
    ensures { result ≡ plan_answer (planned (register_in bytes.now) p) }
{
    plan_numbers(&lending::plan(bytes, p))
}

// The plain gate for an action: the gate's answer, by a table filled claim by claim.
#[unsafe(no_mangle)]
pub extern "C" fn guvrendik_plain_gate(r: Register, a: Action) -> GateAnswer
    ensures { result ≡ gate_answer (gated r a) }
{
    gate_numbers(&plain_gate::gate(r, a))
}

// The plain gate for a plan.
#[unsafe(no_mangle)]
pub extern "C" fn guvrendik_plain_plan(r: Register, p: Plan) -> PlanAnswer
    ensures { result ≡ plan_answer (planned r p) }
{
    plan_numbers(&plain_gate::plan(r, p))
}

// The gate for a plan text, whose steps are actions and whole plans.
#[unsafe(no_mangle)]
pub extern "C" fn guvrendik_judge_plan_text(r: Register, text: &[u8]) -> PlanTextAnswer
    ensures { result ≡ plan_text_answer (plan_text_judged r text.now) }
{
    let verdict = nested_plans::plan_text(r, text);
    PlanTextAnswer {
        accepted: answers::accepted(verdict.outcome),
        refusal: answers::refusal(verdict.outcome),
        line: verdict.line,
        position: verdict.position,
        list: answers::text_judgements(verdict),
        count: verdict.count,
    }
}

// Reads a text as a register.
#[unsafe(no_mangle)]
pub extern "C" fn guvrendik_read_register(text: &[u8]) -> RegisterAnswer
    ensures { result ≡ register_answer (register_read text.now) }
{
    let read = register_reading::read_register(text);
    RegisterAnswer {
        state: read.register,
        accepted: answers::accepted(read.outcome),
        refusal: answers::refusal(read.outcome),
        line: read.line,
    }
}

// Reads a text as an action.
#[unsafe(no_mangle)]
pub extern "C" fn guvrendik_read_action(text: &[u8]) -> ActionAnswer
    ensures { result ≡ action_answer (action_read text.now) }
{
    let asked = action_reading::read_action(text);
    ActionAnswer {
        action: asked.action,
        accepted: answers::accepted(asked.outcome),
        refusal: answers::refusal(asked.outcome),
        line: asked.line,
    }
}

// Writes the text of the register into the buffer.
#[unsafe(no_mangle)]
pub extern "C" fn guvrendik_write_register(r: Register, buffer: &mut [u8]) -> WrittenAnswer
    ensures answer { result ≡ written_answer (register_written r buffer.old) }
    ensures buffer { buffer.new ≡ register_buffer r buffer.old }
{
    answers::written(register_writing::write(r, buffer))
}

// Puts the lines that 01's program prints of the two texts into the buffer.
#[unsafe(no_mangle)]
pub extern "C" fn guvrendik_verdict_text(
    register: &[u8],
    action: &[u8],
    buffer: &mut [u8],
) -> WrittenAnswer
    ensures answer { result ≡ written_answer (delivered (printed register.now action.now) buffer.old) }
    ensures buffer { buffer.new ≡ put 0 (printed register.now action.now) buffer.old }
{
    answers::written(verdict_printing::verdict_text(register, action, buffer))
}

// Puts the lines that the program for JSON actions prints of the three texts into the buffer.
#[unsafe(no_mangle)]
pub extern "C" fn guvrendik_json_verdict_text(
    register: &[u8],
    clock: &[u8],
    action: &[u8],
    buffer: &mut [u8],
) -> WrittenAnswer
    ensures answer { result ≡ written_answer (delivered (json_printed register.now clock.now action.now) buffer.old) }
    ensures buffer { buffer.new ≡ put 0 (json_printed register.now clock.now action.now) buffer.old }
{
    answers::written(verdict_printing::json_verdict_text(register, clock, action, buffer))
}

// Puts the lines that the program for plan texts prints of the two texts into the buffer.
#[unsafe(no_mangle)]
pub extern "C" fn guvrendik_plan_verdict_text(
    register: &[u8],
    plan: &[u8],
    buffer: &mut [u8],
) -> WrittenAnswer
    ensures answer { result ≡ written_answer (delivered (plan_printed register.now plan.now) buffer.old) }
    ensures buffer { buffer.new ≡ put 0 (plan_printed register.now plan.now) buffer.old }
{
    answers::written(plan_verdict_text::plan_verdict_text(buffer, register, plan))
}

// Reads a JSON text of the builder's form as an action at the moment.
#[unsafe(no_mangle)]
pub extern "C" fn guvrendik_read_json(text: &[u8], moment: u64) -> JsonAnswer
    ensures { result ≡ json_answer (json_read text.now moment) }
{
    let posed = json_reading::read_json(text, moment);
    let id = posed.id;
    JsonAnswer {
        action: posed.action,
        accepted: answers::accepted(posed.outcome),
        refusal: answers::refusal(posed.outcome),
        kind: posed.kind,
        len: posed.len,
        id,
    }
}

// Writes the action with its id and kind into the buffer as a JSON text of the builder's form.
#[unsafe(no_mangle)]
pub extern "C" fn guvrendik_write_json(
    a: Action,
    id: &[u8],
    kind: u32,
    buffer: &mut [u8],
) -> WrittenAnswer
    ensures answer { result ≡ written_answer (json_written a id.now kind buffer.old) }
    ensures buffer { buffer.new ≡ json_buffer a id.now kind buffer.old }
{
    answers::written(json_writing::write_json(a, id, kind, buffer))
}

// Attaches a fingerprint to the resource's number.
#[unsafe(no_mangle)]
pub extern "C" fn guvrendik_attach(
    book: Book,
    r: Register,
    actor: u32,
    resource: u32,
    moment: u64,
    fingerprint: Fingerprint,
) -> AttachAnswer
    ensures { result ≡ attach_answer (attached book r actor resource moment fingerprint.bytes) }
{
    let answer = attaching::attach(book, r, actor, resource, moment, fingerprint.bytes);
    AttachAnswer {
        book: answer.book,
        accepted: answers::accepted(answer.outcome),
        refusal: answers::refusal(answer.outcome),
    }
}

// Fetches the fingerprint of the resource's number.
#[unsafe(no_mangle)]
pub extern "C" fn guvrendik_fetch(
    book: Book,
    r: Register,
    actor: u32,
    resource: u32,
    moment: u64,
) -> FetchAnswer
    ensures { result ≡ fetch_answer (fetched book r actor resource moment) }
{
    let answer = attaching::fetch(book, r, actor, resource, moment);
    let bytes = answer.fingerprint;
    FetchAnswer {
        fingerprint: Fingerprint { bytes },
        accepted: answers::accepted(answer.outcome),
        refusal: answers::refusal(answer.outcome),
    }
}

// Who may make a use at a moment.
#[unsafe(no_mangle)]
pub extern "C" fn guvrendik_who(r: Register, usage: Usage, moment: u64) -> HoldersAnswer
    ensures { result ≡ holders_answer (who_held r usage moment) }
{
    let answer = reason_finding::who(r, usage, moment);
    let ids = answer.ids;
    HoldersAnswer {
        accepted: answers::accepted(answer.outcome),
        refusal: answers::refusal(answer.outcome),
        ids,
        count: answer.count,
    }
}

// The cover table of the actor at the moment.
#[unsafe(no_mangle)]
pub extern "C" fn guvrendik_cover_table(r: Register, actor: u32, moment: u64) -> TableAnswer
    ensures { result ≡ table_answer (table_shown r actor moment) }
{
    let shown = table_showing::cover_table(r, actor, moment);
    let hops = shown.hops;
    let states = shown.states;
    let own = shown.own;
    let owners = shown.owners;
    TableAnswer {
        accepted: answers::accepted(shown.outcome),
        refusal: answers::refusal(shown.outcome),
        owner: shown.owner,
        hops,
        states,
        own,
        owners,
    }
}

// Why an actor may make a use at a moment or may not.
#[unsafe(no_mangle)]
pub extern "C" fn guvrendik_why_use(
    r: Register,
    actor: u32,
    usage: Usage,
    moment: u64,
) -> UseReasonAnswer
    ensures { result ≡ use_reason_answer (use_told_of (why_use r actor usage moment)) }
{
    let answer = reason_finding::why_use(r, actor, usage, moment);
    UseReasonAnswer {
        accepted: answers::accepted(answer.outcome),
        refusal: answers::refusal(answer.outcome),
        actor: answer.actor,
        owner: answer.owner,
        owners: answer.owners,
    }
}

// Puts what a refusal's number says into the buffer.
#[unsafe(no_mangle)]
pub extern "C" fn guvrendik_refusal_text(number: u32, buffer: &mut [u8]) -> WrittenAnswer
    ensures answer { result ≡ written_answer (delivered (refusal_text number) buffer.old) }
    ensures buffer { buffer.new ≡ put 0 (refusal_text number) buffer.old }
{
    answers::written(words::refusal_text(number, buffer))
}

// Puts what a violation's kind says into the buffer.
#[unsafe(no_mangle)]
pub extern "C" fn guvrendik_violation_text(kind: u32, buffer: &mut [u8]) -> WrittenAnswer
    ensures answer { result ≡ written_answer (delivered (violation_text kind) buffer.old) }
    ensures buffer { buffer.new ≡ put 0 (violation_text kind) buffer.old }
{
    answers::written(words::violation_text(kind, buffer))
}

// Puts a right's name into the buffer.
#[unsafe(no_mangle)]
pub extern "C" fn guvrendik_right_name(right: u32, buffer: &mut [u8]) -> WrittenAnswer
    ensures answer { result ≡ written_answer (delivered (right_name right) buffer.old) }
    ensures buffer { buffer.new ≡ put 0 (right_name right) buffer.old }
{
    answers::written(words::right_name(right, buffer))
}

// Puts a flag's name into the buffer.
#[unsafe(no_mangle)]
pub extern "C" fn guvrendik_flag_name(flag: u32, buffer: &mut [u8]) -> WrittenAnswer
    ensures answer { result ≡ written_answer (delivered (flag_name flag) buffer.old) }
    ensures buffer { buffer.new ≡ put 0 (flag_name flag) buffer.old }
{
    answers::written(words::flag_name(flag, buffer))
}

// The first fault of a register.
#[unsafe(no_mangle)]
pub extern "C" fn guvrendik_why_unsound(r: Register) -> Fault
    ensures { result ≡ fault_of r }
{
    fault_finding::why_unsound(r)
}

// The first fault of a text that is to be a register.
#[unsafe(no_mangle)]
pub extern "C" fn guvrendik_why_unread(text: &[u8]) -> Fault
    ensures { result ≡ why_unread text.now }
{
    fault_finding::why_unread(text)
}

// The version of these calls.
#[unsafe(no_mangle)]
pub extern "C" fn guvrendik_version() -> VersionNumbers
    ensures { result ≡ version_numbers }
{
    answers::version()
}
