// The calls of the crate `portal`, exported to C.
// include/guvrendik.h declares them. Each hands its arguments on, and says again what the call
// promises. A crate is a library for Rattle's crates or one for C, so the exports stand here.
#![tactic(auto)]

ghost use Rattle.std.specs.Prelude.{◌≡◌};
ghost use Rattle.soundness_rules.specs.Sound.{sound, table_sound};
ghost use Rattle.register_bytes.specs.Bytes.{register_in};
ghost use Rattle.change_rules.specs.Changes.{granted, revoke, clear_resource, clear_expired, withdrawn};
ghost use Rattle.gate_rules.specs.Gate.{gated};
ghost use Rattle.gate_rules.specs.Plans.{planned};
ghost use Rattle.proposals.specs.Proposals.{proposed, checked as proposalChecked};
ghost use Rattle.steps.specs.Judging.{plan_text_judged};
ghost use Rattle.text_rules.specs.Registers.{register_read};
ghost use Rattle.text_rules.specs.Actions.{action_read};
ghost use Rattle.buffers.specs.Buffers.{put};
ghost use Rattle.register_writing.specs.Writing.{register_written, register_buffer};
ghost use Rattle.buffers.specs.Delivery.{delivered};
ghost use Rattle.verdict_printing.specs.Printed.{printed, json_printed};
ghost use Rattle.plan_verdict_text.specs.PlanPrinted.{plan_printed};
ghost use Rattle.json_rules.specs.Actions.{json_read, json_written, json_buffer};
ghost use Rattle.faults.specs.Faults.{fault_of};
ghost use Rattle.faults.specs.Unread.{why_unread};
ghost use Rattle.fingerprints.specs.Fingerprints.{attached, fetched};
ghost use Rattle.reasons.specs.Holders.{who_held};
ghost use Rattle.table_showing.specs.Shown.{table_shown};
ghost use Rattle.reasons.specs.Uses.{use_told_of, why_use};
ghost use Rattle.answers.specs.Answers.{containment, soundness, grant_answer, revoke_answer, proposal_answer, check_answer, gate_answer, plan_answer, plan_text_answer, register_answer, action_answer, written_answer, json_answer, attach_answer, fetch_answer, holders_answer, table_answer, use_reason_answer, version_numbers};
ghost use Rattle.words.specs.Words.{refusal_text, violation_text, right_name, flag_name};

use actions::{Action, Plan, Usage};
use answers::{
    ActionAnswer, AttachAnswer, CheckAnswer, Containment, FetchAnswer, Fingerprint, GateAnswer,
    GrantAnswer, HoldersAnswer, JsonAnswer, PlanAnswer, PlanTextAnswer, ProposalAnswer,
    RegisterAnswer, RevokeAnswer, Soundness, TableAnswer, UseReasonAnswer, VersionNumbers,
    WrittenAnswer,
};
use faults::Fault;
use fingerprints::Book;
use proposals::{Proposal, Signers};
use register::{Actors, Claim, Register, Resources};

// Whether the outer path contains the inner one, and how far it reaches.
#[unsafe(no_mangle)]
pub extern "C" fn guvrendik_contains(outer: &[u8], inner: &[u8]) -> Containment
    ensures { result ≡ containment outer.now inner.now }
{
    portal::guvrendik_contains(outer, inner)
}

// Whether the register is sound.
#[unsafe(no_mangle)]
pub extern "C" fn guvrendik_sound(r: Register) -> Soundness
    ensures { result ≡ soundness (sound r) }
{
    portal::guvrendik_sound(r)
}

// Whether the register of the version, the actors, the resources and the claims of a lent table is sound. The table is not copied: each of its
// records is taken apart into a sheet, in which things are looked up. More than 256 records are a no before any is looked at.
#[unsafe(no_mangle)]
pub extern "C" fn guvrendik_sound_table(
    claims: &[Claim],
    version: u64,
    actors: Actors,
    resources: Resources,
) -> Soundness
    ensures { result ≡ soundness (table_sound version actors resources claims.now) }
{
    portal::guvrendik_sound_table(claims, version, actors, resources)
}

// Grants a claim at the moment.
#[unsafe(no_mangle)]
pub extern "C" fn guvrendik_grant(r: Register, c: Claim, moment: u64) -> GrantAnswer
    ensures { result ≡ grant_answer (granted r c moment) }
{
    portal::guvrendik_grant(r, c, moment)
}

// Revokes a claim with all that is drawn from it.
#[unsafe(no_mangle)]
pub extern "C" fn guvrendik_revoke(r: Register, revoker: u32, claim: u32) -> RevokeAnswer
    ensures { result ≡ revoke_answer (withdrawn r (revoke revoker claim)) }
{
    portal::guvrendik_revoke(r, revoker, claim)
}

// Clears a resource on behalf of its keeper: every claim on it goes.
#[unsafe(no_mangle)]
pub extern "C" fn guvrendik_clear_resource(r: Register, caller: u32, resource: u32) -> RevokeAnswer
    ensures { result ≡ revoke_answer (withdrawn r (clear_resource caller resource)) }
{
    portal::guvrendik_clear_resource(r, caller, resource)
}

// Clears old claims on behalf of a human: every claim that has expired at the moment goes, with all that is drawn from it.
#[unsafe(no_mangle)]
pub extern "C" fn guvrendik_clear_expired(r: Register, caller: u32, moment: u64) -> RevokeAnswer
    ensures { result ≡ revoke_answer (withdrawn r (clear_expired caller moment)) }
{
    portal::guvrendik_clear_expired(r, caller, moment)
}

// Whose signature is missing: no grant, or one grant by one of the signers, that has the one use permitted.
#[unsafe(no_mangle)]
pub extern "C" fn guvrendik_propose(
    r: Register,
    actor: u32,
    usage: Usage,
    moment: u64,
    signers: Signers,
) -> ProposalAnswer
    ensures { result ≡ proposal_answer (proposed r actor usage moment signers) }
{
    portal::guvrendik_propose(r, actor, usage, moment, signers)
}

// Whether a proposal, whoever made it, would have the one use permitted.
#[unsafe(no_mangle)]
pub extern "C" fn guvrendik_check_proposal(
    r: Register,
    actor: u32,
    usage: Usage,
    moment: u64,
    signers: Signers,
    proposal: Proposal,
) -> CheckAnswer
    ensures { result ≡ check_answer (proposalChecked r actor usage moment signers proposal) }
{
    portal::guvrendik_check_proposal(r, actor, usage, moment, signers, proposal)
}

// The gate for an action.
#[unsafe(no_mangle)]
pub extern "C" fn guvrendik_gate(r: Register, a: Action) -> GateAnswer
    ensures { result ≡ gate_answer (gated r a) }
{
    portal::guvrendik_gate(r, a)
}

// The gate for a plan.
#[unsafe(no_mangle)]
pub extern "C" fn guvrendik_judge_plan(r: Register, p: Plan) -> PlanAnswer
    ensures { result ≡ plan_answer (planned r p) }
{
    portal::guvrendik_judge_plan(r, p)
}

// Whether the register that lent bytes hold is sound.
#[unsafe(no_mangle)]
pub extern "C" fn guvrendik_sound_lent(bytes: &[u8]) -> Soundness
    ensures { result ≡ soundness (sound (register_in bytes.now)) }
{
    portal::guvrendik_sound_lent(bytes)
}

// The gate for an action, by the register that lent bytes hold.
#[unsafe(no_mangle)]
pub extern "C" fn guvrendik_gate_lent(bytes: &[u8], a: Action) -> GateAnswer
    ensures { result ≡ gate_answer (gated (register_in bytes.now) a) }
{
    portal::guvrendik_gate_lent(bytes, a)
}

// The gate for a plan, by the register that lent bytes hold.
#[unsafe(no_mangle)]
pub extern "C" fn guvrendik_judge_plan_lent(bytes: &[u8], p: Plan) -> PlanAnswer
    ensures { result ≡ plan_answer (planned (register_in bytes.now) p) }
{
    portal::guvrendik_judge_plan_lent(bytes, p)
}

// The plain gate for an action: the gate's answer, by a table filled claim by claim.
#[unsafe(no_mangle)]
pub extern "C" fn guvrendik_plain_gate(r: Register, a: Action) -> GateAnswer
    ensures { result ≡ gate_answer (gated r a) }
{
    portal::guvrendik_plain_gate(r, a)
}

// The plain gate for a plan.
#[unsafe(no_mangle)]
pub extern "C" fn guvrendik_plain_plan(r: Register, p: Plan) -> PlanAnswer
    ensures { result ≡ plan_answer (planned r p) }
{
    portal::guvrendik_plain_plan(r, p)
}

// The gate for a plan text, whose steps are actions and whole plans.
#[unsafe(no_mangle)]
pub extern "C" fn guvrendik_judge_plan_text(r: Register, text: &[u8]) -> PlanTextAnswer
    ensures { result ≡ plan_text_answer (plan_text_judged r text.now) }
{
    portal::guvrendik_judge_plan_text(r, text)
}

// Reads a text as a register.
#[unsafe(no_mangle)]
pub extern "C" fn guvrendik_read_register(text: &[u8]) -> RegisterAnswer
    ensures { result ≡ register_answer (register_read text.now) }
{
    portal::guvrendik_read_register(text)
}

// Reads a text as an action.
#[unsafe(no_mangle)]
pub extern "C" fn guvrendik_read_action(text: &[u8]) -> ActionAnswer
    ensures { result ≡ action_answer (action_read text.now) }
{
    portal::guvrendik_read_action(text)
}

// Writes the text of the register into the buffer.
#[unsafe(no_mangle)]
pub extern "C" fn guvrendik_write_register(r: Register, buffer: &mut [u8]) -> WrittenAnswer
    ensures answer { result ≡ written_answer (register_written r buffer.old) }
    ensures buffer { buffer.new ≡ register_buffer r buffer.old }
{
    portal::guvrendik_write_register(r, buffer)
}

// Puts the lines that 01's program prints of the two texts into the buffer.
#[unsafe(no_mangle)]
pub extern "C" fn guvrendik_verdict_text(
    register: &[u8],
    action: &[u8],
    buffer: &mut [u8],
) -> WrittenAnswer
    ensures answer { result ≡ written_answer (delivered (printed register.now action.now) buffer.old) }
    ensures buffer { buffer.new ≡ put 0 (printed register.now action.now) buffer.old }
{
    portal::guvrendik_verdict_text(register, action, buffer)
}

// Puts the lines that the program for JSON actions prints of the three texts into the buffer.
#[unsafe(no_mangle)]
pub extern "C" fn guvrendik_json_verdict_text(
    register: &[u8],
    clock: &[u8],
    action: &[u8],
    buffer: &mut [u8],
) -> WrittenAnswer
    ensures answer { result ≡ written_answer (delivered (json_printed register.now clock.now action.now) buffer.old) }
    ensures buffer { buffer.new ≡ put 0 (json_printed register.now clock.now action.now) buffer.old }
{
    portal::guvrendik_json_verdict_text(register, clock, action, buffer)
}

// Puts the lines that the program for plan texts prints of the two texts into the buffer.
#[unsafe(no_mangle)]
pub extern "C" fn guvrendik_plan_verdict_text(
    register: &[u8],
    plan: &[u8],
    buffer: &mut [u8],
) -> WrittenAnswer
    ensures answer { result ≡ written_answer (delivered (plan_printed register.now plan.now) buffer.old) }
    ensures buffer { buffer.new ≡ put 0 (plan_printed register.now plan.now) buffer.old }
{
    portal::guvrendik_plan_verdict_text(register, plan, buffer)
}

// Reads a JSON text of the builder's form as an action at the moment.
#[unsafe(no_mangle)]
pub extern "C" fn guvrendik_read_json(text: &[u8], moment: u64) -> JsonAnswer
    ensures { result ≡ json_answer (json_read text.now moment) }
{
    portal::guvrendik_read_json(text, moment)
}

// Writes the action with its id and kind into the buffer as a JSON text of the builder's form.
#[unsafe(no_mangle)]
pub extern "C" fn guvrendik_write_json(
    a: Action,
    id: &[u8],
    kind: u32,
    buffer: &mut [u8],
) -> WrittenAnswer
    ensures answer { result ≡ written_answer (json_written a id.now kind buffer.old) }
    ensures buffer { buffer.new ≡ json_buffer a id.now kind buffer.old }
{
    portal::guvrendik_write_json(a, id, kind, buffer)
}

// Attaches a fingerprint to the resource's number.
#[unsafe(no_mangle)]
pub extern "C" fn guvrendik_attach(
    book: Book,
    r: Register,
    actor: u32,
    resource: u32,
    moment: u64,
    fingerprint: Fingerprint,
) -> AttachAnswer
    ensures { result ≡ attach_answer (attached book r actor resource moment fingerprint.bytes) }
{
    portal::guvrendik_attach(book, r, actor, resource, moment, fingerprint)
}

// Fetches the fingerprint of the resource's number.
#[unsafe(no_mangle)]
pub extern "C" fn guvrendik_fetch(
    book: Book,
    r: Register,
    actor: u32,
    resource: u32,
    moment: u64,
) -> FetchAnswer
    ensures { result ≡ fetch_answer (fetched book r actor resource moment) }
{
    portal::guvrendik_fetch(book, r, actor, resource, moment)
}

// Who may make a use at a moment.
#[unsafe(no_mangle)]
pub extern "C" fn guvrendik_who(r: Register, usage: Usage, moment: u64) -> HoldersAnswer
    ensures { result ≡ holders_answer (who_held r usage moment) }
{
    portal::guvrendik_who(r, usage, moment)
}

// The cover table of the actor at the moment.
#[unsafe(no_mangle)]
pub extern "C" fn guvrendik_cover_table(r: Register, actor: u32, moment: u64) -> TableAnswer
    ensures { result ≡ table_answer (table_shown r actor moment) }
{
    portal::guvrendik_cover_table(r, actor, moment)
}

// Why an actor may make a use at a moment or may not.
#[unsafe(no_mangle)]
pub extern "C" fn guvrendik_why_use(
    r: Register,
    actor: u32,
    usage: Usage,
    moment: u64,
) -> UseReasonAnswer
    ensures { result ≡ use_reason_answer (use_told_of (why_use r actor usage moment)) }
{
    portal::guvrendik_why_use(r, actor, usage, moment)
}

// Puts what a refusal's number says into the buffer.
#[unsafe(no_mangle)]
pub extern "C" fn guvrendik_refusal_text(number: u32, buffer: &mut [u8]) -> WrittenAnswer
    ensures answer { result ≡ written_answer (delivered (refusal_text number) buffer.old) }
    ensures buffer { buffer.new ≡ put 0 (refusal_text number) buffer.old }
{
    portal::guvrendik_refusal_text(number, buffer)
}

// Puts what a violation's kind says into the buffer.
#[unsafe(no_mangle)]
pub extern "C" fn guvrendik_violation_text(kind: u32, buffer: &mut [u8]) -> WrittenAnswer
    ensures answer { result ≡ written_answer (delivered (violation_text kind) buffer.old) }
    ensures buffer { buffer.new ≡ put 0 (violation_text kind) buffer.old }
{
    portal::guvrendik_violation_text(kind, buffer)
}

// Puts a right's name into the buffer.
#[unsafe(no_mangle)]
pub extern "C" fn guvrendik_right_name(right: u32, buffer: &mut [u8]) -> WrittenAnswer
    ensures answer { result ≡ written_answer (delivered (right_name right) buffer.old) }
    ensures buffer { buffer.new ≡ put 0 (right_name right) buffer.old }
{
    portal::guvrendik_right_name(right, buffer)
}

// Puts a flag's name into the buffer.
#[unsafe(no_mangle)]
pub extern "C" fn guvrendik_flag_name(flag: u32, buffer: &mut [u8]) -> WrittenAnswer
    ensures answer { result ≡ written_answer (delivered (flag_name flag) buffer.old) }
    ensures buffer { buffer.new ≡ put 0 (flag_name flag) buffer.old }
{
    portal::guvrendik_flag_name(flag, buffer)
}

// The first fault of a register.
#[unsafe(no_mangle)]
pub extern "C" fn guvrendik_why_unsound(r: Register) -> Fault
    ensures { result ≡ fault_of r }
{
    portal::guvrendik_why_unsound(r)
}

// The first fault of a text that is to be a register.
#[unsafe(no_mangle)]
pub extern "C" fn guvrendik_why_unread(text: &[u8]) -> Fault
    ensures { result ≡ why_unread text.now }
{
    portal::guvrendik_why_unread(text)
}

// The version of these calls.
#[unsafe(no_mangle)]
pub extern "C" fn guvrendik_version() -> VersionNumbers
    ensures { result ≡ version_numbers }
{
    portal::guvrendik_version()
}
