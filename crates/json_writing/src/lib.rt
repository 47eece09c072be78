// An action written in the builder's JSON form into a lent buffer.
// The text is made in one pass on an array that every action in range fits, and then delivered
// whole or not at all.
#![tactic(auto)]

ghost use Rattle.std.specs.Prelude.{◌≡◌, ◌+◌, ◌≤◌, ◌<◌, length};
ghost use Rattle.lists.specs.Lists.{splice};
ghost use Rattle.buffers.specs.Buffers.{put};
ghost use Rattle.actions.specs.Actions.{uses_of};
ghost use Rattle.buffers.specs.Positions.{behind};
ghost use Rattle.buffers.specs.Delivery.{unwritten};
ghost use Rattle.json_rules.specs.Actions.{json_holds, json_written, json_buffer};
ghost use Rattle.json_writing.specs.Pieces.{kind_text, opening_text, resources_text, setting_text, flags_text, head_text, tail_text, resource_entry};

use actions::Action;
use buffers::Written;
use json_rules::JSON_TEXT;
use refusals::Refusal;

// Whether the form has a place for all of the action: no right above 2, nothing governed.
fn has_place(a: Action) -> bool
    ensures { result ≡ json_holds a }
{
    if a.governed != 0 {
        return false;
    }
    let top = a.used.min(Action::USES);
    for u in &a.uses[..top] {
        if rights::EXECUTE < u.right {
            return false;
        }
    }
    true
}

// Puts the name of a kind into the buffer at `at`, and answers the position behind it.
fn put_kind(buf: &mut [u8], at: usize, kind: u32) -> usize
    ensures behind { result ≡ behind at (kind_text kind) buf.old }
    ensures written { buf.new ≡ put at (kind_text kind) buf.old }
{
    match kind {
        0 => buffers::put_bytes(buf, at, b"READ"),
        1 => buffers::put_bytes(buf, at, b"WRITE"),
        2 => buffers::put_bytes(buf, at, b"EXECUTE"),
        3 => buffers::put_bytes(buf, at, b"DELETE"),
        4 => buffers::put_bytes(buf, at, b"DELEGATE"),
        5 => buffers::put_bytes(buf, at, b"NETWORK_EGRESS"),
        6 => buffers::put_bytes(buf, at, b"NETWORK_INGRESS"),
        7 => buffers::put_bytes(buf, at, b"FILE_SYSTEM"),
        8 => buffers::put_bytes(buf, at, b"PROCESS_SPAWN"),
        9 => buffers::put_bytes(buf, at, b"MEMORY_WRITE"),
        10 => buffers::put_bytes(buf, at, b"CREDENTIAL_READ"),
        11 => buffers::put_bytes(buf, at, b"CREDENTIAL_WRITE"),
        12 => buffers::put_bytes(buf, at, b"AUDIT_READ"),
        13 => buffers::put_bytes(buf, at, b"AUDIT_WRITE"),
        14 => buffers::put_bytes(buf, at, b"POLICY_READ"),
        15 => buffers::put_bytes(buf, at, b"REGISTRY_MODIFY"),
        16 => buffers::put_bytes(buf, at, b"POLICY_MODIFY"),
        _ => at,
    }
}

// Puts the quote before a resource's number into the buffer at `at`, with a comma before it where the number is not the first, and answers the
// position behind it.
fn put_opening(buf: &mut [u8], at: usize, first: bool) -> usize
    ensures behind { result ≡ behind at (opening_text first) buf.old }
    ensures written { buf.new ≡ put at (opening_text first) buf.old }
{
    if first {
        return buffers::put_bytes(buf, at, b"\"");
    }
    buffers::put_bytes(buf, at, b",\"")
}

// Puts a resource's number in quotes into the buffer at `at`, with a comma before it where it is not the first, and answers the position
// behind it.
fn put_resource(buf: &mut [u8], at: usize, first: bool, resource: u32) -> usize
    requires { at + length (resource_entry first resource) ≤ length buf.old }
    ensures behind { result ≡ at + length (resource_entry first resource) }
    ensures written { buf.new ≡ splice at (resource_entry first resource) buf.old }
{
    let number_at = put_opening(buf, at, first);
    let end = buffers::put_number(buf, number_at, resource as u64);
    buffers::put_bytes(buf, end, b"\"")
}

// Puts the resources that are used with a right into the buffer at `at`, and answers the position behind them.
fn put_resources(buf: &mut [u8], at: usize, a: Action, right: u32) -> usize
    requires { at + length (resources_text right (uses_of a)) ≤ length buf.old }
    ensures behind { result ≡ at + length (resources_text right (uses_of a)) }
    ensures written { buf.new ≡ splice at (resources_text right (uses_of a)) buf.old }
{
    let top = a.used.min(Action::USES);
    let mut end = at;
    let mut first = true;
    for u in &a.uses[..top] {
        if u.right == right {
            end = put_resource(buf, end, first, u.resource);
            first = false;
        }
    }
    end
}

// Puts what leads to a flag, its name and colon among it, and whether the flag is set into the buffer at `at`, and answers the position
// behind them.
fn put_setting(buf: &mut [u8], at: usize, name: &[u8], flags: u32, flag: u32) -> usize
    requires { (at + length (setting_text name.now flags flag) ≤ length buf.old) × (flag < 32) }
    ensures behind { result ≡ at + length (setting_text name.now flags flag) }
    ensures written { buf.new ≡ splice at (setting_text name.now flags flag) buf.old }
{
    let word_at = buffers::put_bytes(buf, at, name);
    if (flags >> flag) % 2 == 1 {
        buffers::put_bytes(buf, word_at, b"true")
    } else {
        buffers::put_bytes(buf, word_at, b"false")
    }
}

// Puts the ten flags into the buffer at `at`, and answers the position behind them.
fn put_flags(buf: &mut [u8], at: usize, flags: u32) -> usize
    requires { at + length (flags_text flags) ≤ length buf.old }
    ensures behind { result ≡ at + length (flags_text flags) }
    ensures written { buf.new ≡ splice at (flags_text flags) buf.old }
{
    let resists = put_setting(buf, at, b"\"increases_machine_sovereignty\":", flags, 0);
    let bypasses = put_setting(buf, resists, b",\"resists_human_correction\":", flags, 1);
    let weakens = put_setting(buf, bypasses, b",\"bypasses_verifier\":", flags, 2);
    let disables = put_setting(buf, weakens, b",\"weakens_verifier\":", flags, 3);
    let dominion = put_setting(buf, disables, b",\"disables_corrigibility\":", flags, 4);
    let coerces = put_setting(buf, dominion, b",\"machine_coalition_dominion\":", flags, 5);
    let deceives = put_setting(buf, coerces, b",\"coerces\":", flags, 6);
    let modification = put_setting(buf, deceives, b",\"deceives\":", flags, 7);
    let reduces = put_setting(
        buf,
        modification,
        b",\"self_modification_weakens_verifier\":",
        flags,
        8,
    );
    put_setting(
        buf,
        reduces,
        b",\"machine_coalition_reduces_freedom\":",
        flags,
        9,
    )
}

// Puts the text of an action up to its resources into the buffer, and answers the position behind it.
fn put_head(buf: &mut [u8], actor: u32, id: &[u8], kind: u32) -> usize
    requires { length (head_text actor id.now kind) ≤ length buf.old }
    ensures behind { result ≡ length (head_text actor id.now kind) }
    ensures written { buf.new ≡ splice 0 (head_text actor id.now kind) buf.old }
{
    let id_at = buffers::put_bytes(buf, 0, b"{\"id\":\"");
    let id_end = buffers::put_bytes(buf, id_at, id);
    let actor_at = buffers::put_bytes(buf, id_end, b"\",\"actor\":\"");
    let actor_end = buffers::put_number(buf, actor_at, actor as u64);
    let kind_at = buffers::put_bytes(buf, actor_end, b"\",\"capability_kind\":\"");
    let kind_end = put_kind(buf, kind_at, kind);
    buffers::put_bytes(buf, kind_end, b"\",\"resources_read\":[")
}

// Puts the text of an action from its resources on into the buffer at `at`, and answers the position behind it.
fn put_tail(buf: &mut [u8], at: usize, a: Action) -> usize
    requires { at + length (tail_text a) ≤ length buf.old }
    ensures behind { result ≡ at + length (tail_text a) }
    ensures written { buf.new ≡ splice at (tail_text a) buf.old }
{
    let read_end = put_resources(buf, at, a, rights::READ);
    let write_at = buffers::put_bytes(buf, read_end, b"],\"resources_write\":[");
    let write_end = put_resources(buf, write_at, a, rights::WRITE);
    let execute_at = buffers::put_bytes(buf, write_end, b"],\"resources_execute\":[");
    let execute_end = put_resources(buf, execute_at, a, rights::EXECUTE);
    let flags_at = buffers::put_bytes(buf, execute_end, b"],\"flags\":{");
    let flags_end = put_flags(buf, flags_at, a.flags);
    buffers::put_bytes(
        buf,
        flags_end,
        b"},\"trust_domain\":\"default\",\"delegation_depth\":0}",
    )
}

// A refused write: nothing was written.
fn refused(why: Refusal) -> Written
    ensures { result ≡ unwritten why }
{
    Written {
        outcome: Err(why),
        length: 0,
    }
}

// Writes the text of the action with its id and kind into the buffer.
pub fn write_json(a: Action, id: &[u8], kind: u32, buf: &mut [u8]) -> Written
    ensures answer { result ≡ json_written a id.now kind buf.old }
    ensures buffer { buf.new ≡ json_buffer a id.now kind buf.old }
{
    if !(actions::action_fits(a) & json_rules::is_id(id) & (kind <= rights::POLICY_MODIFY)) {
        return refused(Refusal::Range);
    }
    if !has_place(a) {
        return refused(Refusal::JsonLacks);
    }
    let mut sheet = [0u8; JSON_TEXT];
    let head_end = put_head(&mut sheet, a.actor, id, kind);
    let length = put_tail(&mut sheet, head_end, a);
    buffers::deliver(buf, &sheet[..length])
}
