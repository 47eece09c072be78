// The text of a register, written into a lent buffer.
// The text is made in one pass, the claims from the sheet that they were judged on, in an array that
// the text of every sound register fits, and then delivered whole or not at all.
#![tactic(auto)]

ghost use Rattle.std.specs.Prelude.{◌≡◌, true, cond, ◌+◌, ◌≤◌, length, take};
ghost use Rattle.lists.specs.Lists.{splice};
ghost use Rattle.register.specs.Limits.{actor_limit, resource_limit, claim_limit, path_limit, tells_left};
ghost use Rattle.register.specs.Register.{actors_of, resources_of, path_of};
ghost use Rattle.columns.specs.Sheet.{claims_in};
ghost use Rattle.soundness_rules.specs.Sound.{sound};
ghost use Rattle.soundness.specs.Judged.{register_by};
ghost use Rattle.lines.specs.Lines.{decimal_line, scope_line};
ghost use Rattle.buffers.specs.Buffers.{put};
ghost use Rattle.buffers.specs.Positions.{behind};
ghost use Rattle.text_rules.specs.Keys.{actors_key, resources_key, claims_key, left_key};
ghost use Rattle.text_rules.specs.Records.{section_text};
ghost use Rattle.text_rules.specs.Registers.{actor_text, resource_text, claim_text, register_text, text_limit};
ghost use Rattle.register_writing.specs.Writing.{register_written, register_buffer};
ghost use Rattle.register_writing.specs.Lengths.{paths_fit};

use buffers::Written;
use refusals::Refusal;
use register::{Actor, Actors, Claim, Register, Resource, Resources};

// Puts the line of a resource's path into the buffer at `at`, and answers the position behind it.
fn put_scope(buf: &mut [u8], at: usize, o: Resource) -> usize
    requires { (at + length (scope_line (path_of o)) ≤ length buf.old) × (o.len ≤ path_limit) }
    ensures behind { result ≡ at + length (scope_line (path_of o)) }
    ensures written { buf.new ≡ splice at (scope_line (path_of o)) buf.old }
{
    let path_at = buffers::put_bytes(buf, at, b"scope=");
    let end_at = buffers::put_bytes(buf, path_at, &o.path[..o.len as usize]);
    buffers::put_bytes(buf, end_at, b"\n")
}

// Puts an actor's lines into the buffer at `at`, and answers the position behind them.
fn put_actor(buf: &mut [u8], at: usize, a: Actor) -> usize
    requires { at + length (actor_text a) ≤ length buf.old }
    ensures behind { result ≡ at + length (actor_text a) }
    ensures written { buf.new ≡ splice at (actor_text a) buf.old }
{
    let kind_at = buffers::put_line(buf, at, b"actor=", a.id as u64);
    let owner_at = buffers::put_kind(buf, kind_at, a.kind);
    buffers::put_line(buf, owner_at, b"owner=", a.owner as u64)
}

// Puts a resource's lines into the buffer at `at`, and answers the position behind them.
fn put_resource(buf: &mut [u8], at: usize, o: Resource) -> usize
    requires { (at + length (resource_text o) ≤ length buf.old) × (o.len ≤ path_limit) }
    ensures behind { result ≡ at + length (resource_text o) }
    ensures written { buf.new ≡ splice at (resource_text o) buf.old }
{
    let public_at = buffers::put_line(buf, at, b"resource=", o.id as u64);
    let keeper_at = buffers::put_line(buf, public_at, b"public=", o.public as u64);
    let scope_at = buffers::put_line(buf, keeper_at, b"keeper=", o.keeper as u64);
    put_scope(buf, scope_at, o)
}

// In version 2 puts the line `left` into the buffer at `at`, where it fits, and answers the position behind it. Otherwise there is none.
fn put_left(buf: &mut [u8], at: usize, version: u64, left: u32) -> usize
    ensures behind { result ≡ cond (tells_left version) (behind at (decimal_line left_key left) buf.old) at }
    ensures written { buf.new ≡ cond (tells_left version) (put at (decimal_line left_key left) buf.old) buf.old }
{
    if version == Register::VERSION_TWO {
        return buffers::put_line(buf, at, b"left=", left as u64);
    }
    at
}

// Puts a claim's lines in a version into the buffer at `at`, and answers the position behind them.
fn put_claim(buf: &mut [u8], at: usize, version: u64, c: Claim) -> usize
    requires { at + length (claim_text version c) ≤ length buf.old }
    ensures behind { result ≡ at + length (claim_text version c) }
    ensures written { buf.new ≡ splice at (claim_text version c) buf.old }
{
    let parent_at = buffers::put_line(buf, at, b"claim=", c.id as u64);
    let grantor_at = buffers::put_line(buf, parent_at, b"parent=", c.parent as u64);
    let holder_at = buffers::put_line(buf, grantor_at, b"grantor=", c.grantor as u64);
    let resource_at = buffers::put_line(buf, holder_at, b"holder=", c.holder as u64);
    let rights_at = buffers::put_line(buf, resource_at, b"resource=", c.resource as u64);
    let weight_at = buffers::put_line(buf, rights_at, b"rights=", c.rights as u64);
    let left_at = buffers::put_line(buf, weight_at, b"weight=", c.weight as u64);
    let expiry_at = put_left(buf, left_at, version, c.left);
    buffers::put_line(buf, expiry_at, b"expiry=", c.expiry)
}

// Puts the count line and the actors into the buffer at `at`, and answers the position behind them.
fn put_actors(buf: &mut [u8], at: usize, k: Actors) -> usize
    requires { (at + length (section_text actors_key actor_limit actor_text (actors_of k)) ≤ length buf.old) × (k.count ≤ actor_limit) }
    ensures behind { result ≡ at + length (section_text actors_key actor_limit actor_text (actors_of k)) }
    ensures written { buf.new ≡ splice at (section_text actors_key actor_limit actor_text (actors_of k)) buf.old }
{
    let mut end = buffers::put_line(buf, at, b"actors=", k.count as u64);
    for a in &k.list[..k.count] {
        end = put_actor(buf, end, *a);
    }
    end
}

// Puts the count line and the resources into the buffer at `at`, and answers the position behind them.
fn put_resources(buf: &mut [u8], at: usize, k: Resources) -> usize
    requires { (at + length (section_text resources_key resource_limit resource_text (resources_of k)) ≤ length buf.old) × (k.count ≤ resource_limit) × (paths_fit k ≡ true) }
    ensures behind { result ≡ at + length (section_text resources_key resource_limit resource_text (resources_of k)) }
    ensures written { buf.new ≡ splice at (section_text resources_key resource_limit resource_text (resources_of k)) buf.old }
{
    let mut end = buffers::put_line(buf, at, b"resources=", k.count as u64);
    for o in &k.list[..k.count] {
        end = put_resource(buf, end, *o);
    }
    end
}

// Puts the count line and the first `n` claims of a sheet into the buffer at `at`, and answers the position behind them.
fn put_claims(buf: &mut [u8], at: usize, version: u64, sheet: &[u32], n: usize) -> usize
    requires { (at + length (section_text claims_key claim_limit (claim_text version) (take n (claims_in sheet.now))) ≤ length buf.old) × (n ≤ claim_limit) }
    ensures behind { result ≡ at + length (section_text claims_key claim_limit (claim_text version) (take n (claims_in sheet.now))) }
    ensures written { buf.new ≡ splice at (section_text claims_key claim_limit (claim_text version) (take n (claims_in sheet.now))) buf.old }
{
    let mut end = buffers::put_line(buf, at, b"claims=", n as u64);
    for i in 0..n {
        end = put_claim(buf, end, version, columns::claim_at(sheet, i));
    }
    end
}

// Writes the text of the sound register of these parts at the front of a buffer that every such text fits, and answers its length.
fn compose(buf: &mut [u8], version: u64, a: Actors, o: Resources, sheet: &[u32], n: usize) -> usize
    requires { (sound (register_by version a o sheet.now n) ≡ true) × (text_limit ≤ length buf.old) }
    ensures length { result ≡ length (register_text (register_by version a o sheet.now n)) }
    ensures written { buf.new ≡ splice 0 (register_text (register_by version a o sheet.now n)) buf.old }
{
    let actors_at = buffers::put_line(buf, 0, b"register=", version);
    let resources_at = put_actors(buf, actors_at, a);
    let claims_at = put_resources(buf, resources_at, o);
    put_claims(buf, claims_at, version, sheet, n)
}

// Writes the text of a register at the front of the lent buffer, and answers its length. Refused, and the buffer is as it was: with 1 a
// register that is not sound, then with 21 a buffer that is too short.
pub fn write(r: Register, buf: &mut [u8]) -> Written
    ensures answer { result ≡ register_written r buf.old }
    ensures buffer { buf.new ≡ register_buffer r buf.old }
{
    let mut sheet = [0u32; columns::SHEET];
    let found = soundness::examine(&mut sheet, r.version, r.actors, r.resources, r.claims);
    if !found.sound {
        return Written {
            outcome: Err(Refusal::Unsound),
            length: 0,
        };
    }
    let mut made = [0u8; text_rules::REGISTER_TEXT];
    let length = compose(
        &mut made,
        r.version,
        r.actors,
        r.resources,
        &sheet,
        r.claims.count,
    );
    buffers::deliver(buf, &made[..length])
}
