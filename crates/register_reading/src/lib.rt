// A register read from a lent text of any length and content.
// In one pass: the first failing line decides, soundness comes last. The claims that are read tell
// the hands that they have left, also in version 1, where the text does not.
#![tactic(auto)]

ghost use Rattle.std.specs.Prelude.{ℕ, ◌≡◌, ◌≤◌, ◌<◌, length, replicate, Err};
ghost use Rattle.register.specs.Limits.{claim_limit};
ghost use Rattle.register.specs.Register.{no_actor, no_resource, no_claim, empty_register};
ghost use Rattle.lines.specs.Reading.{State, Read};
ghost use Rattle.lines.specs.Answers.{FieldSays};
ghost use Rattle.text_rules.specs.Keys.{claims_key};
ghost use Rattle.text_rules.specs.Records.{section};
ghost use Rattle.lines.specs.Answers.{state_of};
ghost use Rattle.text_rules.specs.Registers.{read_actor, read_resource, read_claim, read_actors, read_resources, read_claims, held_actors, held_resources, held_claims, register_read};
ghost use Rattle.text_rules.specs.Registers.{register_ending, register_from};
ghost use Rattle.register_reading.specs.Reads.{Reads, Fills};
ghost use Rattle.register_reading.specs.Lefts.{read_left, hops_by, links_of, stored_in};

use lines::{Cursor, Reading};
use refusals::Refusal;
use register::{
    Actor, Actors, Claim, Claims, ID_LIMIT, LEFT_LIMIT, Register, Resource, Resources, WEIGHT_LIMIT,
};
use rights::RIGHTS_LIMIT;
use text_rules::{LAST_MOMENT, RegisterRead};

// Who is drawn from whom: the ids and the parents of the claims.
#[derive(Clone, Copy)]
struct Links {
    ids: [u32; Register::CLAIMS],
    parents: [u32; Register::CLAIMS],
}

// The register that a text's lines say, and where the reading then stands: at the end of the text, or where it failed.
#[derive(Clone, Copy)]
pub struct RegisterForm {
    pub register: Register,
    pub cursor: Cursor,
}

// A kind of thing that a text lists: what stands where none was read, and one read by its lines, in a text of the version.
trait Record: Copy {
    ghost absent: { Self };

    ghost reads: { ℕ → State → Read Self };

    fn none() -> Self
        ensures { result ≡ absent };

    fn read(version: u64, s: &[u8], c: Cursor) -> Reading<Self>
        ensures { Reads s.now result.value result.cursor (reads version (state_of s.now c)) };
}

impl Record for Actor {
    ghost absent = { no_actor };

    ghost reads = { λ version. read_actor };

    fn none() -> Actor {
        Actor {
            id: 0,
            kind: 0,
            owner: 0,
        }
    }

    // The lines `actor`, `kind`, `owner`.
    fn read(_version: u64, s: &[u8], c: Cursor) -> Reading<Actor> {
        let id = lines::read_number(s, c, b"actor=", 1, ID_LIMIT);
        let kind = lines::read_kind(s, id.cursor);
        let owner = lines::read_number(s, kind.cursor, b"owner=", 0, ID_LIMIT);
        let actor = Actor {
            id: id.value,
            kind: kind.value,
            owner: owner.value,
        };
        Reading {
            value: actor,
            cursor: owner.cursor,
        }
    }
}

impl Record for Resource {
    ghost absent = { no_resource };

    ghost reads = { λ version. read_resource };

    fn none() -> Resource {
        Resource {
            id: 0,
            public: 0,
            keeper: 0,
            len: 0,
            path: [0; Register::PATH],
        }
    }

    // The lines `resource`, `public`, `keeper`, `scope`.
    fn read(_version: u64, s: &[u8], c: Cursor) -> Reading<Resource> {
        let id = lines::read_number(s, c, b"resource=", 1, ID_LIMIT);
        let public = lines::read_number(s, id.cursor, b"public=", 0, 1);
        let keeper = lines::read_number(s, public.cursor, b"keeper=", 1, ID_LIMIT);
        let scope = lines::read_scope(s, keeper.cursor);
        let path = scope.path;
        let resource = Resource {
            id: id.value,
            public: public.value,
            keeper: keeper.value,
            len: scope.len as u32,
            path,
        };
        Reading {
            value: resource,
            cursor: scope.cursor,
        }
    }
}

// In version 2 the line `left`. Otherwise there is none, and 0 stands for it.
fn read_left(version: u64, s: &[u8], c: Cursor) -> Reading<u32>
    ensures { FieldSays s.now result (read_left version (state_of s.now c)) }
{
    if version == Register::VERSION_TWO {
        return lines::read_number(s, c, b"left=", 0, LEFT_LIMIT);
    }
    Reading {
        value: 0,
        cursor: c,
    }
}

impl Record for Claim {
    ghost absent = { no_claim };

    ghost reads = { read_claim };

    fn none() -> Claim {
        Claim::none()
    }

    // The lines `claim`, `parent`, `grantor`, `holder`, `resource`, `rights`, `weight`, in version 2 `left`, `expiry`.
    fn read(version: u64, s: &[u8], c: Cursor) -> Reading<Claim> {
        let id = lines::read_number(s, c, b"claim=", 1, ID_LIMIT);
        let parent = lines::read_number(s, id.cursor, b"parent=", 0, ID_LIMIT);
        let grantor = lines::read_number(s, parent.cursor, b"grantor=", 1, ID_LIMIT);
        let holder = lines::read_number(s, grantor.cursor, b"holder=", 1, ID_LIMIT);
        let resource = lines::read_number(s, holder.cursor, b"resource=", 1, ID_LIMIT);
        let rights = lines::read_number(s, resource.cursor, b"rights=", 1, RIGHTS_LIMIT);
        let weight = lines::read_number(s, rights.cursor, b"weight=", 0, WEIGHT_LIMIT);
        let left = read_left(version, s, weight.cursor);
        let expiry = lines::read_number(s, left.cursor, b"expiry=", 0, LAST_MOMENT);
        let claim = Claim {
            id: id.value,
            parent: parent.value,
            grantor: grantor.value,
            holder: holder.value,
            resource: resource.value,
            rights: rights.value,
            weight: weight.value,
            left: left.value,
            expiry: expiry.value as u64,
        };
        Reading {
            value: claim,
            cursor: expiry.cursor,
        }
    }
}

// The line of `key` with a count, and that many things, put into the list from its front.
fn read_section<T: Record, const N: usize>(
    version: u64,
    s: &[u8],
    c: Cursor,
    key: &[u8],
    list: &mut [T; N],
) -> Reading<usize>
    requires short { N < 4294967296 }
    requires empty { list.old ≡ replicate N T.absent }
    ensures { Fills s.now N T.absent list.new result.value result.cursor (section key.now N (T.reads version) (state_of s.now c)) }
{
    let counted = lines::read_count(s, c, key, N as u32);
    let count = counted.value as usize;
    let mut cursor = counted.cursor;
    for i in 0..count {
        let one = T::read(version, s, cursor);
        list[i] = one.value;
        cursor = one.cursor;
    }
    Reading {
        value: count,
        cursor,
    }
}

// The line `actors` and that many actors.
fn read_actors(version: u64, s: &[u8], c: Cursor) -> Reading<Actors>
    ensures actors { result.value ≡ held_actors (read_actors (state_of s.now c)).value }
    ensures state { state_of s.now result.cursor ≡ (read_actors (state_of s.now c)).state }
{
    let mut list = [Actor::none(); Register::ACTORS];
    let counted = read_section(version, s, c, b"actors=", &mut list);
    Reading {
        value: Actors {
            list,
            count: counted.value,
        },
        cursor: counted.cursor,
    }
}

// The line `resources` and that many resources.
fn read_resources(version: u64, s: &[u8], c: Cursor) -> Reading<Resources>
    ensures resources { result.value ≡ held_resources (read_resources (state_of s.now c)).value }
    ensures state { state_of s.now result.cursor ≡ (read_resources (state_of s.now c)).state }
{
    let mut list = [Resource::none(); Register::RESOURCES];
    let counted = read_section(version, s, c, b"resources=", &mut list);
    Reading {
        value: Resources {
            list,
            count: counted.value,
        },
        cursor: counted.cursor,
    }
}

// The line `claims` and that many claims, as their lines say them.
fn read_listed(version: u64, s: &[u8], c: Cursor) -> Reading<Claims>
    ensures few { result.value.count ≤ claim_limit }
    ensures claims { result.value ≡ held_claims (section claims_key claim_limit (read_claim version) (state_of s.now c)).value }
    ensures state { state_of s.now result.cursor ≡ (section claims_key claim_limit (read_claim version) (state_of s.now c)).state }
{
    let mut list = [Claim::none(); Register::CLAIMS];
    let counted = read_section(version, s, c, b"claims=", &mut list);
    Reading {
        value: Claims {
            list,
            count: counted.value,
        },
        cursor: counted.cursor,
    }
}

// How many hops a claim has, by its parent's number, the parent's place and the hops of the claims before it: none where it is a root, and
// where its parent does not stand.
fn hops_by(hops: &[u8], parent: u32, up: usize) -> usize
    requires { length hops.now ≡ claim_limit }
    ensures { result ≡ hops_by hops.now parent up }
{
    if parent == 0 || Register::CLAIMS <= up {
        return 0;
    }
    hops[up] as usize + 1
}

// The ids and the parents of claims, each at its claim's place.
fn links_of(k: Claims) -> Links
    ensures { result ≡ links_of k.list }
{
    let mut found = Links {
        ids: [0; Register::CLAIMS],
        parents: [0; Register::CLAIMS],
    };
    for i in 0..Register::CLAIMS {
        found.ids[i] = k.list[i].id;
        found.parents[i] = k.list[i].parent;
    }
    found
}

// Claims as a register holds them, each with the hands that it has left, in the list that they came in. The hops of the claims that were passed
// are kept.
fn stored_claims(version: u64, k: Claims) -> Claims
    requires { k.count ≤ claim_limit }
    ensures { result ≡ stored_in version k }
{
    let n = k.count;
    let drawn = links_of(k);
    let earlier = lookup::earlier_places(&drawn.ids, &drawn.parents, n);
    let mut list = k.list;
    let mut hops = [0u8; Register::CLAIMS];
    for i in 0..n {
        let c = list[i];
        let steps = hops_by(&hops, c.parent, earlier.places[i] as usize);
        list[i] = claim_judging::stored(version, steps, c);
        hops[i] = steps as u8;
    }
    Claims { list, count: n }
}

// The line `claims` and that many claims, each with the hands that it has left.
fn read_claims(version: u64, s: &[u8], c: Cursor) -> Reading<Claims>
    ensures claims { result.value ≡ held_claims (read_claims version (state_of s.now c)).value }
    ensures state { state_of s.now result.cursor ≡ (read_claims version (state_of s.now c)).state }
{
    let listed = read_listed(version, s, c);
    Reading {
        value: stored_claims(version, listed.value),
        cursor: listed.cursor,
    }
}

// A refused reading: the empty register.
fn refused(why: Refusal, line: usize) -> RegisterRead
    ensures { result ≡ record { register = empty_register; outcome = Err why; line = line } }
{
    RegisterRead {
        register: Register::empty(),
        outcome: Err(why),
        line,
    }
}

// The answer, by where the reading ended: soundness comes last, with 1 and line 0.
fn answer(s: &[u8], c: Cursor, register: Register) -> RegisterRead
    ensures { result ≡ register_ending register (state_of s.now c) }
{
    if !lines::goes_on(s, c) {
        return refused(c.refusal, c.line);
    }
    if !soundness::is_sound(register) {
        return refused(Refusal::Unsound, 0);
    }
    RegisterRead {
        register,
        outcome: Ok(()),
        line: 0,
    }
}

// Reads the lines of a register, whatever it says: it is not judged.
pub fn read_form(text: &[u8]) -> RegisterForm
    ensures register { result.register ≡ (register_from text.now).value }
    ensures state { state_of text.now result.cursor ≡ (register_from text.now).state }
{
    let told = lines::read_number(
        text,
        lines::start(),
        b"register=",
        Register::VERSION_ONE as u32,
        Register::VERSION_TWO as u32,
    );
    let version = told.value as u64;
    let first = read_actors(version, text, told.cursor);
    let second = read_resources(version, text, first.cursor);
    let third = read_claims(version, text, second.cursor);
    let cursor = lines::finish(text, third.cursor);
    let register = Register {
        actors: first.value,
        resources: second.value,
        claims: third.value,
        version,
    };
    RegisterForm { register, cursor }
}

// Reads a text as a register.
pub fn read_register(text: &[u8]) -> RegisterRead
    ensures { result ≡ register_read text.now }
{
    let form = read_form(text);
    answer(text, form.cursor, form.register)
}
