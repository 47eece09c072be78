// The names of the builder's form: the places of an action's keys, of the kinds and of the flags.
ghost use Rattle.std.specs.Prelude.{◌≡◌};
ghost use Rattle.json_rules.specs.Names.{key_names, kind_names, flag_names, place_of};

// The keys by their places, and how many there are.
pub(crate) const ID: usize = 0;

pub(crate) const ACTOR: usize = 1;

pub(crate) const KIND: usize = 2;

pub(crate) const READS: usize = 3;

pub(crate) const WRITES: usize = 4;

pub(crate) const EXECUTES: usize = 5;

pub(crate) const SETTINGS: usize = 6;

pub(crate) const DOMAIN: usize = 7;

const DEPTH: usize = 8;

pub(crate) const KEYS: usize = 9;

// How many flags there are.
pub(crate) const FLAGS: usize = 10;

// The place of a key's name.
pub(crate) fn key_place(x: &[u8]) -> usize
    ensures { result ≡ place_of key_names x.now }
{
    if lists::is_same(x, b"id") {
        return ID;
    }
    if lists::is_same(x, b"actor") {
        return ACTOR;
    }
    if lists::is_same(x, b"capability_kind") {
        return KIND;
    }
    if lists::is_same(x, b"resources_read") {
        return READS;
    }
    if lists::is_same(x, b"resources_write") {
        return WRITES;
    }
    if lists::is_same(x, b"resources_execute") {
        return EXECUTES;
    }
    if lists::is_same(x, b"flags") {
        return SETTINGS;
    }
    if lists::is_same(x, b"trust_domain") {
        return DOMAIN;
    }
    if lists::is_same(x, b"delegation_depth") {
        return DEPTH;
    }
    KEYS
}

// The place of a flag's name.
pub(crate) fn flag_place(x: &[u8]) -> usize
    ensures { result ≡ place_of flag_names x.now }
{
    if lists::is_same(x, b"increases_machine_sovereignty") {
        return 0;
    }
    if lists::is_same(x, b"resists_human_correction") {
        return 1;
    }
    if lists::is_same(x, b"bypasses_verifier") {
        return 2;
    }
    if lists::is_same(x, b"weakens_verifier") {
        return 3;
    }
    if lists::is_same(x, b"disables_corrigibility") {
        return 4;
    }
    if lists::is_same(x, b"machine_coalition_dominion") {
        return 5;
    }
    if lists::is_same(x, b"coerces") {
        return 6;
    }
    if lists::is_same(x, b"deceives") {
        return 7;
    }
    if lists::is_same(x, b"self_modification_weakens_verifier") {
        return 8;
    }
    if lists::is_same(x, b"machine_coalition_reduces_freedom") {
        return 9;
    }
    FLAGS
}

// The place of a kind's name.
pub(crate) fn kind_place(x: &[u8]) -> u32
    ensures { result ≡ place_of kind_names x.now }
{
    if lists::is_same(x, b"READ") {
        return rights::READ;
    }
    if lists::is_same(x, b"WRITE") {
        return rights::WRITE;
    }
    if lists::is_same(x, b"EXECUTE") {
        return rights::EXECUTE;
    }
    if lists::is_same(x, b"DELETE") {
        return rights::DELETE;
    }
    if lists::is_same(x, b"DELEGATE") {
        return rights::DELEGATE;
    }
    if lists::is_same(x, b"NETWORK_EGRESS") {
        return rights::NETWORK_EGRESS;
    }
    if lists::is_same(x, b"NETWORK_INGRESS") {
        return rights::NETWORK_INGRESS;
    }
    if lists::is_same(x, b"FILE_SYSTEM") {
        return rights::FILE_SYSTEM;
    }
    if lists::is_same(x, b"PROCESS_SPAWN") {
        return rights::PROCESS_SPAWN;
    }
    if lists::is_same(x, b"MEMORY_WRITE") {
        return rights::MEMORY_WRITE;
    }
    if lists::is_same(x, b"CREDENTIAL_READ") {
        return rights::CREDENTIAL_READ;
    }
    if lists::is_same(x, b"CREDENTIAL_WRITE") {
        return rights::CREDENTIAL_WRITE;
    }
    if lists::is_same(x, b"AUDIT_READ") {
        return rights::AUDIT_READ;
    }
    if lists::is_same(x, b"AUDIT_WRITE") {
        return rights::AUDIT_WRITE;
    }
    if lists::is_same(x, b"POLICY_READ") {
        return rights::POLICY_READ;
    }
    if lists::is_same(x, b"REGISTRY_MODIFY") {
        return rights::REGISTRY_MODIFY;
    }
    if lists::is_same(x, b"POLICY_MODIFY") {
        return rights::POLICY_MODIFY;
    }
    17
}
