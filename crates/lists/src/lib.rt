// Definitions and laws over lists of any element.
// Of code there is whether two lists of bytes are the same.
#![tactic(auto)]

ghost use Rattle.std.specs.Prelude.{◌≡◌};
ghost use Rattle.lists.specs.Lists.{same};

// Whether the two lists of bytes are the same. Byte by byte: the library's `==` goes by groups of 32 bytes, which takes twice as long where a
// processor has no steps over many bytes, as WebAssembly.
pub fn is_same(a: &[u8], b: &[u8]) -> bool
    ensures { result ≡ same a.now b.now }
{
    if a.len() != b.len() {
        return false;
    }
    for i in 0..a.len() {
        if a[i] != b[i] {
            return false;
        }
    }
    true
}
