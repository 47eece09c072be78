// The paths of the resources laid one after the other in one lent column, 64 bytes to a resource, and the path at a place of it.
// Containment of any two is judged on parts of that column.
ghost use Rattle.std.specs.Prelude.{◌≡◌, length, cond, ◌+◌, ◌≤◌, eqb};
ghost use Rattle.std.proofs.Math.Seq.{paste};
ghost use Rattle.lists.specs.Lists.{All};
ghost use Rattle.register.specs.Limits.{path_limit};
ghost use Rattle.paths.specs.Containment.{reach_between};
ghost use Rattle.coverage.specs.Laid.{bytes_limit, laid_in, lens_of, part_at};

use crate::BYTES;
use register::{Register, Resource, Resources};

// Writes a path's 64 bytes at `at`, into a buffer of the length that all paths take.
fn put_path(bytes: &mut [u8], at: usize, o: Resource)
    requires { at + path_limit ≤ bytes_limit }
    ensures { (length o.path ≡ path_limit) × (bytes.new ≡ cond (eqb (length bytes.old) bytes_limit) (paste bytes.old at o.path path_limit) bytes.old) }
{
    if bytes.len() != BYTES {
        return;
    }
    for i in 0..Register::PATH {
        bytes[at + i] = o.path[i];
    }
}

// Lays the paths of the resources up to the count into the buffer, which stays as it is where it has not the length that all paths take, and
// answers their lengths, 0 behind them.
pub fn lay(bytes: &mut [u8], k: Resources) -> [usize; Register::RESOURCES]
    ensures laid { bytes.new ≡ laid_in bytes.old k }
    ensures lengths { result ≡ lens_of k }
    ensures sized { All (λ o. length o.path ≡ path_limit) k.list }
{
    let mut lens = [0usize; Register::RESOURCES];
    for i in 0..k.count.min(Register::RESOURCES) {
        let o = k.list[i];
        put_path(bytes, i * Register::PATH, o);
        lens[i] = o.len as usize;
    }
    lens
}

// Whether the path at place `x` contains the path at place `y`, and how far it reaches. Past the places there is the empty path.
pub(crate) fn is_inside<'a>(bytes: &'a [u8], lens: &'a [usize], x: usize, y: usize) -> Option<usize>
    ensures { result ≡ reach_between (part_at bytes.now lens.now x) (part_at bytes.now lens.now y) }
{
    let outer = part_at(bytes, lens, x);
    let inner = part_at(bytes, lens, y);
    paths::contains(outer, inner)
}

// The path at place `x`.
fn part_at<'a>(bytes: &'a [u8], lens: &'a [usize], x: usize) -> &'a [u8]
    ensures { result.now ≡ part_at bytes.now lens.now x }
{
    if lens.len() <= x {
        return &bytes[..0];
    }
    if bytes.len() / Register::PATH <= x {
        return &bytes[..0];
    }
    let start = x * Register::PATH;
    let len = lens[x].min(Register::PATH);
    let end = start + len;
    &bytes[start..end]
}
