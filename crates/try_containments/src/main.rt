// Path containment as a whole matrix, printed.
// A row is an outer path, named at its end; its columns are the inner paths in the order of the
// rows; a number says that the outer path contains the inner one, and how long it is when trimmed;
// `-` that it does not.
//
// What is expected comes from 01, "Path containment", and from T-12, "the length of the trimmed outer path": in a row all numbers are alike, 0
// for the empty path, `/` and `//`.
//   "neither has a component equal to `..`"   rows and columns `a/../b` and `..`: - throughout; `a..b` is no such path
//   "outer is empty"                          row ``: a yes but for these two columns
//   "inner equals the trimmed outer"          row `x`, `site`, `site/a`, `site/ab`, `site/a/b` and `a..b` at its own column; `site/` at
//                                             `site`, `site/a/` at `site/a`, `/` and `//` at the empty path
//   "dropping all slashes at its end"         rows `/` and `//` are alike, so are `site` and `site/`, and `site/a` and `site/a/`
//   "must begin with a slash"                 `site` contains `site/` and all below it; `site/a` contains `site/a/` and `site/a/b` and not
//                                             `site/ab`; `/` contains `/` and `//` and not `x`
#![tactic(auto)]

fn main() {
    row(b"");
    row(b"/");
    row(b"//");
    row(b"x");
    row(b"site");
    row(b"site/");
    row(b"site/a");
    row(b"site/a/");
    row(b"site/ab");
    row(b"site/a/b");
    row(b"a/../b");
    row(b"a..b");
    row(b"..");
}

fn row(outer: &[u8]) {
    cell(outer, b"");
    cell(outer, b"/");
    cell(outer, b"//");
    cell(outer, b"x");
    cell(outer, b"site");
    cell(outer, b"site/");
    cell(outer, b"site/a");
    cell(outer, b"site/a/");
    cell(outer, b"site/ab");
    cell(outer, b"site/a/b");
    cell(outer, b"a/../b");
    cell(outer, b"a..b");
    cell(outer, b"..");
    try_printing::text(b"in `");
    try_printing::text(outer);
    try_printing::text(b"`\n");
}

fn cell(outer: &[u8], inner: &[u8]) {
    match paths::contains(outer, inner) {
        None => try_printing::text(b"-"),
        Some(length) => try_printing::number(length),
    }
    try_printing::text(b" ");
}
