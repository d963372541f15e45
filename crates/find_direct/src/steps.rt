// The steps that a list of roots of field 11 takes, out of the roots' trace bits: as many as there are groups of more
// than c roots that share their first trace bits (docs/RULES.md section 4.6). No table is stepped.
//
// Tr(a^k) is 1 for k = 0, 9, 11 and 18 alone, of all k up to 20. So the trace bits of an element, level 0 first, are
// sums of its digits, and a few shifts make a number of them.
ghost use Rattle.std.specs.Prelude.{◌≡◌, [], ◌∷◌, ◌≤◌, length};
ghost use Rattle.algebra.specs.Polynomial.{Below};
ghost use Rattle.table_rules.specs.Demand.{step_count};
ghost use Rattle.find_direct.specs.Steps.{trace_word, under, steps_under, Counted};

// The trace bits of an element, level 0 at the highest of 11 digits.
fn trace_word(x: u16) -> u16
    ensures { result ≡ trace_word x }
{
    ((x / 2) ^ (x % 1024 * 2) ^ (x / 256) ^ (x % 2 * 1024)) % 2048
}

// 1 where the trace word of x has the digits p from place k on, else 0.
fn shares(x: u16, k: u16, p: u16) -> usize
    requires { k ≤ 11 }
    ensures { result ≡ length (under k p (x ∷ [])) }
{
    if trace_word(x) >> k == p {
        return 1;
    }
    0
}

// How many of the roots have the digits p from place k of their trace words on.
fn sharing(roots: &[u16], k: u16, p: u16) -> usize
    requires { k ≤ 11 }
    ensures { result ≡ length (under k p roots.now) }
{
    // kept: `filter` and `count` here take 381 instructions in place of 320 for the steps of four roots
    let mut n: usize = 0;
    for root in roots {
        n += shares(*root, k, p);
    }
    n
}

// The steps of the n roots that share the digits p from place k on: one where there are more than c, and those of the
// two groups that it parts them into.
fn steps_under(roots: &[u16], c: u16, k: u16, p: u16, n: usize) -> u16
    requires { Counted roots.now k p n }
    ensures { result ≡ steps_under c roots.now k p }
{
    if k == 0 {
        return 0;
    }
    if n <= c as usize {
        return 0;
    }
    let l = k - 1;
    let q = p * 2;
    let low = sharing(roots, l, q);
    let a = steps_under(roots, c, l, q, low);
    let b = steps_under(roots, c, l, q + 1, n - low);
    a + b + 1
}

// The steps that the whole call takes for these roots at the cutoff c.
pub fn steps_of(c: u16, roots: &[u16]) -> u16
    requires { Below 2048 roots.now }
    ensures { result ≡ step_count 11 c roots.now }
{
    if roots.len() <= c as usize {
        return 0;
    }
    steps_under(roots, c, 11, 0, roots.len())
}
