// The roots from one of them and a basis of their differences.
ghost use Rattle.std.specs.Prelude.{◌≡◌, ◌+◌, ◌≤◌, ◌^◌, length};
ghost use Rattle.input.specs.Limit.{widest};
ghost use Rattle.find_affine.specs.Spaces.{dimension_below, Grown, Listed};

use crate::COLUMNS;

// Puts behind the n numbers at the front of the list their sums with v, unless it is 0. Returns how many there are
// then.
fn grow(list: &mut [u16], n: usize, v: u16) -> usize
    requires { n + n ≤ length list.old }
    ensures { Grown n v list.old result list.new }
{
    if v == 0 {
        return n;
    }
    for k in 0..n {
        list[n + k] = v ^ list[k];
    }
    n + n
}

// Lists the sums of `first` and any of the first n vectors. Returns how many there are.
pub fn list(n: usize, vectors: &[u16; COLUMNS], first: u16, roots: &mut [u16]) -> u16
    requires { (n ≤ widest) × (2 ^ n ≤ length roots.old) }
    ensures { Listed n vectors.now first roots.old result roots.new }
{
    roots[0] = first;
    let mut k = 1;
    for v in &vectors[..n] {
        k = grow(roots, k, *v);
    }
    k as u16
}

// How many of the first n vectors are left.
pub fn dimension(n: usize, vectors: &[u16; COLUMNS]) -> u16
    requires { n ≤ widest }
    ensures { result ≡ dimension_below n vectors.now }
{
    vectors[..n].iter().filter(|v| **v != 0).count() as u16
}
