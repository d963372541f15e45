// The values of a polynomial at every element of field 11: an additive Fourier transform on bit planes.
//
// After Cantor (On arithmetical algorithms over finite fields, 1989), who takes the values over a space of sums of
// steps; Gao and Mateer (Additive fast Fourier transforms over finite fields, 2010); and Lin, Chung and Han (Novel
// polynomial basis and its application to Reed-Solomon erasure codes, 2014), whose basis this is.
//
// A vector of 11 words holds an element in each of 64 lanes: word i holds digit i of all of them. Element 64 w + l
// stands in lane l of vector w, so the steps of the transform are 64, 128, .. , 1024, and each lane is a coset of the
// space that they span. With V_k the product of z + u over the sums u of the k lowest steps, and p_k = V_k / V_k(next
// step), the basis is the products of some p_k. The value of (lower half) + p_k (upper half) at both halves of a coset
// is a butterfly: (a, b) becomes (a + e b, a + e b + b), e the value of p_k there.
//   mixed       the coefficients in the basis: the sum of the powers of z in the basis (a table), each times its
//               coefficient
//   start       the levels while the coefficients are still the same in every lane, and nothing for those that are 0
//   run         the other levels, each butterfly a product of two vectors
#![tactic(auto)]

ghost use Rattle.std.specs.Prelude.{◌≡◌, ◌+◌, ◌*◌, ◌^◌, ◌≤◌, ◌<◌, [], ◌∷◌, ◌++◌, map, get_or, length, take, replicate};
ghost use Rattle.std.proofs.Math.Seq.{paste};
ghost use Rattle.std.specs.Int.Bits.{bit_and};
ghost use Rattle.algebra.specs.Polynomial.{Below};
ghost use Rattle.poly_values.specs.Planes.{sum, pair_words, FourMultiples, carry_free_words, folded, sum_words};
ghost use Rattle.poly_values.specs.Planes.{lane_product, taps11, words_at};
ghost use Rattle.poly_values.specs.Planes.{butterfly_at, butterflies_at, transform_at, lane};
ghost use Rattle.poly_values.specs.Planes.{lanes, occupied, doubled_words, spread_words, Multiple, Mixed, First};
ghost use Rattle.poly_values.specs.Planes.{Firsts, RowStartable, RowStarted, halves_at, TwoBlocks};
ghost use Rattle.poly_values.specs.Tables.{steps11, TreeTable, TopTable, SquareTable, ColumnTable, FirstColumns};
ghost use Rattle.poly_values.specs.Tables.{InBlocks, Values, vectors11, planes11, blocks11, coefficients11};

mod tables;

use crate::tables::{COLUMNS, MULTIPLIERS, SQUARES, TOP, UPPER_COLUMNS};
use std::array;

// The values of field 11 stand in as many vectors of 64 lanes, of 11 words each: as many as LEVELS levels make.
pub const VECTORS: usize = 32;

pub const PLANES: usize = DIGITS * VECTORS;

// The digits of an element of field 11.
const DIGITS: usize = 11;

// Pairs of digits, below the highest digit.
const PAIRS: usize = DIGITS / 2;

// An element in each of 64 lanes, a word for each digit.
type Vector = [u64; DIGITS];

const LEVELS: usize = 5;

// A block has as many coefficients as there are vectors. The most coefficients of one block, and of two: one more.
const ONE_BLOCK: usize = VECTORS + 1;

const BLOCKS: usize = 2 * VECTORS;

pub const COEFFICIENTS: usize = BLOCKS + 1;

// The sum in every lane.
fn sum(a: Vector, b: Vector) -> Vector
    ensures { result ≡ sum_words 11 a b }
{
    array::from_fn(|i| a[i] ^ b[i])
}

// Adds b to the front of t where w has a digit.
fn add_masked(t: &mut [u64], w: u64, b: Vector)
    requires { 11 ≤ length t.old }
    ensures { t.new ≡ sum (map (bit_and w) b) t.old }
{
    for j in 0..DIGITS {
        t[j] = (w & b[j]) ^ t[j];
    }
}

// Adds two rows at once: v times b, and w times b one word further up. b stands between two words that are 0.
fn add_pair(t: &mut [u64], v: u64, w: u64, b: [u64; DIGITS + 2])
    requires { 12 ≤ length t.old }
    ensures { t.new ≡ sum (pair_words 12 v w b) t.old }
{
    for j in 0..DIGITS + 1 {
        t[j] = ((v & b[j + 1]) ^ (w & b[j])) ^ t[j];
    }
}

// b between two words that are 0.
fn between_zeros(b: Vector) -> [u64; DIGITS + 2]
    ensures { result ≡ 0 ∷ words_at 11 b 0 ++ 0 ∷ [] }
{
    let mut c = [0; DIGITS + 2];
    put_vector(&mut c, 1, b);
    c
}

// The words of the carry-free product with the vector at the front of e, into 22 words that are 0: the row of the last
// digit, then two rows at a time, so that every store starts at an even place and the next turn's loads find it whole.
fn add_rows(t: &mut [u64], e: &[u64], b: Vector)
    requires { (t.old ≡ replicate 22 0) × (11 ≤ length e.now) }
    ensures { t.new ≡ carry_free_words (words_at 11 e.now 0) b }
{
    let c = between_zeros(b);
    let last = DIGITS - 1;
    add_masked(&mut t[last..], e[last], b);
    for pair in (0..PAIRS).rev() {
        let i = 2 * pair;
        add_pair(&mut t[i..], e[i], e[i + 1], c);
    }
}

// The upper 11 of 22 words taken back by the field's polynomial, the highest first. What they hold then has no
// meaning.
fn fold(t: &mut [u64])
    requires { length t.old ≡ 22 }
    ensures { take 11 t.new ≡ folded taps11 11 t.old }
{
    for k in (0..DIGITS).rev() {
        let x = t[k + DIGITS];
        t[k] ^= x;
        t[k + 2] ^= x;
    }
}

// The product in every lane of the vector at the front of e and b.
fn lane_product(e: &[u64], b: Vector) -> Vector
    requires { 11 ≤ length e.now }
    ensures { result ≡ lane_product taps11 (words_at 11 e.now 0) b }
{
    let mut t = [0; 2 * DIGITS];
    add_rows(&mut t, e, b);
    fold(&mut t);
    vector(&t, 0)
}

// The vector at a place of p.
fn vector(p: &[u64], at: usize) -> Vector
    requires { at + 11 ≤ length p.now }
    ensures { result ≡ words_at 11 p.now at }
{
    array::from_fn(|i| p[at + i])
}

// A vector stored at a place of p.
fn put_vector(p: &mut [u64], at: usize, v: Vector)
    requires { at + 11 ≤ length p.old }
    ensures { p.new ≡ paste p.old at v 11 }
{
    // kept: `copy_from_slice` here takes 5 to 11 instructions in a hundred more for a transform
    for k in 0..DIGITS {
        p[at + k] = v[k];
    }
}

// The butterfly of the vectors at 0 and at up, e at the front of g: (a, b) becomes (a + e b, a + e b + b).
fn butterfly(p: &mut [u64], g: &[u64], up: usize)
    requires { (11 ≤ up) × (up + 11 ≤ length p.old) × (11 ≤ length g.now) }
    ensures { p.new ≡ butterfly_at taps11 (words_at 11 g.now 0) up p.old }
{
    let b = vector(p, up);
    let c = lane_product(g, b);
    let a = vector(p, 0);
    let s = sum(a, c);
    let t = sum(s, b);
    put_vector(p, 0, s);
    put_vector(p, up, t);
}

// The first n butterflies of vectors that stand up words apart, with the multiplier at the front of g.
fn butterflies(p: &mut [u64], g: &[u64], n: usize, up: usize)
    requires { (11 ≤ up) × (n * 11 + up ≤ length p.old) × (11 ≤ length g.now) }
    ensures { p.new ≡ butterflies_at taps11 (words_at 11 g.now 0) up n p.old }
{
    for w in 0..n {
        butterfly(&mut p[w * DIGITS..], g, up);
    }
}

// The transform of n = 2^k vectors, in place.
fn fourier(g: &[u64], p: &mut [u64], k: usize, n: usize)
    requires { (n ≡ 2 ^ k) × (n * 11 ≡ length p.old) × (n * 11 ≤ length g.now + 11) }
    ensures { p.new ≡ transform_at taps11 k g.now p.old }
{
    if k > 0 {
        let h = n / 2;
        let mid = h * DIGITS;
        butterflies(p, g, h, mid);
        fourier(&g[DIGITS..], &mut p[0..mid], k - 1, h);
        fourier(&g[mid..], &mut p[mid..], k - 1, h);
    }
}

// Twice the element in every lane: each digit moves one up, and the highest comes back by the field's polynomial.
fn doubled(r: Vector) -> Vector
    ensures { result ≡ doubled_words taps11 r }
{
    let mut d: Vector = array::from_fn(|i| r[(i + DIGITS - 1) % DIGITS]);
    d[2] ^= d[0];
    d
}

// c times the element in every lane, by the digits of c, the highest first: half of them are 0 and cost nothing.
fn multiple(c: u16, b: Vector) -> Vector
    requires { c < 2048 }
    ensures { Multiple taps11 c b result }
{
    let mut r = [0; DIGITS];
    if c == 0 {
        return r;
    }
    for i in (0..DIGITS).rev() {
        let next = doubled(r);
        r = next;
        if (c >> i) % 2 == 1 {
            let more = sum(r, b);
            r = more;
        }
    }
    r
}

// The multiples of b by 0, 1, 2 and 3, one behind the other.
fn four_multiples(b: Vector) -> [u64; 4 * DIGITS]
    ensures { FourMultiples taps11 b result }
{
    let d = doubled(b);
    let s = sum(d, b);
    let mut t = [0; 4 * DIGITS];
    put_vector(&mut t, DIGITS, b);
    put_vector(&mut t, 2 * DIGITS, d);
    put_vector(&mut t, 3 * DIGITS, s);
    t
}

// c times the element in every lane, two digits of c at a time by a table: no branch, for multipliers that no branch
// foretells.
fn multiple_by_table(c: u16, b: Vector) -> Vector
    requires { c < 2048 }
    ensures { Multiple taps11 c b result }
{
    let t = four_multiples(b);
    let last = DIGITS - 1;
    let mut r = vector(&t, (c >> last) as usize * DIGITS);
    for pair in (0..PAIRS).rev() {
        let once = doubled(r);
        let twice = doubled(once);
        let v = vector(&t, ((c >> (2 * pair)) % 4) as usize * DIGITS);
        let next = sum(twice, v);
        r = next;
    }
    r
}

// The element c in every lane.
fn spread(c: u16) -> Vector
    ensures { result ≡ spread_words 11 c }
{
    let v = c as u64;
    array::from_fn(|i| (v >> i) % 2 * u64::MAX)
}

// The element in lane l, by its digits, the highest first.
fn lane_of(v: Vector, l: u64) -> u16
    requires { l < 64 }
    ensures { result ≡ lane l v }
{
    let mut r: u16 = 0;
    for i in (0..DIGITS).rev() {
        r = r * 2 + ((v[i] >> l) % 2) as u16;
    }
    r
}

// The sum of the vectors of g, each times its coefficient of f.
fn mixed(g: &[u64], f: &[u16]) -> Vector
    requires { Below 2048 f.now × (length f.now * 11 ≤ length g.now) }
    ensures { Mixed taps11 f.now g.now result }
{
    let mut r = [0; DIGITS];
    for j in (0..f.len()).rev() {
        let t = vector(g, j * DIGITS);
        let m = multiple_by_table(f[j], t);
        let next = sum(m, r);
        r = next;
    }
    r
}

// The multipliers of field 11.
fn multipliers11() -> &'static [u64; DIGITS * (VECTORS - 1)]
    ensures { TreeTable taps11 steps11 result.now }
{
    &MULTIPLIERS
}

// The vanishing map of its steps.
fn top11() -> Vector
    ensures { TopTable taps11 steps11 result }
{
    TOP
}

// Its square.
fn squares11() -> Vector
    ensures { SquareTable taps11 steps11 result }
{
    SQUARES
}

// The columns of z^0 to z^32.
fn columns11() -> &'static [u64; DIGITS * ONE_BLOCK]
    ensures { FirstColumns taps11 steps11 blocks11 vectors11 result.now }
{
    &COLUMNS
}

// The columns of z^33 to z^64, the last of which has a 1 behind its blocks.
fn upper_columns11() -> &'static [u64; PLANES]
    ensures { ColumnTable taps11 steps11 blocks11 vectors11 vectors11 1 result.now }
{
    &UPPER_COLUMNS
}

// The butterfly of two coefficients x and y, into the vectors at places i and j.
fn first(p: &mut [u64], e: Vector, x: u16, y: u16, i: usize, j: usize)
    requires { (x < 2048) × (y < 2048) × (i < j) × (j * 11 + 11 ≤ length p.old) }
    ensures { First taps11 e x y i j p.old p.new }
{
    let b = spread(y);
    let m = multiple(y, e);
    let a = spread(x);
    let s = sum(a, m);
    let t = sum(s, b);
    put_vector(p, i * DIGITS, s);
    put_vector(p, j * DIGITS, t);
}

// The butterflies of the coefficients that stand h apart, but for the first.
fn firsts(p: &mut [u64], e: Vector, a: &[u16], h: usize)
    requires { Below 2048 a.now × (h + h ≡ length a.now) × ((h + h) * 11 ≡ length p.old) × (1 ≤ h) }
    ensures { Firsts taps11 e a.now h h p.old p.new }
{
    for w in 1..h {
        first(p, e, a[w], a[h + w], w, h + w);
    }
}

// The transforms of the two halves of a row.
fn run_halves(g: &[u64], p: &mut [u64], k: usize, h: usize)
    requires { (h ≡ 2 ^ k) × ((h + h) * 11 ≡ length p.old) × ((h + h) * 11 ≤ length g.now + 11) }
    ensures { p.new ≡ halves_at taps11 k h g.now p.old }
{
    let mid = h * DIGITS;
    fourier(&g[DIGITS..], &mut p[0..mid], k, h);
    fourier(&g[mid..], &mut p[mid..], k, h);
}

// The transform of 2 h coefficients, x in the place of the first: their butterflies, then the transforms of the
// halves.
fn full(g: &[u64], x: Vector, a: &[u16], p: &mut [u64], k: usize, h: usize)
    requires { (h ≡ 2 ^ k) × RowStartable taps11 (k + 1) (h + h) g.now a.now p.old }
    ensures { RowStarted taps11 (k + 1) g.now x a.now p.old p.new }
{
    let e = vector(g, 0);
    firsts(p, e, a, h);
    let y = a[h];
    let c = multiple(y, e);
    let s = sum(x, c);
    let b = spread(y);
    let t = sum(s, b);
    put_vector(p, 0, s);
    put_vector(p, h * DIGITS, t);
    run_halves(g, p, k, h);
}

// The transform of n = 2^k coefficients, x in the place of the first. Where nothing but one coefficient stands above
// the half, it only changes the first coefficient of each half.
fn start(g: &[u64], x: Vector, a: &[u16], p: &mut [u64], k: usize, n: usize)
    requires { RowStartable taps11 k n g.now a.now p.old }
    ensures { RowStarted taps11 k g.now x a.now p.old p.new }
{
    if k > 0 {
        let h = n / 2;
        if slices::all_zero(&a[h + 1..]) {
            let mid = h * DIGITS;
            let e = vector(g, 0);
            let y = a[h];
            let c = multiple(y, e);
            let s = sum(x, c);
            let b = spread(y);
            let t = sum(s, b);
            start(&g[DIGITS..], s, &a[..h], &mut p[0..mid], k - 1, h);
            start(&g[mid..], t, &a[..h], &mut p[mid..], k - 1, h);
        } else {
            full(g, x, a, p, k - 1, h);
        }
    } else {
        put_vector(p, 0, x);
    }
}

// The lanes of v, one after the other, in a.
fn read_lanes(v: Vector, a: &mut [u16])
    requires { length a.old ≤ 64 }
    ensures { a.new ≡ lanes 0 (length a.old) v }
{
    for (i, x) in a.iter_mut().enumerate() {
        *x = lane_of(v, i as u64);
    }
}

// The values of at most ONE_BLOCK coefficients: all but the last are one block, which starts while its coefficients are
// the same in every lane; the last is times the vanishing map, and only changes the first.
fn one_block(f: &[u16], p: &mut [u64])
    requires { Below 2048 f.now × (1 ≤ length f.now) × (length f.now ≤ vectors11 + 1)
        × (length p.old ≡ planes11) }
    ensures { Values taps11 f.now p.new vectors11 }
{
    let columns = columns11();
    let v = mixed(columns, f);
    let mut a = [0; ONE_BLOCK];
    read_lanes(v, &mut a[..f.len()]);
    let top = top11();
    let b = spread(a[0]);
    let c = multiple(a[VECTORS], top);
    let x = sum(b, c);
    let g = multipliers11();
    start(g, x, &a[..VECTORS], p, LEVELS, VECTORS);
}

// The coefficient of z^i: 0 behind the last.
fn coefficient(f: &[u16], i: usize) -> u16
    ensures { result ≡ get_or f.now i 0 }
{
    f.get(i).copied().unwrap_or(0)
}

// More than ONE_BLOCK coefficients in the basis: two blocks, and the one more, which is that of z^64 itself.
fn in_blocks(f: &[u16]) -> [u16; COEFFICIENTS]
    requires { Below 2048 f.now × (vectors11 + 1 ≤ length f.now) × (length f.now ≤ coefficients11) }
    ensures { InBlocks taps11 steps11 blocks11 f.now result }
{
    let lower = columns11();
    let s = mixed(lower, &f[..ONE_BLOCK]);
    let upper = upper_columns11();
    let t = mixed(upper, &f[ONE_BLOCK..]);
    let v = sum(s, t);
    let mut a = [0; COEFFICIENTS];
    read_lanes(v, &mut a[..BLOCKS]);
    a[BLOCKS] = coefficient(f, BLOCKS);
    a
}

// The row of two blocks of h coefficients, the upper one times b.
fn two_rows(p: &mut [u64], b: Vector, a: &[u16], h: usize)
    requires { Below 2048 a.now × (h + h ≤ length a.now) × (h * 11 ≡ length p.old) }
    ensures { TwoBlocks taps11 b a.now h h p.old p.new }
{
    for w in 0..h {
        let s = spread(a[w]);
        let m = multiple(a[h + w], b);
        let t = sum(s, m);
        put_vector(p, w * DIGITS, t);
    }
}

// The values of more than ONE_BLOCK coefficients: no vector is the same in every lane, so all levels are butterflies.
fn two_blocks(f: &[u16], p: &mut [u64])
    requires { Below 2048 f.now × (vectors11 + 1 ≤ length f.now) × (length f.now ≤ coefficients11)
        × (length p.old ≡ planes11) }
    ensures { Values taps11 f.now p.new vectors11 }
{
    let a = in_blocks(f);
    let top = top11();
    two_rows(p, top, &a, VECTORS);
    let squares = squares11();
    let m = multiple(a[BLOCKS], squares);
    let y = vector(p, 0);
    let x = sum(y, m);
    put_vector(p, 0, x);
    let g = multipliers11();
    fourier(g, p, LEVELS, VECTORS);
}

// The values of f at every element of field 11, on bit planes: VECTORS vectors of 11 words, lane l of vector w for the
// element 64 w + l.
pub fn values11(f: &[u16], p: &mut [u64])
    requires { Below 2048 f.now × (1 ≤ length f.now) × (length f.now ≤ coefficients11)
        × (length p.old ≡ planes11) }
    ensures { Values taps11 f.now p.new vectors11 }
{
    if f.len() <= ONE_BLOCK {
        one_block(f, p);
    } else {
        two_blocks(f, p);
    }
}

// The word whose digit l says whether the value in lane l of vector w is not 0.
pub fn occupied11(p: &[u64], w: usize) -> u64
    requires { w * 11 + 11 ≤ length p.now }
    ensures { result ≡ occupied (words_at 11 p.now (w * 11)) }
{
    let v = vector(p, w * DIGITS);
    v.iter().rev().fold(0, |rest, word| word | rest)
}
