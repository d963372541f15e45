// The whole call (docs/RULES.md section 3.4): Berlekamp's trace algorithm with small degrees solved directly.
//   E. R. Berlekamp, "Factoring polynomials over large finite fields", Mathematics of Computation 24 (1970):
//     the trace.
//   B. Biswas and V. Herbert, "Efficient root finding of polynomials over fields of characteristic 2" (2009):
//     splitting down to a small degree, and the quadratic by a table.
//   C. Petit, "Finding roots in F_(p^n) with the successive resultants algorithm", LMS Journal of Computation and
//     Mathematics 17 (2014): the part of a polynomial that splits into distinct factors.
// A table is begun: the product over all distinct roots, as the greatest common divisor with z^(2^m) + z. Each step
// parts a factor P by the roots' next trace bit: gcd(P, Tr(a^i z)), and the rest. Factors of degree at most the cutoff
// are solved. A step divides by the trace of its level modulo the polynomial, not modulo the factor: the powers of z
// on begin's way to z^(2^m) are kept, and Tr(a^i z) is a sum of their multiples, taken once a level.
// In field 11 degrees 1 to 4 take no table and no lent memory (crate find_direct): a quotient, the quadratic's formula,
// or a guess that is tried. The steps that a table would take are then counted from the roots' trace bits.
#![tactic(auto)]

ghost use Rattle.std.specs.Prelude.{◌≡◌, ◌≤◌, length};
ghost use Rattle.input.specs.Cutoff.{highest_cutoff};
ghost use Rattle.input.specs.Limit.{limit};
ghost use Rattle.input.specs.Polynomials.{PolynomialIn};
ghost use Rattle.find_direct.specs.Listing.{Leading};
ghost use Rattle.find_solve.specs.Calls.{Solves};
ghost use Rattle.find_solve.specs.Solving.{Traceable, Reached, Held, held_at};
ghost use Rattle.find_solve.specs.Solving.{Running, RunOut, SolvedOut, SolvedAtAny, AtMostLinear};

use field::tables::Tables;
use field_tables::constants::{halves_of, tables_of};
use find_direct::direct_roots;
use find_direct::steps::steps_of;
use find_multiplicities::multiplicities_in;
use input::{LIMIT, POWER_ROWS, admit, in_force};
use poly::monic::top;
use poly_powers::add_trace;
use refusals::{Refusal, also};
use table_begin::begin_lent;
use table_finish::finish_lent;
use table_slots::{SLOTS, first_above, head_of, level_at};
use table_step::step_lent;

// What the whole call answers: how many roots there are, and how many steps were taken.
#[derive(Clone, Copy, PartialEq, Eq)]
pub struct Solved {
    pub s: u16,
    pub steps: u16,
}

// The trace sums of the levels below `ready` modulo a polynomial of degree n, each in its n places, and the rows of the
// powers of z that they are sums of.
#[derive(Drop)]
struct Sums<'a> {
    n: usize,
    rows: &'a [u16],
    traces: [u16; POWER_ROWS],
    ready: u16,
}

impl<'a> Sums<'a> {
    // Writes those up to `level` that are not there yet.
    fn reach(&mut self, tables: &Tables, level: u16)
        requires { let s = self.old in Traceable tables.now.degree s.n s.rows.now s.traces s.ready level }
        ensures { Reached tables.now.degree self.old level self.new }
    {
        let count = level + 1;
        for k in self.ready..count {
            let at = (k as usize) * self.n;
            let b = tables.antilogs[2 * (k as usize)];
            let e = at + self.n;
            add_trace(tables, self.rows, tables.degree, b, &mut self.traces[at..e]);
        }
        self.ready = self.ready.max(count);
    }

    // That of a level.
    fn of(&self, level: u16) -> &[u16]
        requires { Held self.now level }
        ensures { result.now ≡ held_at self.now level }
    {
        let at = (level as usize) * self.n;
        &self.traces[at..at + self.n]
    }
}

// Steps a begun table until it is done. It is sound, so that the place of the next step is all that is looked for. The
// coefficients only say which table it is.
pub fn run_table(tables: &Tables, c: u16, coeffs: &[u16], n: usize, rows: &[u16], table: &mut [u16])
    requires { Running tables.now.degree c coeffs.now n rows.now table.old }
    ensures { RunOut tables.now.degree c coeffs.now table.new }
{
    let mut sums = Sums {
        n,
        rows,
        traces: [0; POWER_ROWS],
        ready: 0,
    };
    while let Some(o) = first_above(table, c) {
        let level = level_at(table, o);
        sums.reach(tables, level);
        step_lent(table, tables, o, sums.of(level));
    }
}

// The roots and steps of an accepted polynomial, at a cutoff from 1 to 3, by traces: begins a table, steps it until it
// is done, and lists its roots at the front of the list.
fn solve_traced(m: u16, c: u16, coeffs: &[u16], roots: &mut [u16]) -> Solved
    requires { PolynomialIn m coeffs.now × (1 ≤ c) × (c ≤ highest_cutoff) × (limit ≤ length roots.old) }
    ensures { SolvedOut m c coeffs.now roots.old result roots.new }
{
    let tables = tables_of(m);
    let halves = halves_of(m);
    let mut table = [0u16; SLOTS];
    let mut rows = [0u16; POWER_ROWS];
    let n = begin_lent(&tables, c, coeffs, &mut table, &mut rows);
    let e = (tables.degree as usize) * n;
    run_table(&tables, c, coeffs, n, &rows[..e], &mut table);
    let s = finish_lent(&tables, halves, &table, roots);
    let h = head_of(&table);
    Solved {
        s: s as u16,
        steps: h.steps,
    }
}

// The roots of an accepted polynomial with n coefficients up to its leading one, at most 2: degree 1 has one, a
// quotient, and degree 0 has none. It takes no table and no step.
fn solve_low(m: u16, n: usize, coeffs: &[u16], roots: &mut [u16]) -> Solved
    requires { AtMostLinear m coeffs.now n × (1 ≤ length roots.old) }
    ensures { SolvedAtAny m coeffs.now roots.old result roots.new }
{
    if n < 2 {
        return Solved { s: 0, steps: 0 };
    }
    let tables = tables_of(m);
    roots[0] = tables.product(tables.inverse(coeffs[1]), coeffs[0]);
    Solved { s: 1, steps: 0 }
}

// The roots and steps of an accepted polynomial of field 11 with n coefficients up to its leading one, of degree 1 to
// 4, at a cutoff from 1 to 3. Its roots tell the steps; where a guess fails the table is begun and stepped.
fn solve_direct(n: usize, c: u16, coeffs: &[u16], roots: &mut [u16]) -> Solved
    requires { Leading n coeffs.now × (2 ≤ n) × (n ≤ 5)
        × (1 ≤ c) × (c ≤ highest_cutoff) × (limit ≤ length roots.old) }
    ensures { SolvedOut 11 c coeffs.now roots.old result roots.new }
{
    match direct_roots(n, coeffs, roots) {
        Some(k) => {
            let e = k as usize;
            let steps = steps_of(c, &roots[..e]);
            Solved { s: k, steps }
        }
        None => solve_traced(11, c, coeffs, roots),
    }
}

// The roots and steps of an accepted polynomial, at a cutoff from 1 to 3. In field 11 degrees 1 to 4 are solved
// directly.
pub fn solve_in(m: u16, c: u16, coeffs: &[u16], roots: &mut [u16]) -> Solved
    requires { PolynomialIn m coeffs.now × (1 ≤ c) × (c ≤ highest_cutoff) × (limit ≤ length roots.old) }
    ensures { SolvedOut m c coeffs.now roots.old result roots.new }
{
    let n = top(coeffs);
    if m == 11 && 2 <= n && n <= 5 {
        return solve_direct(n, c, coeffs, roots);
    }
    if n <= 2 {
        return solve_low(m, n, coeffs, roots);
    }
    solve_traced(m, c, coeffs, roots)
}

// The whole call: all distinct roots, ascending, at the front of the first list, their multiplicities at the front of
// the second, and the number of roots and of steps.
pub fn solve(
    m: u16,
    coeffs: &[u16],
    cutoff: u16,
    roots: &mut [u16],
    mults: &mut [u16],
) -> Result<Solved, Refusal>
    ensures { Solves m cutoff coeffs.now roots.old mults.old
        result roots.new mults.new }
{
    let found = admit(m, coeffs, cutoff, roots.len() < LIMIT);
    also(found, mults.len() < LIMIT, Refusal::Room)?;
    let solved = solve_in(m, in_force(cutoff), coeffs, roots);
    let e = solved.s as usize;
    multiplicities_in(m, coeffs, &roots[..e], mults);
    Ok(solved)
}
