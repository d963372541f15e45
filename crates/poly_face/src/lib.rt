// The inner routines on polynomials as C calls them, to be tested (tests/c/routines.c) and timed (bench/c/routines.c).
// Not part of the product's face: each asks what its routine asks, and the C side sees to it. ls and ts are the log
// and antilog tables of the field of degree m.
#![tactic(auto)]

ghost use Rattle.std.specs.Prelude.{◌≡◌, [], ◌∷◌, ◌^◌, ◌<◌};
ghost use Rattle.algebra.specs.Polynomial.{eval, Below};
ghost use Rattle.algebra.specs.Routines.{rem, frobenius_mod, trace_mod, cofactor};
ghost use Rattle.field.specs.Field.{G};
ghost use Rattle.poly.specs.Lent.{Lent, log_row, held};
ghost use Rattle.poly.specs.Asking.{Loggable, Reducible};
ghost use Rattle.poly.specs.Monic.{TopIs, MadeMonic};
ghost use Rattle.poly_powers.specs.Asking.{Squarable, Startable};
ghost use Rattle.poly_gcd.specs.Asking.{Commonable, Cofactorable};
ghost use Rattle.poly_gcd.specs.Euclid.{GcdIs};
ghost use Rattle.poly_face.specs.Tables.{Roomy, LentIn};

use field::tables::Tables;
use field_tables::constants::{antilogs_of, logs_of};
use poly::{division, monic, rows, values};

// What C lends to be read, and to be written: a pointer, then a count.
type Read<'a> = &'a [u16];

type Written<'a> = &'a mut [u16];

// Writes the tables of the field of degree m, each to the front of its room.
#[unsafe(no_mangle)]
pub extern "C" fn poly_tables(m: u16, logs: Written, antilogs: Written)
    requires { Roomy m logs.old antilogs.old }
    ensures { LentIn m logs.old antilogs.old logs.new antilogs.new }
{
    slices::copy(logs_of(m), logs);
    slices::copy(antilogs_of(m), antilogs);
}

// The field's tables as C lends them.
fn tables<'a>(m: u16, ls: Read<'a>, ts: Read<'a>) -> Tables<'a>
    requires { Lent m ls.now ts.now }
    ensures { (result.degree ≡ m) × (result.logs ≡ ls.entry) × (result.antilogs ≡ ts.entry) }
{
    Tables {
        degree: m,
        logs: ls,
        antilogs: ts,
    }
}

// Writes the row of p.
#[unsafe(no_mangle)]
pub extern "C" fn poly_log_row(m: u16, ls: Read, ts: Read, p: Read, row: Written)
    requires { Lent m ls.now ts.now × Loggable m p.now row.old }
    ensures { row.new ≡ log_row m p.now }
{
    rows::log_row(&tables(m, ls, ts), p, row);
}

// Writes the remainder of f by the polynomial that the row holds to r. What stands in f is used up.
#[unsafe(no_mangle)]
pub extern "C" fn poly_remainder(m: u16, ls: Read, ts: Read, row: Read, f: Written, r: Written)
    requires { Lent m ls.now ts.now × Reducible m row.now f.old r.old }
    ensures { r.new ≡ rem (G m) (held m row.now) f.old }
{
    division::remainder(&tables(m, ls, ts), row, f, r);
}

// The value of f at x.
#[unsafe(no_mangle)]
pub extern "C" fn poly_evaluate(m: u16, ls: Read, ts: Read, f: Read, x: u16) -> u16
    requires { Lent m ls.now ts.now × Below (2 ^ m) f.now × (x < 2 ^ m) }
    ensures { result ≡ eval (G m) f.now x }
{
    values::evaluate(&tables(m, ls, ts), f, x)
}

// The place behind the highest coefficient that is not 0; 0 where there is none.
#[unsafe(no_mangle)]
pub extern "C" fn poly_top(r: Read) -> usize
    ensures { TopIs r.now result }
{
    monic::top(r)
}

// Divides r by its leading coefficient. Returns how many coefficients it has up to that one, 0 where all are 0.
#[unsafe(no_mangle)]
pub extern "C" fn poly_make_monic(m: u16, ls: Read, ts: Read, r: Written) -> usize
    requires { Lent m ls.now ts.now × Below (2 ^ m) r.old }
    ensures { MadeMonic m r.old result r.new }
{
    monic::make_monic(&tables(m, ls, ts), r)
}

// Squares w k times, modulo the polynomial that the row holds.
#[unsafe(no_mangle)]
pub extern "C" fn poly_power_mod(m: u16, ls: Read, ts: Read, row: Read, k: u16, w: Written)
    requires { Lent m ls.now ts.now × Squarable m row.now w.old }
    ensures { w.new ≡ frobenius_mod (G m) (held m row.now) k w.old }
{
    poly_powers::power_mod(&tables(m, ls, ts), row, k, w);
}

// Writes z^(2^k) modulo the monic polynomial with the low coefficients p to w.
#[unsafe(no_mangle)]
pub extern "C" fn poly_z_power(m: u16, ls: Read, ts: Read, p: Read, k: u16, w: Written)
    requires { Lent m ls.now ts.now × Startable m p.now w.old }
    ensures { w.new
        ≡ frobenius_mod (G m) p.now k (rem (G m) p.now (0 ∷ 1 ∷ [])) }
{
    poly_powers::z_power(&tables(m, ls, ts), p, k, w);
}

// Writes Tr(bz) modulo the monic polynomial with the low coefficients p to t.
#[unsafe(no_mangle)]
pub extern "C" fn poly_trace_of(m: u16, ls: Read, ts: Read, p: Read, b: u16, t: Written)
    requires { Lent m ls.now ts.now × Startable m p.now t.old × (b < 2 ^ m) }
    ensures { t.new ≡ trace_mod (G m) p.now m (rem (G m) p.now (0 ∷ b ∷ [])) }
{
    poly_powers::trace_of(&tables(m, ls, ts), p, b, t);
}

// Writes the monic greatest common divisor of the monic polynomial with the low coefficients p, and f, to the front of
// g. Returns its degree.
#[unsafe(no_mangle)]
pub extern "C" fn poly_gcd(m: u16, ls: Read, ts: Read, p: Read, f: Read, g: Written) -> usize
    requires { Lent m ls.now ts.now × Commonable m p.now f.now g.old }
    ensures { GcdIs m p.now f.now result g.new }
{
    poly_gcd::gcd(&tables(m, ls, ts), p, f, g)
}

// Writes the monic polynomial with the low coefficients p, divided by the monic one with the low coefficients g, to h.
#[unsafe(no_mangle)]
pub extern "C" fn poly_cofactor(m: u16, ls: Read, ts: Read, p: Read, g: Read, h: Written)
    requires { Lent m ls.now ts.now × Cofactorable m p.now g.now h.old }
    ensures { h.new ≡ cofactor (G m) p.now g.now }
{
    poly_gcd::cofactor(&tables(m, ls, ts), p, g, h);
}
