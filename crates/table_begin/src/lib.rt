// Begin (docs/RULES.md section 4.2): the tests, the part of the polynomial that splits, and the table that is written.
// The part of f that splits into distinct factors is its greatest common divisor with z^(2^m) + z. The power is taken
// by m squarings modulo f, so that no element is tried. The powers on the way are kept for the trace sums.
#![tactic(auto)]

ghost use Rattle.std.specs.Prelude.{◌≡◌, ◌*◌, take};
ghost use Rattle.table_rules.specs.Layout.{by_factor};
ghost use Rattle.table_rules.specs.Splitting.{slots_begun};
ghost use Rattle.table_rules.specs.Sizes.{slots};
ghost use Rattle.table_begin.specs.Calls.{Begins};
ghost use Rattle.table_begin.specs.SplitPart.{Residual, Reduced, Powered, Beginnable};

use field::tables::Tables;
use field_tables::constants::tables_of;
use input::{COEFFICIENTS, LIMIT, POWER_ROWS, admit, in_force};
use poly::monic::make_monic;
use poly_gcd::euclid;
use poly_powers::z_powers;
use refusals::Refusal;
use table_slots::{SLOTS, lay};

// Writes z^(2^m) + z, reduced by the monic polynomial with the low coefficients p, to b, where zeros stand: m
// squarings, then z is added. The rows of the powers are written to rows.
fn residue(tables: &Tables, p: &[u16], b: &mut [u16], rows: &mut [u16])
    requires { Residual tables.now.degree p.now b.old rows.old }
    ensures { Reduced tables.now.degree p.now b.new rows.new }
{
    let n = p.len();
    z_powers(tables, p, tables.degree, &mut b[..n], rows);
    b[1] ^= 1;
}

// Writes the table of an accepted polynomial, over lent tables: its one factor is the product of (z + r) over all
// distinct roots. The rows of z, z^2, z^4, .. modulo the polynomial are written to rows. Returns the polynomial's
// degree.
pub fn begin_lent(
    tables: &Tables,
    c: u16,
    coeffs: &[u16],
    table: &mut [u16],
    rows: &mut [u16],
) -> usize
    requires { Beginnable tables.now.degree coeffs.now table.old rows.old }
    ensures { (table.new ≡ slots_begun by_factor slots tables.now.degree c coeffs.now)
        × Powered tables.now.degree coeffs.now result (take (tables.now.degree * result) rows.new) }
{
    let mut part = [0u16; COEFFICIENTS];
    let mut b = [0u16; LIMIT];
    let n = coeffs.len();
    slices::copy(coeffs, &mut part);
    let d = make_monic(tables, &mut part[..n]) - 1;
    let e = d.max(2);
    residue(tables, &part[..d], &mut b[..e], rows);
    let k = euclid(tables, &mut part, d, &mut b[..e], e);
    lay(table, tables.degree, c, &part[..k]);
    d
}

// Begins a table: one factor, the product of (z + r) over all distinct roots of the polynomial, or none if it has no
// root.
pub fn begin(m: u16, coeffs: &[u16], cutoff: u16, table: &mut [u16]) -> Result<(), Refusal>
    ensures { Begins m cutoff coeffs.now table.old result table.new }
{
    admit(m, coeffs, cutoff, table.len() != SLOTS)?;
    let mut rows = [0u16; POWER_ROWS];
    begin_lent(&tables_of(m), in_force(cutoff), coeffs, table, &mut rows);
    Ok(())
}
