// The degree of a list of coefficients, and making it monic.
ghost use Rattle.std.specs.Prelude.{◌≡◌, map, ◌^◌};
ghost use Rattle.algebra.specs.Polynomial.{Below};
ghost use Rattle.field.specs.Field.{G};
ghost use Rattle.poly.specs.Asking.{Scalable};
ghost use Rattle.poly.specs.Monic.{TopIs, MadeMonic};

use field::tables::Tables;

// The place behind the highest coefficient that is not 0; 0 where there is none.
pub fn top(r: &[u16]) -> usize
    ensures { TopIs r.now result }
{
    match r.iter().rposition(|x| *x != 0) {
        Some(k) => k + 1,
        None => 0,
    }
}

// Multiplies each coefficient of r by v.
pub fn scale(tables: &Tables, v: u16, r: &mut [u16])
    requires { Scalable tables.now.degree v r.old }
    ensures { r.new ≡ map ((G tables.now.degree).mul v) r.old }
{
    let logs = tables.logs;
    let antilogs = tables.antilogs;
    let s = logs[v as usize] as usize;
    for x in r.iter_mut() {
        *x = antilogs[s + logs[*x as usize] as usize];
    }
}

// Divides r by its leading coefficient. Returns how many coefficients it has up to that one, 0 where all are 0; those
// below it are the monic polynomial's.
pub fn make_monic(tables: &Tables, r: &mut [u16]) -> usize
    requires { Below (2 ^ tables.now.degree) r.old }
    ensures { MadeMonic tables.now.degree r.old result r.new }
{
    let j = top(r);
    if j == 0 {
        return 0;
    }
    let k = j - 1;
    let v = tables.inverse(r[k]);
    scale(tables, v, &mut r[..k]);
    j
}
