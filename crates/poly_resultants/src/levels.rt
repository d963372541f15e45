// Up and down a chain of maps: the resultant of f by the first map, its roots by the others, and the roots of f above
// them. Where no map is left, only the numbers below end have to be tried.
ghost use Rattle.poly_resultants.specs.Levels.{Maps, Mapped, Climbs, Levelled};

use crate::descent::descend;
use crate::map::{convert, every_other, resultant};
use crate::trial::tried;
use field::tables::Tables;
use input::LIMIT;

// The most digits at even places.
const HALF: usize = LIMIT / 2 + 1;

// The room of a list of roots on the way: two more are written at a time.
pub const ROOM: usize = LIMIT + 2;

// Makes of f its resultant, and writes A and B to p and q.
fn map_once(tables: &Tables, b: u16, f: &mut [u16], p: &mut [u16], q: &mut [u16])
    requires { Maps tables.now.degree b f.old p.old q.old }
    ensures { Mapped tables.now.degree b f.old f.new p.new q.new }
{
    convert(tables, b, f);
    every_other(&f[..], p);
    every_other(&f[1..], q);
    resultant(tables, b, &p[..], &q[..], f);
}

// Writes the roots of f that the chain of maps takes to a number below end to the front of out. What stands in f is
// used up. Returns how many there are.
pub fn level(tables: &Tables, chain: &[u16], end: u16, f: &mut [u16], out: &mut [u16]) -> usize
    requires { Climbs tables.now.degree chain.now end f.old out.old }
    ensures { Levelled tables.now.degree chain.now end f.old result out.new }
{
    let [b, rest @ ..] = chain else {
        return tried(tables, end, &f[..], out);
    };
    let n = f.len();
    let e = n / 2;
    let d = n - e;
    let mut p = [0; HALF];
    let mut q = [0; HALF];
    map_once(tables, *b, f, &mut p[..d], &mut q[..e]);
    let mut ys = [0; ROOM];
    let k = level(tables, rest, end, f, &mut ys);
    descend(tables, *b, &p[..d], &q[..e], &ys[..k], out)
}
