// The value of a polynomial, by Horner's rule over logs.
ghost use Rattle.std.specs.Prelude.{◌≡◌, ◌+◌, ◌<◌, ◌^◌, length, get_or};
ghost use Rattle.std.specs.Int.Bits.{bit_xor};
ghost use Rattle.algebra.specs.Polynomial.{eval, Below};
ghost use Rattle.field.specs.Field.{G};
ghost use Rattle.poly.specs.Values.{FourValues};

use field::tables::Tables;

// The value of f at x.
pub fn evaluate(tables: &Tables, f: &[u16], x: u16) -> u16
    requires { let m = tables.now.degree in Below (2 ^ m) f.now × (x < 2 ^ m) }
    ensures { result ≡ eval (G tables.now.degree) f.now x }
{
    if x == 0 {
        return match f {
            [constant, ..] => *constant,
            [] => 0,
        };
    }
    let logs = tables.logs;
    let antilogs = tables.antilogs;
    let s = logs[x as usize] as usize;
    let mut v: u16 = 0;
    for k in (0..f.len()).rev() {
        v = f[k] ^ antilogs[s + logs[v as usize] as usize];
    }
    v
}

// One turn of Horner's rule: the next coefficient, and the value so far times the element whose log is s.
fn next_value(logs: &[u16], antilogs: &[u16], s: usize, g: u16, v: u16) -> u16
    requires { (v < length logs.now) × (s + get_or logs.now v 0 < length antilogs.now) }
    ensures { result ≡ bit_xor g (get_or antilogs.now (s + get_or logs.now v 0) 0) }
{
    g ^ antilogs[s + logs[v as usize] as usize]
}

// The values of f at x, x + 1, x + 2 and x + 3, four chains side by side.
// kept: the chains have names; as one array that from_fn makes anew each turn, from_fn-v-requires did not close
pub fn evaluate_four(tables: &Tables, f: &[u16], x: u16) -> [u16; 4]
    requires { let m = tables.now.degree in Below (2 ^ m) f.now × (0 < x) × (x + 3 < 2 ^ m) }
    ensures { FourValues tables.now.degree f.now x result }
{
    let logs = tables.logs;
    let antilogs = tables.antilogs;
    let i = x as usize;
    let p = logs[i] as usize;
    let q = logs[i + 1] as usize;
    let r = logs[i + 2] as usize;
    let s = logs[i + 3] as usize;
    let mut a: u16 = 0;
    let mut b: u16 = 0;
    let mut c: u16 = 0;
    let mut d: u16 = 0;
    for k in (0..f.len()).rev() {
        let g = f[k];
        a = next_value(logs, antilogs, p, g, a);
        b = next_value(logs, antilogs, q, g, b);
        c = next_value(logs, antilogs, r, g, c);
        d = next_value(logs, antilogs, s, g, d);
    }
    [a, b, c, d]
}
