// Guesses of the roots of a cubic or a quartic of field 11, as crate poly_small makes them over the tables of a field.
// They promise nothing: who takes a guess tries its numbers.
// kept: poly_small's guess and trial in their place take 8 to 30 instructions in a hundred more, with the test that
// `can_split` makes (up to 83 without it), its trial alone 6 to 10
//
// Degree 3: with z = y + a, z^3 + a z^2 + b z + c is y^3 + (a^2 + b) y + (ab + c), and y times that is additive in y.
// Degree 4: z^4 + a z^3 + b z^2 + c z + d is affine where a = 0. Else, with e^2 = c / a and z = x + e, it has no term
// in x, and x^-1 is where an affine polynomial is 0.
// The images of a digit are those of the digit before, doubled: no table is asked for them.
use field_constants::arithmetic::{inverse11, product11, root11};
use field_constants::tables::{antilog11, folded, log11};
use poly_small::planes::{Plane, ascending, solutions};

// The product of two numbers as elements.
fn times(x: u16, y: u16) -> u16 {
    product11(x % 2048, y % 2048)
}

// The inverse of a number as an element; 0 where it is 0.
fn invert(x: u16) -> u16 {
    let y = x % 2048;
    if y == 0 {
        return 0;
    }
    inverse11(y)
}

// Twice an element.
fn twice(x: u16) -> u16 {
    folded(x as u32 * 2)
}

// 4 times an element.
fn four_times(x: u16) -> u16 {
    folded(x as u32 * 4)
}

// 16 times an element.
fn sixteen_times(x: u16) -> u16 {
    folded(x as u32 * 16)
}

// Can y^3 + a y + b have three roots? Otherwise Tr(a^3 / b^2) is 0. Logs are twice the positions.
fn can_split(a: u16, b: u16) -> bool {
    let j = (log11(a % 2048) % 4094 * 3 + (4094 - log11(b % 2048) % 4094) * 2) % 4094;
    let w = antilog11(j);
    (w ^ (w / 512)) % 2 == 1
}

// The y with y^4 + a y^2 + b y = c, where there are four; else y, u and v are 0.
fn affine(a: u16, b: u16, c: u16) -> Plane {
    if !can_split(a, b) {
        return Plane { y: 0, u: 0, v: 0 };
    }
    let mut images = [0u16; 11];
    let mut q: u16 = 1;
    let mut s = a;
    let mut t = b;
    for image in images.iter_mut() {
        *image = q ^ s ^ t;
        q = sixteen_times(q);
        s = four_times(s);
        t = twice(t);
    }
    solutions(&images, c)
}

// Three numbers, ascending: the roots of z^3 + a z^2 + b z + c, if it has three.
fn three_guess(a: u16, b: u16, c: u16) -> [u16; 3] {
    let s = affine(times(a, a) ^ b, times(a, b) ^ c, 0);
    if s.u == 0 {
        return [0, 0, 0];
    }
    let x = a ^ s.u;
    ascending([x, a ^ s.v, x ^ s.v])
}

// Four numbers, ascending: the roots of z^4 + a z^3 + b z^2 + c z + d, if it has four.
fn four_guess(a: u16, b: u16, c: u16, d: u16) -> [u16; 4] {
    if a == 0 {
        let s = affine(b, c, d);
        let x = s.y ^ s.u;
        return ascending([s.y, x, s.y ^ s.v, x ^ s.v]);
    }
    let f = times(c, invert(a));
    let e = root11(f % 2048);
    let h = invert(times(f, f ^ b) ^ d);
    let s = affine(times(times(a, e) ^ b, h), times(a, h), h);
    if s.u == 0 {
        return [0, 0, 0, 0];
    }
    let x = s.y ^ s.u;
    ascending([
        invert(s.y) ^ e,
        invert(x) ^ e,
        invert(s.y ^ s.v) ^ e,
        invert(x ^ s.v) ^ e,
    ])
}

// As many numbers as there are low coefficients p, three or four, ascending: the roots of the monic polynomial, if it
// has as many.
pub fn guess(p: &[u16]) -> [u16; 4] {
    match p {
        [d, c, b, a] => four_guess(*a, *b, *c, *d),
        [c, b, a] => {
            let [x, y, z] = three_guess(*a, *b, *c);
            [x, y, z, 0]
        }
        _ => [0, 0, 0, 0],
    }
}
