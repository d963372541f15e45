// Elimination on rows of bits. Beside the rows a vector for each column is swept along: row k holds digit k of the
// images of the vectors.
ghost use Rattle.std.specs.Prelude.{◌≡◌, map, ◌*◌, ◌%◌, ◌≤◌, ◌<◌};
ghost use Rattle.input.specs.Limit.{widest};
ghost use Rattle.find_affine.specs.Systems.{columns, digit_row, IsPivot, Rowed, swept_by, Units, vectors_after};

use crate::COLUMNS;
use input::WIDEST;

// Digit i of each image.
fn digit_row(mut images: [u16; COLUMNS], i: usize) -> [u16; COLUMNS]
    requires { i < widest }
    ensures { result ≡ digit_row i images }
{
    for a in images.iter_mut() {
        *a = (*a >> i) % 2;
    }
    images
}

// The system: a row for each digit.
pub fn system(images: [u16; COLUMNS]) -> [[u16; COLUMNS]; WIDEST]
    ensures { Rowed images result }
{
    let mut rows = [[0; COLUMNS]; WIDEST];
    for i in 0..WIDEST {
        rows[i] = digit_row(images, i);
    }
    rows
}

// The vectors before the first row: 1, 2, 4, .., 2^n, then zeros.
pub fn units(n: usize) -> [u16; COLUMNS]
    requires { n ≤ widest }
    ensures { Units n result }
{
    let mut out = [0; COLUMNS];
    for j in 0..=n {
        out[j] = 1 << j;
    }
    out
}

// The lowest column with a bit.
fn pivot(row: &[u16; COLUMNS]) -> Option<usize>
    ensures { IsPivot row.now result }
{
    row.iter().position(|a| *a != 0)
}

// t where the last digit of b is 1, and else 0.
fn where_bit(b: u16, t: u16) -> u16
    ensures { result ≡ b % 2 * t }
{
    b % 2 * t
}

// The row's entry at column p, added wherever the row `by` has a bit.
fn sweep(row: &mut [u16; COLUMNS], by: &[u16; COLUMNS], p: usize)
    requires { p < columns }
    ensures { row.new ≡ swept_by p by.now row.old }
{
    let t = row[p];
    for j in 0..COLUMNS {
        row[j] ^= where_bit(by[j], t);
    }
}

// Column p cleared by the row `by`: it is added to every row with a bit there.
fn clear(rows: &mut [[u16; COLUMNS]; WIDEST], by: &[u16; COLUMNS], p: usize)
    requires { p < columns }
    ensures { rows.new ≡ map (swept_by p by.now) rows.old }
{
    for row in rows.iter_mut() {
        sweep(row, by, p);
    }
}

// The vectors that n rows leave: the pivot of each row in turn is swept out.
pub fn kernel(
    n: usize,
    mut rows: [[u16; COLUMNS]; WIDEST],
    mut vectors: [u16; COLUMNS],
) -> [u16; COLUMNS]
    requires { n ≤ widest }
    ensures { result ≡ vectors_after n rows vectors }
{
    for i in 0..n {
        let row = rows[i];
        if let Some(p) = pivot(&row) {
            clear(&mut rows, &row, p);
            sweep(&mut vectors, &row, p);
        }
    }
    vectors
}
