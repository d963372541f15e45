// The text of a line (docs/RULES.md section 6.2) put together in a string of fixed capacity, which needs no heap.
ghost use Rattle.std.specs.Prelude.{◌≡◌, ◌+◌, ◌*◌, ◌≤◌, ◌<◌, ◌^◌, [], ◌∷◌, ◌++◌, length};
ghost use Rattle.arrayvec.specs.ArrayString.{array_string_len};
ghost use Rattle.job_text.specs.Lines.{decimal, spaced, line_of, line_room};

use arrayvec::ArrayString;

// Puts x in decimal behind the text.
pub fn decimal<const N: usize>(x: u64, text: &mut ArrayString<N>)
    requires { array_string_len text.old + length (decimal x) ≤ N }
    ensures { text.new.bytes ≡ text.old.bytes ++ decimal x }
{
    let mut digits = itoa::Buffer::new();
    text.push_str(digits.format(x));
}

// A space and a digit.
fn spaced_digit(x: u64) -> &'static str
    requires { x < 10 }
    ensures { result.now ≡ spaced (x ∷ []) }
{
    match x {
        0 => " 0",
        1 => " 1",
        2 => " 2",
        3 => " 3",
        4 => " 4",
        5 => " 5",
        6 => " 6",
        7 => " 7",
        8 => " 8",
        _ => " 9",
    }
}

// Puts a space and x in decimal behind the text. Most numbers of a line have one digit: these are put at once.
pub fn put_spaced<const N: usize>(x: u64, text: &mut ArrayString<N>)
    requires { array_string_len text.old + length (spaced (x ∷ [])) ≤ N }
    ensures { text.new.bytes ≡ text.old.bytes ++ spaced (x ∷ []) }
{
    if x < 10 {
        text.push_str(spaced_digit(x));
        return;
    }
    text.push_str(" ");
    decimal(x, text);
}

// Puts numbers, each behind a space, behind the text.
pub fn put_numbers<const N: usize>(xs: &[u64], text: &mut ArrayString<N>)
    requires { array_string_len text.old + 21 * length xs.now ≤ N }
    ensures { (text.new.bytes ≡ text.old.bytes ++ spaced xs.now)
        × (array_string_len text.new ≤ array_string_len text.old + 21 * length xs.now) }
{
    for x in xs {
        put_spaced(*x, text);
    }
}

// Puts the line of a record into a string that is empty: its number k, its outcome and, where that is 0, how many roots
// there are, the steps and the roots.
pub fn put_line<const N: usize>(
    k: u32,
    outcome: u16,
    steps: u16,
    roots: &[u16],
    text: &mut ArrayString<N>,
)
    requires { (text.old.bytes ≡ []) × (length roots.now < 2 ^ 16) × (line_room (length roots.now) ≤ N) }
    ensures { text.new.bytes ≡ line_of k outcome steps roots.now }
{
    decimal(k as u64, text);
    put_spaced(outcome as u64, text);
    if outcome == 0 {
        put_spaced(roots.len() as u64, text);
        put_spaced(steps as u64, text);
        for root in roots {
            put_spaced(*root as u64, text);
        }
    }
    text.push_str("\n");
}

// The line of a record. Where it is to stand in a string of the caller's, `put_line` copies less.
pub fn line<const N: usize>(k: u32, outcome: u16, steps: u16, roots: &[u16]) -> ArrayString<N>
    requires { (length roots.now < 2 ^ 16) × (line_room (length roots.now) ≤ N) }
    ensures { result.bytes ≡ line_of k outcome steps roots.now }
{
    let mut text = ArrayString::new();
    put_line(k, outcome, steps, roots, &mut text);
    text
}
