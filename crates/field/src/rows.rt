// The fields that there are, a row each.
ghost use Rattle.std.specs.Prelude.{◌≡◌, true, ◌^◌};
ghost use Rattle.field.specs.Rows.{row_at, known, poly_of, IsRow};

// A field's row: its degree, its polynomial and its size.
#[derive(Clone, Copy)]
pub struct Row {
    pub degree: u16,
    pub poly: u16,
    pub size: u16,
}

// The fields of 16, of 256 and of 2048 elements.
pub const ROW4: Row = Row {
    degree: 4,
    poly: 19,
    size: 16,
};

pub const ROW8: Row = Row {
    degree: 8,
    poly: 285,
    size: 256,
};

pub const ROW11: Row = Row {
    degree: 11,
    poly: 2053,
    size: 2048,
};

// How many fields there are.
pub const FIELDS: usize = 3;

// The fields' rows, which the tests, the reader and the field types consult.
pub const ROWS: [Row; FIELDS] = [ROW4, ROW8, ROW11];

// The row of the field of degree m.
pub fn row_of(m: u16) -> Option<Row>
    ensures { result ≡ row_at m }
{
    ROWS.iter().find(|row| row.degree == m).copied()
}

// The row of the field of a known degree.
pub fn known_row(m: u16) -> Row
    requires { known m ≡ true }
    ensures { IsRow m result }
{
    row_of(m).unwrap()
}

// The polynomial of the field of a known degree.
pub fn poly_of(m: u16) -> u16
    requires { known m ≡ true }
    ensures { result ≡ poly_of m }
{
    known_row(m).poly
}

// How many elements it has.
pub fn size_of(m: u16) -> u16
    requires { known m ≡ true }
    ensures { result ≡ 2 ^ m }
{
    known_row(m).size
}
