// The tables of a field, as they are lent: a product is the sum of two logs and one load.
ghost use Rattle.std.specs.Prelude.{◌≡◌, ◌<◌, ◌^◌};
ghost use Rattle.field.specs.Field.{field_at, inverse, mul};
ghost use Rattle.field.specs.Lent.{Lent};

// The degree of a known field, its log table and its antilog table.
#[derive(Clone, Copy)]
pub struct Tables<'a> {
    pub degree: u16,
    pub logs: &'a [u16],
    pub antilogs: &'a [u16],
    pub ghost lent: { Lent degree logs.now antilogs.now },
}

impl<'a> Tables<'a> {
    // The product of x, which is not 0, and y.
    pub fn product(&self, x: u16, y: u16) -> u16
        requires { (0 < x) × (x < 2 ^ self.now.degree) × (y < 2 ^ self.now.degree) }
        ensures { result ≡ mul (field_at self.now.degree) x y }
    {
        let k = self.logs[x as usize] as usize;
        self.antilogs[k + self.logs[y as usize] as usize]
    }

    // The inverse of x, which is not 0: the antilog of twice the order less its log.
    pub fn inverse(&self, x: u16) -> u16
        requires { (0 < x) × (x < 2 ^ self.now.degree) }
        ensures { result ≡ inverse (field_at self.now.degree) x }
    {
        self.antilogs[2 * (self.logs.len() - 1) - self.logs[x as usize] as usize]
    }
}
