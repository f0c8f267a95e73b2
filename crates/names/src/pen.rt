// A pen that lays bytes over a part of a caller's buffer, and stands behind what it laid.
ghost use Rattle.std.specs.Prelude.{◌≡◌, ◌+◌, [], ◌∷◌, decimal, nat_le};

use itoa::Buffer;

#[derive(Drop)]
pub struct Pen<'a> {
    out: &'a mut [u8],
    at: usize,
}

// Whether so many bytes have room in a buffer of that length from the place on.
pub(crate) fn has_room(len: usize, at: usize, count: usize) -> bool
    ensures { result ≡ nat_le (at + count) len }
{
    at <= len && count <= len - at
}

impl<'a> Pen<'a> {
    ghost use Rattle.names.specs.Pens.{HasRoom, Lays};

    pub(crate) fn over(out: &'a mut [u8], at: usize) -> Pen<'a>
        ensures same { result.out.ghost_name ≡ out.entry.ghost_name }
        ensures now { result.out.now ≡ out.old }
        ensures place { result.at ≡ at }
    {
        Pen { out, at }
    }

    // The place where it stands.
    pub(crate) fn place(&self) -> usize
        ensures { result ≡ self.now.at }
    {
        self.at
    }

    pub(crate) fn lay(&mut self, bytes: &[u8])
        requires { HasRoom self.old bytes.now }
        ensures { Lays self.old self.new bytes.now }
    {
        let end = self.at + bytes.len();
        self.out[self.at..end].copy_from_slice(bytes);
        self.at = end;
    }

    pub(crate) fn lay_byte(&mut self, byte: u8)
        requires { HasRoom self.old (byte ∷ []) }
        ensures { Lays self.old self.new (byte ∷ []) }
    {
        self.out[self.at] = byte;
        self.at += 1;
    }

    pub(crate) fn lay_decimal(&mut self, number: u32)
        requires { HasRoom self.old (decimal number) }
        ensures { Lays self.old self.new (decimal number) }
    {
        self.lay(Buffer::new().format(number).as_bytes());
    }
}
