// A short text that is put together, in fixed memory, before it is written, so that an output without room for the
// whole of it is left as it was. No `Display` stands behind it: the library's `write!` says nothing of what stands in the output
// after an `Err`.
ghost use Rattle.std.specs.Prelude.{◌≡◌, [], take, true};
ghost use Rattle.codec.specs.Number.{Wrote};
ghost use Rattle.text.specs.Put.{decimal_of};
ghost use Rattle.text.specs.Draft.{Adds, field_text, row_of};

use std::marker::Model;

// At most N bytes. What does not fit is cut off.
#[derive(Drop)]
pub struct Draft<const N: usize> {
    bytes: [u8; N],
    len: usize,
}

impl<const N: usize> Model for Draft<N> {
    ghost use Rattle.std.specs.Prelude.{ℕ, List, take, ◌≤◌};

    ghost Value = { List ℕ };

    ghost view = { λ d. take d.len d.bytes };

    ghost invariant = { λ d. d.len ≤ N };
}

impl<const N: usize> Draft<N> {
    pub fn new() -> Self
        ensures { result ≡ [] }
    {
        Draft {
            bytes: [0; N],
            len: 0,
        }
    }

    // What fits, as nearly all that is pushed does, goes in by its own length: where that is known, no call is made.
    pub fn push(&mut self, s: &[u8])
        ensures { Adds N self.old s.now self.new }
    {
        if N - self.len < s.len() {
            return self.cut(s);
        }
        codec::number::put_bytes(&mut self.bytes, self.len, s);
        self.len += s.len();
    }

    // As much of a text as there is room for.
    fn cut(&mut self, s: &[u8])
        ensures { Adds N self.old s.now self.new }
    {
        let part = crate::part::front(s, N - self.len);
        codec::number::put_bytes(&mut self.bytes, self.len, part);
        self.len += part.len();
    }

    // As `put::decimal`, whose write may not fit and says so. Most numbers of a line are one digit, which is pushed as it is.
    pub fn decimal(&mut self, v: u64)
        ensures { Adds N self.old (decimal_of v) self.new }
    {
        if v < 10 {
            return self.push(&[v as u8 + 48]);
        }
        let mut digits = [0u8; 20];
        let start = crate::put::spell(&mut digits, v);
        self.push(&digits[start..])
    }

    // A number behind a space.
    pub fn field(&mut self, v: u64)
        ensures { Adds N self.old (field_text v) self.new }
    {
        self.push(b" ");
        self.decimal(v)
    }

    // A line of a name and numbers, each behind a space.
    pub fn add_row(&mut self, name: &[u8], vs: &[u64])
        ensures { Adds N self.old (row_of name.now vs.now) self.new }
    {
        self.push(name);
        for &v in vs {
            self.field(v);
        }
        self.push(b"\n")
    }

    // That alone.
    pub fn row(name: &[u8], vs: &[u64]) -> Self
        ensures { result ≡ take N (row_of name.now vs.now) }
    {
        let mut line = Self::new();
        line.add_row(name, vs);
        line
    }

    pub fn as_slice(&self) -> &[u8]
        ensures { result.now ≡ self.now }
    {
        &self.bytes[..self.len]
    }

    // The whole of it over a slice, where it fits.
    pub fn put(&self, out: &mut [u8], at: usize) -> Option<usize>
        ensures { Wrote true out.old at self.now out.new result }
    {
        codec::number::put_bytes(out, at, self.as_slice())
    }
}
