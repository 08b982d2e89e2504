// A lent buffer that is written from its start on.
ghost use Rattle.std.specs.Prelude.{◌≡◌, ◌+◌, ◌%◌, ◌++◌, ◌≤◌, length};
ghost use Rattle.deck.specs.Listing.{decimal, spaced};

// The last decimal digit of n.
fn digit(n: usize) -> u8
    ensures { result ≡ 48 + n % 10 }
{
    b'0' + (n % 10) as u8
}

// What does not fit is cut off.
// Kept: the text is not written by `write!`, whose clauses say what is written only where its result is Ok, and never that it is.
#[derive(Drop)]
pub(crate) struct Text<'a> {
    buffer: &'a mut [u8],
    pub(crate) written: usize,
    ghost inside: { written ≤ length buffer.now },
}

impl<'a> Text<'a> {
    ghost use Rattle.listing.specs.Appends.{Appends};

    pub(crate) fn new(buffer: &'a mut [u8]) -> Self
        ensures same_buffer { result.buffer.ghost_name ≡ buffer.entry.ghost_name }
        ensures bytes { result.buffer.now ≡ buffer.old }
        ensures start { result.written ≡ 0 }
    {
        Text { buffer, written: 0 }
    }

    pub(crate) fn push(&mut self, bytes: &[u8])
        ensures { Appends self.old bytes.now self.new }
    {
        let end = self.buffer.len().min(self.written + bytes.len());
        self.buffer[self.written..end].copy_from_slice(&bytes[..end - self.written]);
        self.written = end;
    }

    // n in decimal, the most significant digit first. Kept: no crate writes the digits, since its text would be one thing more to be believed.
    pub(crate) fn number(&mut self, n: usize)
        ensures { Appends self.old (decimal n) self.new }
    {
        if n < 10 {
            self.push(&[digit(n)]);
            return;
        }
        self.number(n / 10);
        self.push(&[digit(n)]);
    }

    // A number with the text before it.
    pub(crate) fn field(&mut self, label: &[u8], n: usize)
        ensures { Appends self.old (label.now ++ decimal n) self.new }
    {
        self.push(label);
        self.number(n);
    }

    // Numbers with a space between.
    pub(crate) fn spaced(&mut self, numbers: &[u16])
        ensures { Appends self.old (spaced numbers.now) self.new }
    {
        if let Some((first, others)) = numbers.split_first() {
            self.number(usize::from(*first));
            for other in others {
                self.field(b" ", usize::from(*other));
            }
        }
    }
}
