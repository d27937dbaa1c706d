// Bytes written one after the other into a buffer that is lent: words and lines for the count program, fields for a border record.
#![tactic(auto)]

ghost use Rattle.std.specs.Prelude.{[], ◌∷◌, ◌≡◌, length};
ghost use Rattle.writer.specs.Parts.{Room, Writes};

// A buffer, and where the next byte goes.
#[derive(Drop)]
pub struct Writer<'a> {
    pub out: &'a mut [u8],
    pub at: usize,
}

impl<'a> Writer<'a> {
    // Writes from the buffer's start.
    pub fn new(out: &'a mut [u8]) -> Writer<'a>
        ensures { result ≡ record { out = out.entry; at = 0 } }
    {
        Writer { out, at: 0 }
    }

    // Writes a byte.
    pub fn byte(&mut self, b: u8)
        requires { Room 1 self.old }
        ensures { Writes (b ∷ []) self.old self.new }
    {
        self.out[self.at] = b;
        self.at += 1;
    }

    // Writes several.
    pub fn bytes(&mut self, bytes: &[u8])
        requires { Room (length bytes.now) self.old }
        ensures { Writes bytes.now self.old self.new }
    {
        let end = self.at + bytes.len();
        self.out[self.at..end].copy_from_slice(bytes);
        self.at = end;
    }
}
