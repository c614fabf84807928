// Bytes as they are.
ghost use Rattle.std.specs.Prelude.{[], ◌∷◌, ◌+◌, ◌<◌, ◌≤◌, length};
ghost use Rattle.print.specs.Written.{Prints};

use super::Printer;

impl Printer<'_> {
    // One byte.
    pub(crate) fn put_byte(&mut self, b: u8)
        requires { self.old.at < length self.old.out.now }
        ensures { Prints self.old (b ∷ []) self.new }
    {
        self.out[self.at] = b;
        self.at += 1;
    }

    // A text.
    pub(crate) fn put_text(&mut self, text: &[u8])
        requires { self.old.at + length text.now ≤ length self.old.out.now }
        ensures { Prints self.old text.now self.new }
    {
        let end = self.at + text.len();
        self.out[self.at..end].copy_from_slice(text);
        self.at = end;
    }
}
