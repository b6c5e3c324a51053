//! Where the text of a program is.

ghost use Rattle.std.specs.Prelude.{◌≡◌};
ghost use Rattle.wedge_base.specs.Images as images;

/// The text: so many words from a base on.
#[derive(Clone, Copy, Debug)]
pub struct TextSpan {
    /// The address of its first word.
    pub base: u32,
    /// How many words it has.
    pub count: usize,
}

impl TextSpan {
    /// Whether an address is that of one of its words.
    pub fn has(self, address: u32) -> bool
        ensures { result ≡ images.is_text_address self.base self.count address }
    {
        address % 4 == 0
            && self.base <= address
            && (((address - self.base) / 4) as usize) < self.count
    }
}
