ghost use Rattle.std.specs.Prelude.{◌≡◌, ◌++◌, OnOk, OnErr, decimal};
ghost use Rattle.std.specs.Fmt.{signed_decimal};

use crate::memory::OutOfMemory;
use crate::seq::Seq;

/// A list of bytes.
pub type Text = Seq<u8>;

/// A list of texts: the words of a command line.
pub type Words = Seq<Text>;

/// A list of places, counted from 0.
pub type Places = Seq<u32>;

impl Seq<u8> {
    /// Adds these bytes at the end. At want of memory the text stays as it was.
    pub fn add(&mut self, bytes: &[u8]) -> Result<(), OutOfMemory>
        ensures ok { OnOk result (self.new ≡ self.old ++ bytes.now) }
        ensures err { OnErr result (self.new ≡ self.old) }
    {
        self.extend(bytes)
    }

    /// Adds the number in decimal digits. At want of memory the text stays as it was.
    pub fn add_number(&mut self, n: u64) -> Result<(), OutOfMemory>
        ensures ok { OnOk result (self.new ≡ self.old ++ decimal n) }
        ensures err { OnErr result (self.new ≡ self.old) }
    {
        let mut buffer = itoa::Buffer::new();
        self.add(buffer.format(n).as_bytes())
    }

    /// Adds the number in decimal digits, with `-` before it where it is negative. At want of memory the text stays
    /// as it was.
    pub fn add_signed(&mut self, n: i64) -> Result<(), OutOfMemory>
        ensures ok { OnOk result (self.new ≡ self.old ++ signed_decimal n) }
        ensures err { OnErr result (self.new ≡ self.old) }
    {
        let mut buffer = itoa::Buffer::new();
        self.add(buffer.format(n).as_bytes())
    }

    /// The bytes of the text.
    pub fn bytes(&self) -> &[u8]
        ensures { result.now ≡ self.now }
    {
        self.as_slice()
    }
}
