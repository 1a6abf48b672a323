ghost use Rattle.std.specs.Prelude.{◌≡◌};
ghost use Rattle.elf_objects.specs.Contents.{has_name, name_begins, EndsNames};

/// A string table, with the index after its last 00: names begin below it (gABI, "String Table").
#[derive(Clone, Copy, Debug)]
pub struct StringTable<'a> {
    pub bytes: &'a [u8],
    pub end: usize,
    pub ghost ends: { EndsNames bytes.now end },
}

impl<'a> StringTable<'a> {
    /// The table of these bytes. Its time grows with the number of bytes after the last 00.
    pub fn new(bytes: &'a [u8]) -> StringTable<'a>
        ensures { result.bytes.now ≡ bytes.now }
    {
        let mut end = bytes.len();
        while end > 0 && bytes[end - 1] != 0 {
            end -= 1;
        }
        StringTable { bytes, end }
    }

    /// Whether a name begins at a place, in constant time.
    pub fn has_name(&self, at: u32) -> bool
        ensures { result ≡ has_name self.now.bytes.now at }
    {
        (at as usize) < self.end
    }

    /// Whether a name begins at a place, and with a word.
    pub fn begins(&self, at: u32, word: &[u8]) -> bool
        ensures { result ≡ name_begins self.now.bytes.now at word.now }
    {
        self.has_name(at) && self.bytes[at as usize..].starts_with(word)
    }
}
