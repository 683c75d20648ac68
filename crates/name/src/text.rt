// A name as text: eighteen bytes, and how many of them are the name's.
ghost use Rattle.std.specs.Prelude.{◌≡◌};

// The longest name's length.
pub(crate) const MOST: usize = 18;

// The bytes of a name and how many there are; unused bytes are 0. An array, since there is no heap.
#[derive(Clone, Copy)]
pub struct Name {
    pub bytes: [u8; MOST],
    pub len: usize,
}

impl Name {
    ghost use Rattle.name.specs.Spelled.{spelled};

    // The name's bytes alone.
    pub fn as_bytes(&self) -> &[u8]
        ensures { result.now ≡ spelled self.now }
    {
        &self.bytes[..self.len.min(MOST)]
    }
}
