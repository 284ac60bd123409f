// Up to 16 bytes on the air: a frame or a reply. No heap is here, so their number stands beside them. It has no impl Model: a
// type that is copied has to be given back by its value, and the bytes past the number are not.
ghost use Rattle.std.specs.Prelude.{◌≤◌};

#[derive(Clone, Copy)]
pub struct Message {
    bytes: [u8; 16],
    len: usize,
    ghost ok: { len ≤ 16 },
}

impl Message {
    ghost use Rattle.std.specs.Prelude.{◌≡◌, length, take};
    ghost use Rattle.typeb.specs.Messages.{bytes_of};

    // The first bytes of a buffer; all of it where it has fewer.
    pub fn front_of(bytes: [u8; 16], len: usize) -> Message
        ensures { bytes_of result ≡ take len bytes }
    {
        Message {
            bytes,
            len: len.min(16),
        }
    }

    pub fn as_slice(&self) -> &[u8]
        ensures result { result.now ≡ bytes_of self.now }
        ensures size { length (bytes_of self.now) ≤ 16 }
    {
        &self.bytes[..self.len]
    }
}
