/// The bytes that are still to be read.
#[derive(Clone, Copy)]
pub(crate) struct Unread<'a> {
    pub(crate) bytes: &'a [u8],
}

impl<'a> Unread<'a> {
    /// The next byte.
    pub(crate) fn byte(&mut self) -> Option<u8> {
        match self.bytes {
            [first, rest @ ..] => {
                self.bytes = rest;
                Some(*first)
            }
            [] => None,
        }
    }

    /// The number in the next bytes, so many of them, the greatest first. None has more than eight.
    pub(crate) fn number(&mut self, bytes: u32) -> Option<u64> {
        let mut number: u64 = 0;
        for _ in 0..bytes {
            let byte = self.byte()?;
            number = number.checked_mul(256)?.checked_add(u64::from(byte))?;
        }
        Some(number)
    }

    /// The next bytes, so many of them.
    pub(crate) fn piece(&mut self, bytes: u64) -> Option<&'a [u8]> {
        if bytes > self.bytes.len() as u64 {
            return None;
        }
        let (piece, rest) = self.bytes.split_at(bytes as usize);
        self.bytes = rest;
        Some(piece)
    }
}
