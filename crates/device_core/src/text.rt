//! `Text`: a NUL-terminated name of at most 31 bytes, cut as the kernel cuts it.
ghost use Rattle.std.specs.Prelude.{◌≡◌, ◌≤◌, length};
ghost use Rattle.device_core.specs.theorem.Names.{as_text as text_as, text_of};

/// The bytes of a text with its terminating NUL, as the names in Linux's `struct sync_file_info`.
pub const TEXT_BYTES: usize = 32;

const _: () = prove!(TEXT_BYTES == 32);

/// A text of the kernel: its bytes up to the first that is 0.
#[derive(Clone, Copy, Debug)]
pub struct Text {
    pub bytes: [u8; 32],
}

impl Text {
    /// The empty text.
    pub const EMPTY: Text = Text { bytes: [0; 32] };

    /// The text of these bytes, cut to one less than `TEXT_BYTES` as Linux's `snprintf` and `strscpy` cut it, and
    /// padded with zeros.
    pub fn of(bytes: &[u8]) -> Text
        ensures { result ≡ text_as bytes.now }
    {
        let mut text = [0; TEXT_BYTES];
        let end = bytes.len().min(TEXT_BYTES - 1);
        text[..end].copy_from_slice(&bytes[..end]);
        Text { bytes: text }
    }

    /// Its bytes, up to the first 0.
    pub fn as_bytes(&self) -> &[u8]
        ensures bytes { result.now ≡ text_of self.now }
        ensures few { length result.now ≤ 32 }
    {
        for (end, byte) in self.bytes.iter().enumerate() {
            if *byte == 0 {
                return &self.bytes[..end];
            }
        }
        &self.bytes
    }
}
