// How a key is split into its partition and its sub-key.
ghost use Rattle.std.specs.Prelude.{◌≡◌, ◌^◌, ◌<◌};
ghost use Rattle.translate.specs.Split.{split_of};

use crate::prefix::Prefix;

impl Prefix {
    // The first bytes of `key`, padded on the right with zeros, as a big-endian number; and the rest.
    pub fn split<'a>(&self, key: &'a [u8]) -> (u64, &'a [u8])
        ensures parts { (result.0, result.1.now) ≡ split_of self.now.bytes key.now }
        ensures below { result.0 < 256 ^ self.now.bytes }
    {
        let p = self.bytes;
        let n = key.len().min(p);
        let mut buffer = [0u8; 4];
        buffer[4 - p..4 - p + n].copy_from_slice(&key[0..n]);
        (u64::from(u32::from_be_bytes(buffer)), &key[n..])
    }
}
