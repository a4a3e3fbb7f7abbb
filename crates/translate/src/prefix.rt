// The prefix: how many bytes of a key select its partition.
ghost use Rattle.std.specs.Prelude.{◌≡◌, ◌^◌, ◌≤◌, MatchOption};

// One to three bytes.
#[derive(Clone, Copy)]
pub struct Prefix {
    pub(crate) bytes: usize,
    ghost few: { (1 ≤ bytes) × (bytes ≤ 3) },
}

impl Prefix {
    // The prefix of `p` bytes, if that is one to three.
    pub fn new(p: u64) -> Option<Prefix>
        ensures { MatchOption result (1 ≤ p → p ≤ 3 → ⊥) (λ x. (x.bytes ≡ p) × (1 ≤ p) × (p ≤ 3)) }
    {
        if p >= 1 && p <= 3 {
            Some(Prefix { bytes: p as usize })
        } else {
            None
        }
    }

    // The number of partitions.
    pub fn partitions(&self) -> u64
        ensures { result ≡ 256 ^ self.now.bytes }
    {
        256u64.pow(self.bytes as u32)
    }
}
