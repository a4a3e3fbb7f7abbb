// What a key is, and the number keys.
ghost use Rattle.std.specs.Prelude.{◌≡◌};
ghost use Rattle.keys.specs.Order.{Lawful, before};
ghost use Rattle.keys.specs.Laws.{numbers_lawful};

// A key, by the one order that `cmp` gives; keys that are equal in it are the same key.
pub trait Key: Ord + Copy + Drop {
    // Whether `self` comes before `other`.
    fn less(&self, other: &Self) -> bool
        ensures { result ≡ before Self.cmp self.now other.now }
    {
        self.cmp(other).is_lt()
    }

    ghost lawful: { Lawful Self.cmp };
}

// A number key: 32 bits, unsigned.
impl Key for u32 {
    ghost lawful = { numbers_lawful };
}
