// Translators and splits on examples from outside.
#![tactic(auto)]

#[cfg(test)]
mod tests {
    use std::test::Fail;
    use translate::{Cap, Fold, Labels, Prefix, Translator};

    // 32-bit FNV-1a vectors of the public list, written down without a copy of it at hand.
    #[test]
    fn fold_vectors(rt: HostRuntime) {
        let vectors: [(&[u8], u32); 34] = [
            (b"", 0x811c9dc5),
            (b"a", 0xe40c292c),
            (b"b", 0xe70c2de5),
            (b"c", 0xe60c2c52),
            (b"d", 0xe10c2473),
            (b"e", 0xe00c22e0),
            (b"f", 0xe30c2799),
            (b"fo", 0x6222e842),
            (b"foo", 0xa9f37ed7),
            (b"foob", 0x3f5076ef),
            (b"fooba", 0x39aaa18a),
            (b"foobar", 0xbf9cf968),
            (b"\0", 0x050c5d1f),
            (b"a\0", 0x2b24d044),
            (b"b\0", 0x9d2c3f7f),
            (b"c\0", 0x7729c516),
            (b"d\0", 0xb91d6109),
            (b"e\0", 0x931ae6a0),
            (b"f\0", 0x052255db),
            (b"fo\0", 0xbef39fe6),
            (b"foo\0", 0x6150ac75),
            (b"foob\0", 0x9aab3a3d),
            (b"fooba\0", 0x519c4c3e),
            (b"foobar\0", 0x0c1c9eb8),
            (b"ch", 0x5f299f4e),
            (b"cho", 0xef8580f3),
            (b"chon", 0xac297727),
            (b"chong", 0x4546b9c0),
            (b"chongo", 0xbd564e7d),
            (b"chongo ", 0x6bdd5c67),
            (b"chongo w", 0xdd77ed30),
            (b"chongo wa", 0xf4ca9683),
            (b"chongo was", 0x4aeb9bd0),
            (b"chongo was ", 0xe0e67ad0),
        ];
        for (bytes, hash) in vectors {
            assert_eq!(rt; Fold.translate(bytes), hash);
        }
    }

    #[test]
    fn caps(rt: HostRuntime) {
        assert_eq!(rt; Cap.translate(b""), 0);
        assert_eq!(rt; Cap.translate(b"D"), 1140850688);
        assert_eq!(rt; Cap.translate(b"\x01\x02\x03\x04"), 0x01020304);
        assert_eq!(rt; Cap.translate(b"\xff\xff\xff\xff\x00"), 0xffffffff);
    }

    #[test]
    fn labels(rt: HostRuntime) {
        assert_eq!(rt; Labels.translate(b"").bytes, [0, 0, 0, 0, 0, 0, 0, 0]);
        assert_eq!(rt;
            Labels.translate(b"E-0412").bytes,
            [69, 45, 48, 52, 49, 50, 0, 0]
        );
        assert_eq!(rt;
            Labels.translate(b"123456789").bytes,
            [49, 50, 51, 52, 53, 54, 55, 56]
        );
    }

    // P, a key, its partition, and the length of its sub-key.
    #[test]
    fn splits(rt: HostRuntime) -> Result<(), Fail> {
        let cases: [(u64, &[u8], u64, usize); 7] = [
            (1, b"", 0, 0),
            (1, b"\x10\x01", 16, 1),
            (2, b"A", 16640, 0),
            (2, b"A\0", 16640, 0),
            (3, b"ABCD", 4276803, 1),
            (3, b"\xff\xff\xff", 16777215, 0),
            (3, b"\x01", 65536, 0),
        ];
        for (p, key, partition, len) in cases {
            let Some(prefix) = Prefix::new(p) else {
                return Err(Fail::new("a prefix was expected"));
            };
            let (found, rest) = prefix.split(key);
            assert_eq!(rt; found, partition);
            assert_eq!(rt; rest.len(), len);
        }
        assert!(rt; Prefix::new(0).is_none());
        assert!(rt; Prefix::new(4).is_none());
        Ok(())
    }
}
