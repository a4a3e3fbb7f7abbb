// Scripts, and what their lines are read as.
#![tactic(auto)]

#[cfg(test)]
mod shown;

#[cfg(test)]
mod tests {
    use crate::shown::check_shown;
    use script::{Call, Command, Line, read_script};
    use std::alloc::{AllocError, Global};
    use std::test::Fail;

    #[test]
    fn lines(rt: HostRuntime) -> Result<(), Fail> {
        let table: [(&[u8], &str); 12] = [
            (b"", ""),
            (b"\n", ""),
            (b"\r\n\n\r\n", ""),
            (b"# first\n#\n#\xff\n", ""),
            (b"first", "1 First\n"),
            (b"first\n", "1 First\n"),
            (b"first\r\nlast\r\n", "1 First\n2 Last\n"),
            (b"first\r", "1 First\n"),
            (b"\n# a\nfirst\n\nlast", "3 First\n5 Last\n"),
            (b"first\r\r\n", "1 unknown command\n"),
            (b"first\nla\xffst\nlast", "1 First\n2 not UTF-8\n3 Last\n"),
            (b" # a\n\t\n", "1 a space too many\n2 unknown command\n"),
        ];
        check_shown(&rt, rt.alloc(), &table)
    }

    #[test]
    fn names(rt: HostRuntime) -> Result<(), Fail> {
        let table: [(&[u8], &str); 8] = [
            (b"first", "1 First\n"),
            (b"last", "1 Last\n"),
            (b"walk", "1 Walk\n"),
            (b"counts", "1 Counts\n"),
            (b"First", "1 unknown command\n"),
            (b"walks", "1 unknown command\n"),
            (b"wal", "1 unknown command\n"),
            (b"\xc3\xa9", "1 unknown command\n"),
        ];
        check_shown(&rt, rt.alloc(), &table)
    }

    #[test]
    fn names_to_come(rt: HostRuntime) -> Result<(), Fail> {
        let table: [(&[u8], &str); 12] = [
            (b"remove 61", "1 not built yet\n"),
            (b"retain 61 from 7", "1 not built yet\n"),
            (b"insert_and_retain 61 7 from 7", "1 not built yet\n"),
            (b"get_mut 61", "1 not built yet\n"),
            (b"get_mut_or_insert 61 7", "1 not built yet\n"),
            (b"edit next", "1 not built yet\n"),
            (b"get_many 61 62", "1 not built yet\n"),
            (b"next 61", "1 not built yet\n"),
            (b"previous 61", "1 not built yet\n"),
            (b"next_from 0 7", "1 not built yet\n"),
            (b"previous_from 0 7", "1 not built yet\n"),
            (b"walk_back", "1 not built yet\n"),
        ];
        check_shown(&rt, rt.alloc(), &table)
    }

    #[test]
    fn spaces(rt: HostRuntime) -> Result<(), Fail> {
        let table: [(&[u8], &str); 9] = [
            (b" first", "1 a space too many\n"),
            (b"first ", "1 a space too many\n"),
            (b"first  ", "1 a space too many\n"),
            (b" ", "1 a space too many\n"),
            (b"get  61", "1 a space too many\n"),
            (b"get 61 ", "1 a space too many\n"),
            (b"get ", "1 a space too many\n"),
            (b"insert 61  7", "1 a space too many\n"),
            (b"get\t61", "1 unknown command\n"),
        ];
        check_shown(&rt, rt.alloc(), &table)
    }

    #[test]
    fn words(rt: HostRuntime) -> Result<(), Fail> {
        let table: [(&[u8], &str); 10] = [
            (b"get", "1 a word is missing\n"),
            (b"get 61 62", "1 a word too many\n"),
            (b"insert", "1 a word is missing\n"),
            (b"insert 61", "1 a word is missing\n"),
            (b"insert 61 7 8", "1 a word too many\n"),
            (b"run 0", "1 a word is missing\n"),
            (b"run 0 7 8", "1 a word too many\n"),
            (b"slots", "1 a word is missing\n"),
            (b"first first", "1 a word too many\n"),
            (b"counts 1", "1 a word too many\n"),
        ];
        check_shown(&rt, rt.alloc(), &table)
    }

    #[test]
    fn keys(rt: HostRuntime) -> Result<(), Fail> {
        let table: [(&[u8], &str); 11] = [
            (b"get -", "1 Get { key: [] }\n"),
            (b"get 00", "1 Get { key: [0] }\n"),
            (b"get 09afAFff", "1 Get { key: [9, 175, 175, 255] }\n"),
            (b"get 6", "1 an odd hexadecimal digit\n"),
            (b"get 616", "1 an odd hexadecimal digit\n"),
            (b"get 6g", "1 a wrong hexadecimal digit\n"),
            (b"get G6", "1 a wrong hexadecimal digit\n"),
            (b"get 61/:", "1 a wrong hexadecimal digit\n"),
            (b"get 0x61", "1 a wrong hexadecimal digit\n"),
            (b"get --", "1 a wrong hexadecimal digit\n"),
            (b"get \xc3\xa9", "1 a wrong hexadecimal digit\n"),
        ];
        check_shown(&rt, rt.alloc(), &table)
    }

    #[test]
    fn positions(rt: HostRuntime) -> Result<(), Fail> {
        let table: [(&[u8], &str); 9] = [
            (b"insert - 7", "1 Insert { key: [], value: Position(7) }\n"),
            (
                b"insert - 18446744073709551615",
                "1 Insert { key: [], value: Position(18446744073709551615) }\n",
            ),
            (
                b"insert - 0000000000000000000000000000000000000000000000000000000000000000000000000000000000000000000000000007",
                "1 Insert { key: [], value: Position(7) }\n",
            ),
            (
                b"insert - 18446744073709551616",
                "1 a number out of range\n",
            ),
            (
                b"insert - 100000000000000000000000000000000000000000",
                "1 a number out of range\n",
            ),
            (b"insert - 99999999999999999999x", "1 not a number\n"),
            (b"insert - +5", "1 not a number\n"),
            (b"insert - -5", "1 not a number\n"),
            (b"insert - 0x5", "1 not a number\n"),
        ];
        check_shown(&rt, rt.alloc(), &table)
    }

    #[test]
    fn weighings(rt: HostRuntime) -> Result<(), Fail> {
        let table: [(&[u8], &str); 6] = [
            (
                b"insert 61 7:-12",
                "1 Insert { key: [97], value: Weighing { scale: 7, grams: -12 } }\n",
            ),
            (
                b"insert 61 4294967295:2147483647",
                "1 Insert { key: [97], value: Weighing { scale: 4294967295, grams: 2147483647 } }\n",
            ),
            (
                b"insert 61 0:-2147483648",
                "1 Insert { key: [97], value: Weighing { scale: 0, grams: -2147483648 } }\n",
            ),
            (
                b"insert 61 0:-0",
                "1 Insert { key: [97], value: Weighing { scale: 0, grams: 0 } }\n",
            ),
            (
                b"insert 61 0007:-0012",
                "1 Insert { key: [97], value: Weighing { scale: 7, grams: -12 } }\n",
            ),
            (b"insert 61 1:5:6", "1 not a number\n"),
        ];
        check_shown(&rt, rt.alloc(), &table)
    }

    #[test]
    fn wrong_weighings(rt: HostRuntime) -> Result<(), Fail> {
        let table: [(&[u8], &str); 10] = [
            (b"insert 61 4294967296:0", "1 a number out of range\n"),
            (b"insert 61 0:2147483648", "1 a number out of range\n"),
            (b"insert 61 0:-2147483649", "1 a number out of range\n"),
            (b"insert 61 :5", "1 not a number\n"),
            (b"insert 61 5:", "1 not a number\n"),
            (b"insert 61 5:-", "1 not a number\n"),
            (b"insert 61 5:--1", "1 not a number\n"),
            (b"insert 61 5:+1", "1 not a number\n"),
            (b"insert 61 -5:1", "1 not a number\n"),
            (b"insert 61 :", "1 not a number\n"),
        ];
        check_shown(&rt, rt.alloc(), &table)
    }

    #[test]
    fn subkeys(rt: HostRuntime) -> Result<(), Fail> {
        let table: [(&[u8], &str); 6] = [
            (
                b"run 3 7",
                "1 Run { partition: 3, subkey: SubkeyWord { number: Some(7), label: None } }\n",
            ),
            (
                b"run 18446744073709551615 4294967295",
                "1 Run { partition: 18446744073709551615, subkey: SubkeyWord { number: Some(4294967295), label: None } }\n",
            ),
            (
                b"run 0 0000000000000010",
                "1 Run { partition: 0, subkey: SubkeyWord { number: Some(10), label: Some([0, 0, 0, 0, 0, 0, 0, 16]) } }\n",
            ),
            (
                b"run 0 00000000000000010",
                "1 Run { partition: 0, subkey: SubkeyWord { number: Some(10), label: None } }\n",
            ),
            (
                b"run 0 9999999999999999",
                "1 Run { partition: 0, subkey: SubkeyWord { number: None, label: Some([153, 153, 153, 153, 153, 153, 153, 153]) } }\n",
            ),
            (
                b"run 0 0123456789abcdef",
                "1 Run { partition: 0, subkey: SubkeyWord { number: None, label: Some([1, 35, 69, 103, 137, 171, 205, 239]) } }\n",
            ),
        ];
        check_shown(&rt, rt.alloc(), &table)
    }

    #[test]
    fn wrong_subkeys(rt: HostRuntime) -> Result<(), Fail> {
        let table: [(&[u8], &str); 8] = [
            (b"run 0 4294967296", "1 a number out of range\n"),
            (
                b"run 0 0123456789ABCDEF",
                "1 neither a number nor a label\n",
            ),
            (
                b"run 0 0123456789abcdeg",
                "1 neither a number nor a label\n",
            ),
            (b"run 0 123456789abcdef", "1 neither a number nor a label\n"),
            (b"run 0 -", "1 neither a number nor a label\n"),
            (b"run 0 +5", "1 neither a number nor a label\n"),
            (b"run x 7", "1 not a number\n"),
            (b"run 18446744073709551616 7", "1 a number out of range\n"),
        ];
        check_shown(&rt, rt.alloc(), &table)
    }

    #[test]
    fn slots(rt: HostRuntime) -> Result<(), Fail> {
        let table: [(&[u8], &str); 6] = [
            (b"slots 0", "1 Slots(0)\n"),
            (b"slots 65536", "1 Slots(65536)\n"),
            (b"slots 00065536", "1 Slots(65536)\n"),
            (b"slots 65537", "1 a number out of range\n"),
            (b"slots 18446744073709551616", "1 a number out of range\n"),
            (b"slots -1", "1 not a number\n"),
        ];
        check_shown(&rt, rt.alloc(), &table)
    }

    #[test]
    fn openings(rt: HostRuntime) -> Result<(), Fail> {
        let table: [(&[u8], &str); 4] = [
            (
                b"open 1 16 cap position side 1000",
                "1 Opening { label: 1, prefix: 16, translator: Cap, values: Position, store: Side { cells: 1000 } }\n",
            ),
            (
                b"open 4294967295 18446744073709551615 label weighing side 18446744073709551615",
                "1 Opening { label: 4294967295, prefix: 18446744073709551615, translator: Label, values: Weighing, store: Side { cells: 18446744073709551615 } }\n",
            ),
            (
                b"open 0 0 fold position side 0",
                "1 Opening { label: 0, prefix: 0, translator: Fold, values: Position, store: Side { cells: 0 } }\n",
            ),
            (
                b"open 4294967296 1 cap position side 1",
                "1 a number out of range\n",
            ),
        ];
        check_shown(&rt, rt.alloc(), &table)
    }

    #[test]
    fn wrong_openings(rt: HostRuntime) -> Result<(), Fail> {
        let table: [(&[u8], &str); 16] = [
            (b"open", "1 a word is missing\n"),
            (b"open 1 16 cap position", "1 a word is missing\n"),
            (b"open 1 16 cap position side", "1 a word is missing\n"),
            (b"open 1 16 cap position side 1 2", "1 a word too many\n"),
            (
                b"open 1 18446744073709551616 cap position side 1",
                "1 a number out of range\n",
            ),
            (
                b"open 1 1 cap position side 18446744073709551616",
                "1 a number out of range\n",
            ),
            (b"open 1 16 caps position side 1", "1 unknown translator\n"),
            (b"open 1 16 cap place side 1", "1 unknown values\n"),
            (b"open 1 16 cap position sides 1", "1 unknown store\n"),
            (
                b"open 1 16 cap position pocket",
                "1 Opening { label: 1, prefix: 16, translator: Cap, values: Position, store: Pocket }\n",
            ),
            (
                b"open 1 16 cap position windows 4",
                "1 Opening { label: 1, prefix: 16, translator: Cap, values: Position, store: Windows { window: 4 } }\n",
            ),
            (
                b"open 1 16 cap position pile 4 8",
                "1 Opening { label: 1, prefix: 16, translator: Cap, values: Position, store: Pile { window: 4, cells: 8 } }\n",
            ),
            (
                b"open 1 1 cap position pile pocket 8",
                "1 Opening { label: 1, prefix: 1, translator: Cap, values: Position, store: PocketPile { cells: 8 } }\n",
            ),
            (
                b"open 1 1 cap position pile pocket",
                "1 a word is missing\n",
            ),
            (b"open 1 1 cap position pile 4", "1 a word is missing\n"),
            (b"open 1 1 cap position pile four 8", "1 not a number\n"),
        ];
        check_shown(&rt, rt.alloc(), &table)
    }

    // `get` with a key of that many bytes, each 255.
    fn long_line(heap: Global, bytes: usize) -> Result<String, AllocError> {
        let key = "fF".repeat(heap, bytes)?;
        format!(in heap; "get {key}")
    }

    #[test]
    fn long_lines(rt: HostRuntime) -> Result<(), Fail> {
        let line = long_line(rt.alloc(), 100_000)?;
        let lines = read_script(rt.alloc(), line.as_bytes())?;
        let [
            Line {
                command: Ok(Command::Call(Call::Get { key })),
                ..
            },
        ] = lines.as_slice()
        else {
            return Err(Fail::new("a key was expected"));
        };
        assert!(rt; key.len() == 100_000);
        assert!(rt; key.iter().all(|b| *b == 255));
        Ok(())
    }

    #[test]
    fn readings(rt: HostRuntime) -> Result<(), Fail> {
        let lines = read_script(rt.alloc(), b"run 0 0000000000000010")?;
        let [
            Line {
                command: Ok(Command::Call(Call::Run { subkey, .. })),
                ..
            },
        ] = lines.as_slice()
        else {
            return Err(Fail::new("a run was expected"));
        };
        assert_eq!(rt; subkey.as_number(), Some(10));
        assert_eq!(rt; subkey.as_label(), Some([0, 0, 0, 0, 0, 0, 0, 16]));
        Ok(())
    }
}
