// Scripts and their answers.
#![tactic(auto)]

#[cfg(test)]
mod tests {
    use runner::run_script;
    use std::alloc::{AllocError, Global};
    use std::process::Abort;
    use std::test::Fail;

    // Each script gets the answers beside it; `wrong` says whether one of its lines is wrong.
    fn check_answers(
        rt: &impl Abort,
        heap: Global,
        wrong: bool,
        table: &[(&str, &str)],
    ) -> Result<(), Fail> {
        for (script, want) in table {
            let report = run_script(heap, script.as_bytes())?;
            assert_eq!(rt; report.text.as_str(), *want);
            assert_eq!(rt; report.wrong, wrong, "{want}");
        }
        Ok(())
    }

    #[test]
    fn runs(rt: HostRuntime) -> Result<(), Fail> {
        let table = [
            ("", ""),
            ("# none\n\n", ""),
            (
                "open 1 1 cap position side 4\nget 61\ncounts",
                "opened\nrun\nkeys 0 items 0 pruned 0\n",
            ),
            (
                "open 1 1 cap position side 4\ninsert - 7\nget 00\nfirst\n",
                "opened\nok\nrun 7\nplace 0 0 run 7\n",
            ),
            (
                "open 1 2 label weighing side 4\r\ninsert 41 1:-5\r\nlast\r\n",
                "opened\nok\nplace 16640 0000000000000000 run 1:-5\n",
            ),
            (
                "open 1 1 cap position side 2\nfirst\nlast\nwalk\n",
                "opened\nnone\nnone\nwalk\n",
            ),
        ];
        check_answers(&rt, rt.alloc(), false, &table)
    }

    #[test]
    fn order(rt: HostRuntime) -> Result<(), Fail> {
        let table = [
            (
                "open 1 1 cap position side 8\ninsert FF 1\ninsert 00FF 2\ninsert 0001 3\nwalk\nlast\nrun 0 16777216\n",
                "opened\nok\nok\nok\nwalk 0:16777216 0:4278190080 255:0\nplace 255 0 run 1\nrun 3\n",
            ),
            (
                "open 1 1 cap position side 8\ninsert 6162 1\ninsert 61620000 2\ninsert 6162000000 3\nget 6162\ncounts\n",
                "opened\nok\nok\nok\nrun 1 2 3\nkeys 1 items 3 pruned 0\n",
            ),
        ];
        check_answers(&rt, rt.alloc(), false, &table)
    }

    #[test]
    fn refusals(rt: HostRuntime) -> Result<(), Fail> {
        let table = [
            (
                "open 1 0 cap position side 4\nget 61\n",
                "opened\nrefused 1\n",
            ),
            (
                "open 1 4 cap position side 4\ninsert 61 1\nfirst\n",
                "opened\nrefused 1\nrefused 1\n",
            ),
            (
                "open 1 1 cap position side 65537\nwalk\ncounts\n",
                "opened\nrefused 1\nrefused 1\n",
            ),
            (
                "open 1 1 cap position side 1\ninsert 61 1\ninsert 61 2\nget 61\ncounts\n",
                "opened\nok\nrefused 6\nrun 1\nkeys 1 items 1 pruned 0\n",
            ),
            (
                "open 1 1 cap position side 3\ninsert 61 1\nslots 0\nget 61\nget 62\nrun 97 0\nfirst\nslots 1\nget 61\n",
                "opened\nok\nok\nrefused 8\nrun\nrefused 8\nplace 97 0 run 1\nok\nrun 1\n",
            ),
        ];
        check_answers(&rt, rt.alloc(), false, &table)
    }

    #[test]
    fn stores(rt: HostRuntime) -> Result<(), Fail> {
        let table = [
            (
                "open 1 1 cap position windows 2\ninsert 61 1\ninsert 6101 2\ninsert 6102 3\ninsert 62 4\nwalk\ncounts\n",
                "opened\nok\nok\nrefused 6\nok\nwalk 97:0 97:16777216 98:0\nkeys 3 items 3 pruned 0\n",
            ),
            (
                "open 1 2 label weighing windows 1\ninsert 4142 3:-7\nget 4142\nlast\n",
                "opened\nok\nrun 3:-7\nplace 16706 0000000000000000 run 3:-7\n",
            ),
            (
                "open 1 1 fold position pile pocket 9\ninsert 61 1\ninsert 61 2\ninsert 61 3\ninsert 61 4\ncounts\nget 61\n",
                "opened\nok\nok\nok\nok\nkeys 1 items 4 pruned 0 spills 1\nrun 1 2 3 4\n",
            ),
            (
                "open 1 2 cap position pocket\nget 61\n",
                "opened\nrefused 1\n",
            ),
            (
                "open 1 1 cap position windows 513\nget 61\nopen 1 1 cap position pile 0 4\nwalk\n",
                "opened\nrefused 1\nopened\nrefused 1\n",
            ),
        ];
        check_answers(&rt, rt.alloc(), false, &table)
    }

    // As many values under one key, in a pile of windows of 512 cells with a large side.
    fn flood(heap: Global, values: usize) -> Result<String, AllocError> {
        let inserts = "insert 4101 7\n".repeat(heap, values)?;
        format!(in heap; "open 1 1 cap position pile 512 65536\nslots 0\n{inserts}counts\n")
    }

    // Value 511 of a partition stays in its window, and 512 moves the partition.
    #[test]
    fn fills_a_window(rt: HostRuntime) -> Result<(), Fail> {
        let table = [
            (511, "keys 1 items 511 pruned 0 spills 0\n"),
            (512, "keys 1 items 512 pruned 0 spills 1\n"),
        ];
        for (values, want) in table {
            let script = flood(rt.alloc(), values)?;
            let report = run_script(rt.alloc(), script.as_bytes())?;
            assert!(rt; report.text.as_str().ends_with(want), "{want}");
        }
        Ok(())
    }

    #[test]
    fn wrong_lines(rt: HostRuntime) -> Result<(), Fail> {
        let table = [
            ("\ncounts\n", "error line 2: no book is open\n"),
            (
                "open 1 1 fold position side 4\ninsert 61 1\nfirst\nwalk\nget 61\n",
                "opened\nok\nerror line 3: the book has no order\nerror line 4: the book has no order\nrun 1\n",
            ),
            (
                "open 1 1 cap position side 4\ninsert 61 3:4\nget 61\n",
                "opened\nerror line 2: does not fit the book's values\nrun\n",
            ),
            (
                "open 1 1 label weighing side 4\ninsert 61 9\nrun 97 12\ncounts\n",
                "opened\nerror line 2: does not fit the book's values\nerror line 3: does not fit the book's keys\nkeys 0 items 0 pruned 0\n",
            ),
            (
                "open 1 1 cap position side 4\ninsert 61 1\nopen 1 1 cap position side\nget 61\n",
                "opened\nok\nerror line 3: a word is missing\nrun 1\n",
            ),
            (
                "open 1 1 cap position side 4\ninsert 61 18446744073709551616\nget 6\n",
                "opened\nerror line 2: a number out of range\nerror line 3: an odd hexadecimal digit\n",
            ),
            (
                "open 1 1 cap position pocket\ninsert 61 1\nopen 1 1 label position pocket\nopen 1 1 cap weighing pile pocket 4\nget 61\n",
                "opened\nok\nerror line 3: does not fit the store\nerror line 4: does not fit the store\nrun 1\n",
            ),
            (
                "open 1 1 cap position side 4\ninsert 61 1\nopen 1 3 cap position windows 17\nget 61\n",
                "opened\nok\nerror line 3: no memory\nrun 1\n",
            ),
        ];
        check_answers(&rt, rt.alloc(), true, &table)
    }
}
