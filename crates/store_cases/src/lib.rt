// One user of the store interface, over every store.
#![tactic(auto)]

#[cfg(test)]
mod user;

#[cfg(test)]
mod tests {
    use crate::user::{use_store, values};
    use keys::Place;
    use pile::Pile;
    use side::SideTable;
    use store::{Refusal, Store};
    use windows::{Pocket, WindowStore};

    const NOWHERE: Place<u32> = Place {
        partition: 9,
        key: 9,
    };

    #[test]
    fn over_windows(rt: HostRuntime) {
        let mut keys = [7u32; 1024];
        let mut values = [7u64; 1024];
        let mut lengths = [7u64; 256];
        let mut store = WindowStore::open(&mut keys, &mut values, &mut lengths, 4);
        assert!(rt; store.partition_count() == 256);
        assert!(rt; store.assured_number() == 4);
        use_store(&rt, &mut store);
    }

    #[test]
    fn over_pocket(rt: HostRuntime) {
        let mut store = Pocket::open();
        assert!(rt; store.partition_count() == 256);
        assert!(rt; store.assured_number() == 4);
        use_store(&rt, &mut store);
    }

    #[test]
    fn over_side(rt: HostRuntime) {
        let mut keys = [NOWHERE; 6];
        let mut values = [7u64; 6];
        let mut store = SideTable::open(&mut keys, &mut values, 256);
        assert!(rt; store.partition_count() == 256);
        assert!(rt; store.assured_number() == 6);
        use_store(&rt, &mut store);
    }

    #[test]
    fn over_pile_on_pocket(rt: HostRuntime) {
        let mut keys = [NOWHERE; 6];
        let mut values = [7u64; 6];
        let mut store = Pile::open(Pocket::open(), SideTable::open(&mut keys, &mut values, 256));
        assert!(rt; store.partition_count() == 256);
        assert!(rt; store.assured_number() == 6);
        use_store(&rt, &mut store);
    }

    #[test]
    fn over_pile_on_windows(rt: HostRuntime) {
        let mut keys = [7u32; 1024];
        let mut values = [7u64; 1024];
        let mut lengths = [7u64; 256];
        let mut side_keys = [NOWHERE; 6];
        let mut side_values = [7u64; 6];
        let windows = WindowStore::open(&mut keys, &mut values, &mut lengths, 4);
        let mut store = Pile::open(
            windows,
            SideTable::open(&mut side_keys, &mut side_values, 256),
        );
        use_store(&rt, &mut store);
    }

    // Window size 2 and a side of 3 cells: two puts each in partitions 1 and 2, then one in 2.
    #[test]
    fn refused_until_emptied(rt: HostRuntime) {
        let mut keys = [0u32; 512];
        let mut cells = [0u64; 512];
        let mut lengths = [0u64; 256];
        let mut side_keys = [NOWHERE; 3];
        let mut side_values = [0u64; 3];
        let windows = WindowStore::open(&mut keys, &mut cells, &mut lengths, 2);
        let mut store = Pile::open(
            windows,
            SideTable::open(&mut side_keys, &mut side_values, 256),
        );
        let one = Place {
            partition: 1,
            key: 10,
        };
        let two = Place {
            partition: 2,
            key: 20,
        };
        assert!(rt; store.put(&one, 0, 1).is_ok());
        assert!(rt; store.put(&one, 1, 2).is_ok());
        assert!(rt; store.put(&two, 0, 3).is_ok());
        assert!(rt; store.put(&two, 1, 4).is_ok());
        assert!(rt; store.spills() == 1);
        assert!(rt; store.put(&two, 2, 5).err().map(Refusal::code) == Some(6));
        assert!(rt; values(&store, &two) == (Some(3), Some(4), None));
        store.remove_run(&one);
        assert!(rt; store.put(&two, 2, 5).is_ok());
        assert!(rt; store.spills() == 2);
        assert!(rt; values(&store, &two) == (Some(3), Some(4), Some(5)));
    }

    // Numbers that do not fit make a void store, and leave the memory as it was.
    #[test]
    fn void_stores(rt: HostRuntime) {
        let mut keys = [7u32; 4];
        let mut values = [7u64; 4];
        let mut lengths = [7u64; 3];
        let store = WindowStore::open(&mut keys, &mut values, &mut lengths, 2);
        assert!(rt;
            store.partition_count() == 0 && store.assured_number() == 0 && store.is_empty()
        );
        assert!(rt; lengths[0] == 7 && lengths[2] == 7);
        let mut side_keys = [NOWHERE; 2];
        let mut side_values = [7u64; 3];
        let side = SideTable::open(&mut side_keys, &mut side_values, 256);
        assert!(rt; side.partition_count() == 0 && side.assured_number() == 0 && side.is_empty());
    }
}
