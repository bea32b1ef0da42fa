use indexmap::IndexMap;
use std::alloc::{AllocError, Global};
use std::test::Fail;

/// For how many keys an empty table has room where it was asked for this.
fn room_for(alloc: Global, keys: usize) -> Result<usize, AllocError> {
    let mut table: IndexMap<u32, u64> = IndexMap::new(alloc);
    table.reserve(keys)?;
    Ok(table.capacity())
}

/// What `gmon_data` takes for granted of tables: a group is made for nine keys, and groups double.
#[test]
fn a_table_has_a_group_for_nine_keys(rt: HostRuntime) -> Result<(), Fail> {
    const ROOMS: &[(usize, usize)] = &[(1, 9), (9, 9), (10, 18), (19, 36), (36, 36), (37, 72)];
    for (keys, room) in ROOMS {
        assert_eq!(&rt; room_for(rt.alloc(), *keys)?, *room, "room for {keys} keys");
    }
    Ok(())
}
