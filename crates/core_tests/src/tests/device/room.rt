//! Tests of a map that has lost most of its entries.
use crate::tests::values::holds;
use device_core::room::give_room_back;
use std::collections::HashMap;
use std::test::Fail;

#[test]
fn a_map_of_few_entries_gives_room_back(rt: HostRuntime) -> Result<(), Fail> {
    let mut map = HashMap::new(rt.alloc());
    for number in 0..1_000_u64 {
        map.insert(number, number)?;
    }
    for number in 10..1_000_u64 {
        map.remove(&number);
    }
    let places = map.capacity();
    give_room_back(&mut map);
    holds(
        &rt,
        places >= 1_000 && map.capacity() < 100 && map.len() == 10,
    );
    Ok(())
}
