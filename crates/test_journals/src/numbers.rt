// Rows of the map from numbers.
use number_map::NumberMap;
use std::alloc::Global;
use std::test::Fail;

// A map of two values, of which one took another's place.
fn filled(alloc: Global) -> Result<NumberMap<u32>, Fail> {
    let mut map = NumberMap::new(alloc);
    for (number, value) in [(3, 30), (0, 10), (3, 31)] {
        map.insert(number, value)?;
    }
    Ok(map)
}

// What a map answers before it is cleared, and after that.
fn answers(map: &mut NumberMap<u32>) -> [Option<u32>; 5] {
    let first = map.get(0);
    let second = map.get(1);
    let removed = map.remove(3);
    let behind = map.get(3);
    map.clear();
    [first, second, removed, behind, map.get(0)]
}

#[test]
fn values_stand_at_their_numbers(rt: HostRuntime) -> Result<(), Fail> {
    let mut map = filled(rt.alloc())?;
    let answers = answers(&mut map);
    assert!(rt; answers == [Some(10), None, Some(31), None, None]);
    Ok(())
}
