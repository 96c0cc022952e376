// What no clause says: values worked out by hand.
use super::NumberSet;

#[test]
fn members_come_in_order(rt: HostRuntime) {
    let mut set = NumberSet::empty();
    set.insert(127);
    set.insert(0);
    set.insert(64);
    set.insert(0);
    assert_eq!(rt; set.len(), 3);
    assert!(rt; set.has(64) && !set.has(63) && !set.has(200));
    assert!(rt; set.bits() == (1 << 127) + (1 << 64) + 1);
    assert!(rt; NumberSet::from_bits(set.bits()) == set);
    assert_eq!(rt; set.pop_first(), Some(0));
    assert_eq!(rt; set.pop_first(), Some(64));
    assert_eq!(rt; set.pop_first(), Some(127));
    assert_eq!(rt; set.pop_first(), None);
    assert!(rt; set == NumberSet::default());
}

#[test]
fn sets_are_compared_as_lists(rt: HostRuntime) {
    let low = NumberSet::from_bits(0b11);
    let long = NumberSet::from_bits(0b10_0000_0011);
    let high = NumberSet::from_bits(0b10);
    assert!(rt; low < long && long < high && low < high);
    assert!(rt; NumberSet::empty() < low && low != high);
}
