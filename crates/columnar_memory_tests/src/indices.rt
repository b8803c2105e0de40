ghost use Rattle.std.specs.Prelude.{◌≡◌, ◌+◌, ◌≤ℤ◌, ℕ, pos, length};
ghost use Rattle.columnar_memory_native.specs.Natural.{IsValueOf};

use columnar_memory_native::{Index, IndexRange, Offset, Steps};

// The offset that lies a number of items after this one.
fn offset_after<O: Offset>(last: &O, length: usize) -> Option<O>
    requires { pos 0 ≤ℤ O.value last.now }
    ensures { (n : ℕ) → O.value last.now ≡ pos n → IsValueOf O.value O.greatest (n + length) result }
{
    let sum = last.to_usize().checked_add(length)?;
    O::from_usize(sum)
}

#[test]
fn offsets_end_at_the_greatest_of_their_type(rt: HostRuntime) {
    let small: i32 = 5;
    assert_eq!(rt; offset_after(&small, 2_147_483_642), Some(i32::MAX));
    assert_eq!(rt; offset_after(&small, 2_147_483_643), None);
    let large: i64 = 5;
    assert_eq!(rt; offset_after(&large, 2_147_483_643), Some(2_147_483_648));
    assert_eq!(rt; offset_after(&large, usize::MAX), None);
}

#[test]
fn offsets_of_64_bits_are_large(rt: HostRuntime) {
    assert_eq!(rt;
        (<i32 as Offset>::IS_LARGE, <i64 as Offset>::IS_LARGE),
        (false, true)
    );
}

// As many steps as there are bytes.
fn step_through(bytes: &[u8], steps: &mut Steps)
    ensures { steps.new.count ≡ steps.old.count + length bytes.now }
{
    for _byte in bytes {
        steps.tick();
    }
}

#[test]
fn steps_are_counted(rt: HostRuntime) {
    let mut steps = Steps::new();
    step_through(&[1, 2, 3], &mut steps);
    steps.tick();
    assert_eq!(rt; size_of::<Steps>(), 0);
}

// The sum of the indices of a range that are not below zero.
fn indices<I: Index>(range: IndexRange<I>) -> usize {
    let mut count = 0usize;
    for index in range {
        count = count.saturating_add(index.try_to_usize().unwrap_or(0));
    }
    count
}

#[test]
fn ranges_go_up_to_their_end(rt: HostRuntime) {
    assert_eq!(rt; u8::range(250, 255).map(indices), Some(1260));
    assert!(rt; u8::range(250, 256).is_none());
    assert_eq!(rt; IndexRange::new(-2i32, 2).size_hint(), (4, Some(4)));
    assert_eq!(rt; indices(IndexRange::new(-2i64, 3)), 3);
}

#[test]
fn indices_are_numbers(rt: HostRuntime) {
    assert_eq!(rt; <i16 as Index>::from_usize(32_768), None);
    assert_eq!(rt; <u64 as Index>::from_as_usize(7), 7);
    assert_eq!(rt; Index::to_usize(&9u32), 9);
}
