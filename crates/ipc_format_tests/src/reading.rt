//! What is read by address, at the bounds of each rule.
use ipc_format::flatbuffers::{
    Table, Vector, element_at, field_at, i16_at, reference_at, root_of, string_at, table_at,
    truth_field, u8_field, u16_at, vector_at, vector_field,
};
use std::test::*;

/// Where a table and its vtable stand, and how many bytes each of them has: place, vtable, vtable's size, table's size.
fn numbers_of(table: Option<Table>) -> Option<(usize, usize, usize, usize)> {
    let table = table?;
    Some((
        table.place,
        table.vtable,
        table.vtable_size,
        table.table_size,
    ))
}

/// A vtable of one entry, and behind it at 8 a table with a field of four bytes.
fn one_field(entry: u8, value: u8) -> [u8; 20] {
    [
        6, 0, 8, 0, entry, 0, 0, 0, 8, 0, 0, 0, value, 0, 0, 0, 1, 0, 0, 0,
    ]
}

#[test]
fn vtables_and_tables_stand_in_the_message(rt: HostRuntime) {
    let cases = [
        // a vtable has an even size
        ([5, 0, 6, 0, 4, 0, 0, 0, 8, 0, 0, 0, 1, 0], None),
        (
            [6, 0, 6, 0, 4, 0, 0, 0, 8, 0, 0, 0, 1, 0],
            Some((8, 0, 6, 6)),
        ),
        // of at least 4 bytes
        ([2, 0, 6, 0, 4, 0, 0, 0, 8, 0, 0, 0, 1, 0], None),
        (
            [4, 0, 6, 0, 4, 0, 0, 0, 8, 0, 0, 0, 1, 0],
            Some((8, 0, 4, 6)),
        ),
        // and does not begin before the message
        ([6, 0, 6, 0, 4, 0, 0, 0, 9, 0, 0, 0, 1, 0], None),
        // a table has at least 4 bytes
        ([6, 0, 3, 0, 0, 0, 0, 0, 8, 0, 0, 0, 1, 0], None),
        (
            [6, 0, 4, 0, 0, 0, 0, 0, 8, 0, 0, 0, 1, 0],
            Some((8, 0, 6, 4)),
        ),
        // and ends in the message
        ([6, 0, 7, 0, 4, 0, 0, 0, 8, 0, 0, 0, 1, 0], None),
    ];
    for (bytes, want) in cases {
        assert_eq!(rt; numbers_of(table_at(&bytes, 8)), want);
    }
}

#[test]
fn a_vtable_may_stand_behind_its_table(rt: HostRuntime) {
    for (size, want) in [(8, None), (6, Some((0, 8, 6, 6)))] {
        let bytes = [248, 255, 255, 255, 1, 0, 0, 0, size, 0, 6, 0, 4, 0];
        assert_eq!(rt; numbers_of(table_at(&bytes, 0)), want);
    }
}

#[test]
fn a_field_stands_in_its_table(rt: HostRuntime) -> Result<(), Fail> {
    let cases = [
        (3, 0, None),
        (4, 0, Some(Some(12))),
        (5, 0, None),
        (0, 0, Some(None)),
        (4, 1, Some(None)),
    ];
    for (entry, slot, want) in cases {
        let bytes = one_field(entry, 1);
        let table = table_at(&bytes, 8).ok_or("no table")?;
        assert_eq!(rt; field_at(&bytes, &table, slot, 4), want);
    }
    Ok(())
}

#[test]
fn an_absent_field_has_a_value(rt: HostRuntime) -> Result<(), Fail> {
    let bytes = one_field(4, 2);
    let table = table_at(&bytes, 8).ok_or("no table")?;
    for (slot, number, truth) in [(0, 2, true), (1, 7, false)] {
        assert_eq!(rt; u8_field(&bytes, &table, slot, 7), Some(number));
        assert_eq!(rt; truth_field(&bytes, &table, slot), Some(truth));
    }
    Ok(())
}

#[test]
fn numbers_stand_with_the_lowest_byte_first(rt: HostRuntime) {
    assert_eq!(rt; u16_at(&[1], 0), None);
    assert_eq!(rt; u16_at(&[254, 255], 0), Some(65534));
    assert_eq!(rt; i16_at(&[254, 255], 0), Some(-2));
    assert_eq!(rt; i16_at(&[254, 127], 0), Some(32766));
}

#[test]
fn a_reference_ends_in_the_message(rt: HostRuntime) {
    for (distance, want) in [(5, None), (4, Some(5))] {
        assert_eq!(rt; reference_at(&[0, distance, 0, 0, 0], 1), want);
    }
}

#[test]
fn a_vector_ends_in_the_message(rt: HostRuntime) {
    assert_eq!(rt; vector_at(&[2, 0, 0, 0, 1, 0, 2], 2, 0), None);
    let found = Vector { place: 4, count: 2 };
    assert_eq!(rt; vector_at(&[2, 0, 0, 0, 1, 0, 2, 0], 2, 0), Some(found));
}

#[test]
fn a_field_refers_to_a_vector(rt: HostRuntime) -> Result<(), Fail> {
    let found = Vector {
        place: 20,
        count: 1,
    };
    for (count, slot, want) in [(2, 0, None), (1, 0, Some(Some(found))), (1, 1, Some(None))] {
        let bytes = [
            6, 0, 8, 0, 4, 0, 0, 0, 8, 0, 0, 0, 4, 0, 0, 0, count, 0, 0, 0, 9,
        ];
        let table = table_at(&bytes, 8).ok_or("no table")?;
        assert_eq!(rt; vector_field(&bytes, &table, slot, 1), want);
    }
    Ok(())
}

#[test]
fn an_element_refers_to_a_table(rt: HostRuntime) {
    let vector = Vector { place: 4, count: 1 };
    for (distance, want) in [(5, None), (4, Some((8, 0, 4, 4)))] {
        let bytes = [4, 0, 4, 0, distance, 0, 0, 0, 8, 0, 0, 0];
        assert_eq!(rt; numbers_of(element_at(&bytes, &vector, 0)), want);
    }
}

#[test]
fn a_message_has_a_root(rt: HostRuntime) {
    for (place, want) in [(9, None), (8, Some((8, 4, 4, 4)))] {
        let bytes = [place, 0, 0, 0, 4, 0, 4, 0, 4, 0, 0, 0];
        assert_eq!(rt; numbers_of(root_of(&bytes)), want);
    }
}

#[test]
fn a_string_is_utf8(rt: HostRuntime) {
    for (count, last, want) in [(2, 128, None), (2, 127, Some("A\x7f")), (3, 127, None)] {
        assert_eq!(rt; string_at(&[count, 0, 0, 0, 65, last], 0), want);
    }
}
