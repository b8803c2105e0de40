//! Streams and a file that are read, and those that are refused.
use crate::samples::EXAMPLE_FILE;
use crate::streams::{MANY_NULLS, NESTED, REPLACED, ROWS, TOO_MANY_NULLS, TWO_BATCHES};
use std::alloc::{AllocError, Global};
use tables::{Fault, Form, Table};

/// What a stream holds, as `answer_in` says.
fn answer(alloc: Global, bytes: &[u8]) -> Result<String, AllocError> {
    answer_in(alloc, Form::Stream, bytes)
}

/// What bytes hold, by their numbers of columns, of batches and of rows, or why they are refused.
fn answer_in(alloc: Global, form: Form, bytes: &[u8]) -> Result<String, AllocError> {
    match Table::read(alloc, form, bytes) {
        Ok(read) => {
            format!(in alloc;
                "{} {} {}",
                read.schema().fields.len(),
                read.batches().len(),
                read.rows()
            )
        }
        Err(fault) => format!(in alloc; "{}", fault.text()),
    }
}

#[test]
fn streams_of_several_types(rt: HostRuntime) -> Result<(), Fault> {
    let cases: [(&[u8], &str); 6] = [
        (&ROWS, "1 1 3"),
        (&TWO_BATCHES, "1 2 3"),
        (&REPLACED, "1 2 3"),
        (&NESTED, "1 1 3"),
        (&MANY_NULLS, "1 2 18446744073709551614"),
        (&TOO_MANY_NULLS, "too many rows"),
    ];
    for (bytes, expected) in cases {
        assert_eq!(rt; answer(rt.alloc(), bytes)?.as_str(), expected, "{expected}");
    }
    Ok(())
}

#[test]
fn streams_that_end_early(rt: HostRuntime) -> Result<(), Fault> {
    let size = ROWS.len();
    for (missing, expected) in [
        (8, "unfinished stream"),
        (5, "unfinished stream"),
        (4, "ipc: out of specification"),
        (size, "ipc: out of specification"),
    ] {
        assert_eq!(rt;
            answer(rt.alloc(), &ROWS[..size - missing])?.as_str(),
            expected,
            "{missing}"
        );
    }
    Ok(())
}

#[test]
fn a_file_in_both_forms(rt: HostRuntime) -> Result<(), Fault> {
    let cases: [(Form, &[u8], &str); 4] = [
        (Form::File, &EXAMPLE_FILE, "1 1 2"),
        (Form::Stream, &EXAMPLE_FILE[8..], "1 1 2"),
        (
            Form::File,
            &EXAMPLE_FILE[..745],
            "ipc: out of specification",
        ),
        (Form::File, &EXAMPLE_FILE[8..], "ipc: out of specification"),
    ];
    for (form, bytes, expected) in cases {
        assert_eq!(rt;
            answer_in(rt.alloc(), form, bytes)?.as_str(),
            expected,
            "{expected}"
        );
    }
    Ok(())
}
