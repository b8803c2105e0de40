//! What the words of a command line ask for.
ghost use Rattle.std.specs.Prelude.{◌≡◌, ◌++◌, [], map, IfOk, OnOk};
ghost use Rattle.std.specs.List.{cons_option};
ghost use Rattle.std.specs.Option.{option_map};
ghost use Rattle.std.specs.String.{string_bytes};
ghost use Rattle.tables.specs.Number.{number_of};
ghost use Rattle.tables.specs.Columns.{columns_in, limit_of, names_columns};
ghost use Rattle.tables.specs.Command.{asked_by, command_of, cut_of, join_of, pick_of, same_of, seal_of};

use std::alloc::{AllocError, Global};
use tables_rows::is_batch_size;

/// What the program is asked to do.
#[derive(Clone, Copy, Debug)]
pub enum Command<'a> {
    /// Write the seal of `input`, in batches of `size` rows, under the name `output`.
    Seal {
        size: usize,
        input: &'a str,
        output: &'a str,
    },
    /// Tell whether two inputs hold the same rows under the same schema.
    Same {
        left: &'a str,
        right: &'a str,
    },
    /// Write the columns of the first rows of `input` that two words name, in this order, under the name `output`.
    Pick {
        /// Numbers with commas between them, or `-`, as `names_columns` tests it.
        columns: &'a str,
        /// At most so many rows.
        limit: Option<usize>,
        input: &'a str,
        output: &'a str,
    },
    /// Write `length` rows of `input` from row `offset` on under the name `output`.
    Cut {
        offset: usize,
        length: usize,
        input: &'a str,
        output: &'a str,
    },
    /// Write the rows of two inputs or more, one input after another, under the name `output`.
    Join {
        output: &'a str,
        first: &'a str,
        others: &'a [String],
    },
}

impl<'a> Command<'a> {
    /// The command that the words after the program's name state, or `None` where they state none.
    pub fn parse(words: &'a [String]) -> Option<Command<'a>>
        ensures { option_map asked_by result ≡ command_of (map string_bytes words.now) }
    {
        let (name, rest) = words.split_first()?;
        match name.as_str() {
            "seal" => parse_seal(rest),
            "same" => parse_same(rest),
            "pick" => parse_pick(rest),
            "cut" => parse_cut(rest),
            "join" => parse_join(rest),
            _ => None,
        }
    }
}

fn parse_seal(words: &[String]) -> Option<Command<'_>>
    ensures { option_map asked_by result ≡ seal_of (map string_bytes words.now) }
{
    let [size, input, output] = words else {
        return None;
    };
    let size = number(size.as_str())?;
    if !is_batch_size(size) {
        return None;
    }
    Some(Command::Seal {
        size,
        input: input.as_str(),
        output: output.as_str(),
    })
}

fn parse_same(words: &[String]) -> Option<Command<'_>>
    ensures { option_map asked_by result ≡ same_of (map string_bytes words.now) }
{
    let [left, right] = words else {
        return None;
    };
    Some(Command::Same {
        left: left.as_str(),
        right: right.as_str(),
    })
}

fn parse_pick(words: &[String]) -> Option<Command<'_>>
    ensures { option_map asked_by result ≡ pick_of (map string_bytes words.now) }
{
    let [columns, limit, input, output] = words else {
        return None;
    };
    if !names_columns(columns.as_str()) {
        return None;
    }
    Some(Command::Pick {
        columns: columns.as_str(),
        limit: limit_of(limit.as_str())?,
        input: input.as_str(),
        output: output.as_str(),
    })
}

/// Whether a word names columns: numbers with commas between them, or `-` for none.
fn names_columns(word: &str) -> bool
    ensures { result ≡ names_columns word.now }
{
    if word == "-" {
        return true;
    }
    for piece in word.split(',') {
        if number(piece).is_none() {
            return false;
        }
    }
    true
}

/// The limit that a word names: a number, or `-` for none.
fn limit_of(word: &str) -> Option<Option<usize>>
    ensures { result ≡ limit_of word.now }
{
    if word == "-" {
        return Some(None);
    }
    Some(Some(number(word)?))
}

/// The columns that a word names, in their order. What is no number between its commas is left out.
pub(crate) fn columns_of(alloc: Global, word: &str) -> Result<Vec<usize>, AllocError>
    ensures { IfOk result (λ columns. columns.items ≡ columns_in word.now) }
{
    let mut columns = Vec::new(alloc);
    for piece in word.split(',') {
        push_number(&mut columns, piece)?;
    }
    Ok(columns)
}

/// Puts the number that a word writes behind others, where it writes one.
fn push_number(numbers: &mut Vec<usize>, word: &str) -> Result<(), AllocError>
    ensures { OnOk result (numbers.new.items ≡ numbers.old.items ++ cons_option (number_of word.now) []) }
{
    match number(word) {
        Some(it) => {
            numbers.push(it)?;
            Ok(())
        }
        None => Ok(()),
    }
}

fn parse_cut(words: &[String]) -> Option<Command<'_>>
    ensures { option_map asked_by result ≡ cut_of (map string_bytes words.now) }
{
    let [offset, length, input, output] = words else {
        return None;
    };
    Some(Command::Cut {
        offset: number(offset.as_str())?,
        length: number(length.as_str())?,
        input: input.as_str(),
        output: output.as_str(),
    })
}

fn parse_join(words: &[String]) -> Option<Command<'_>>
    ensures { option_map asked_by result ≡ join_of (map string_bytes words.now) }
{
    let [output, first, others @ ..] = words else {
        return None;
    };
    if others.is_empty() {
        return None;
    }
    Some(Command::Join {
        output: output.as_str(),
        first: first.as_str(),
        others,
    })
}

/// The number that a word writes in decimal digits alone, where it fits.
#[tactic(auto, using(crate::proofs::NumberLemmas::number_of_parsed))]
pub fn number(word: &str) -> Option<usize>
    ensures { result ≡ number_of word.now }
{
    match word.as_bytes() {
        [b'+', ..] => None,
        _ => word.parse().ok(),
    }
}
