// A row of words as a line.
ghost use Rattle.std.specs.Prelude.{IfOk, map, codes, ◌∷◌, []};
ghost use Rattle.table_lines.specs.Lines.{IsLine};

use crate::TableLine;
use sidb_units::Memory;
use std::alloc::Global;
use text_rows::number_of;

fn one_word(name: &[u8]) -> Option<TableLine>
    ensures { IsLine (name.now ∷ []) result }
{
    if name == b"end".as_slice() {
        Some(TableLine::End)
    } else {
        None
    }
}

fn version_line(version: &[u8]) -> Option<TableLine>
    ensures { IsLine (codes "sidb-table" ∷ version.now ∷ []) result }
{
    if version == b"1".as_slice() {
        Some(TableLine::FirstVersion)
    } else if version == b"2".as_slice() {
        Some(TableLine::SecondVersion)
    } else {
        None
    }
}

fn two_words(alloc: Global, name: &[u8], first: &[u8]) -> Result<Option<TableLine>, Memory>
    ensures { IfOk result (λ line. IsLine (name.now ∷ first.now ∷ []) line) }
{
    if name == b"sidb-table".as_slice() {
        return Ok(version_line(first));
    }
    let Some(number) = number_of(alloc, first)? else {
        return Ok(None);
    };
    if name == b"sites".as_slice() {
        Ok(Some(TableLine::Sites(number)))
    } else if name == b"fixed".as_slice() {
        Ok(Some(TableLine::Fixed(number)))
    } else if name == b"base".as_slice() {
        Ok(Some(TableLine::Base(number)))
    } else if name == b"charge".as_slice() {
        Ok(Some(TableLine::Charge(number)))
    } else {
        Ok(None)
    }
}

fn three_words(
    alloc: Global,
    name: &[u8],
    first: &[u8],
    second: &[u8],
) -> Result<Option<TableLine>, Memory>
    ensures { IfOk result (λ line. IsLine (name.now ∷ first.now ∷ second.now ∷ []) line) }
{
    let Some(a) = number_of(alloc, first)? else {
        return Ok(None);
    };
    let Some(b) = number_of(alloc, second)? else {
        return Ok(None);
    };
    if name == b"mu".as_slice() {
        return Ok(Some(TableLine::Levels(a, b)));
    }
    if name == b"class".as_slice() {
        return Ok(Some(TableLine::Class(a, b)));
    }
    Ok(None)
}

fn four_words(
    alloc: Global,
    name: &[u8],
    first: &[u8],
    second: &[u8],
    third: &[u8],
) -> Result<Option<TableLine>, Memory>
    ensures { IfOk result
        (λ line. IsLine (name.now ∷ first.now ∷ second.now ∷ third.now ∷ []) line) }
{
    let Some(i) = number_of(alloc, first)? else {
        return Ok(None);
    };
    let Some(j) = number_of(alloc, second)? else {
        return Ok(None);
    };
    let Some(c) = number_of(alloc, third)? else {
        return Ok(None);
    };
    if name == b"pair".as_slice() {
        return Ok(Some(TableLine::Pair(i, j, c)));
    }
    if name == b"near".as_slice() {
        return Ok(Some(TableLine::Near(i, j, c)));
    }
    Ok(None)
}

/// The line that has these words.
pub fn line_of(alloc: Global, row: &[&[u8]]) -> Result<Option<TableLine>, Memory>
    ensures { IfOk result (λ line. IsLine (map (λ w. w.now) row.now) line) }
{
    match row {
        [name] => Ok(one_word(name)),
        [name, first] => two_words(alloc, name, first),
        [name, first, second] => three_words(alloc, name, first, second),
        [name, first, second, third] => four_words(alloc, name, first, second, third),
        _ => Ok(None),
    }
}
