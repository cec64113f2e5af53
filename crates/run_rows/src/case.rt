use sidb_io::{Gate, MemSink, MemSource};
use sidb_units::WordList;
use sim_cli::{code, run};
use std::alloc::Global;
use std::test::Fail;
use std::thread::Threads;

/// A run over memory: its words, its input, how many bytes a call gives or takes at most, how many
/// bytes the sink takes in all, and the number of the read and of the write that fails.
#[derive(Clone, Copy)]
pub struct Case<'a> {
    pub words: &'a str,
    pub input: &'a str,
    pub piece: usize,
    pub capacity: usize,
    pub failed_read: Option<u64>,
    pub failed_write: Option<u64>,
}

/// A run in which nothing fails.
pub fn plain<'a>(words: &'a str, input: &'a str) -> Case<'a> {
    Case {
        words,
        input,
        piece: 9,
        capacity: 8192,
        failed_read: None,
        failed_write: None,
    }
}

/// The words between the spaces.
pub fn word_list(alloc: Global, line: &str) -> Result<WordList, Fail> {
    let mut words = WordList::new(alloc).ok().ok_or("list")?;
    for word in line.split(' ') {
        if !word.is_empty() {
            words.push(word).ok().ok_or("word")?;
        }
    }
    Ok(words)
}

/// The exit status, and what was written.
pub fn outcome<R: Threads + Sync, G: Gate>(
    rt: &R,
    alloc: Global,
    case: &Case<'_>,
    gate: &G,
) -> Result<(u8, Vec<u8>), Fail> {
    let words = word_list(alloc, case.words)?;
    let piece = case.piece.max(1);
    let bytes = case.input.as_bytes().to_vec(alloc)?;
    let mut source = MemSource::new(bytes, piece, numbers(alloc, case.failed_read)?);
    let room = Vec::with_capacity(alloc, case.capacity)?;
    let mut sink = MemSink::new(room, piece, numbers(alloc, case.failed_write)?);
    let status = run(rt, alloc, &words, &mut source, &mut sink, gate);
    Ok((code(&status), sink.written().to_vec(alloc)?))
}

fn numbers(alloc: Global, number: Option<u64>) -> Result<Vec<u64>, Fail> {
    let mut numbers = Vec::new(alloc);
    if let Some(number) = number {
        numbers.push(number)?;
    }
    Ok(numbers)
}
