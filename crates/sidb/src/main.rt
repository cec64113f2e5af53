//! Ground states of silicon dangling-bond layouts, under every potential inside stated spans.
#![tactic(auto)]

ghost use Rattle.std.specs.Prelude.{◌≡◌, ◌≢◌};
ghost use Rattle.std.specs.IoError.{error_kind};

use sidb_io::{NoGate, RealSink, RealSource};
use sidb_units::{Memory, WordList};
use sim_cli::{Status, code, run};
use std::alloc::Global;
use std::env;
use std::io::{Error, ErrorKind};
use std::process::ExitCode;

/// The exit status where the system does not give the words.
const NO_WORDS: u8 = 10;

// The exit status where the words were not fetched: that of want of memory where this was why.
fn status_without_words(error: &Error) -> u8
    ensures memory { error_kind error.now ≡ ErrorKind.OutOfMemory → result ≡ 9 }
    ensures other { error_kind error.now ≢ ErrorKind.OutOfMemory → result ≡ 10 }
{
    match error.kind() {
        ErrorKind::OutOfMemory => code(&Status::Memory),
        _ => NO_WORDS,
    }
}

// The words after the program's name.
fn words_of(alloc: Global, args: env::Args) -> Result<WordList, Memory> {
    let mut words = WordList::new(alloc)?;
    for word in args.skip(1) {
        words.push(word.as_str())?;
    }
    Ok(words)
}

fn main(rt: HostRuntime) -> ExitCode {
    let alloc = rt.alloc();
    let args = match env::args(&rt) {
        Ok(args) => args,
        Err(error) => return ExitCode::from(status_without_words(&error)),
    };
    let Ok(words) = words_of(alloc, args) else {
        return ExitCode::from(code(&Status::Memory));
    };
    let mut source = RealSource::new(rt.stdin());
    let mut sink = RealSink::new(rt.stdout());
    let status = run(&rt, alloc, &words, &mut source, &mut sink, &NoGate);
    ExitCode::from(code(&status))
}
