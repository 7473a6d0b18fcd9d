// Runs a deck of calls, read from the file that is named as the argument or else from standard input, and prints what
// came of each.
#![tactic(auto)]

mod run;

use deck::Deck;
use std::io::Read;
use std::process::ExitCode;
use std::{env, fs};

fn deck_text(rt: &HostRuntime) -> anyhow::Result<Vec<u8>> {
    if let Some(path) = env::args(rt)?.nth(1) {
        return Ok(fs::read(rt, path)?);
    }
    let mut text = Vec::new(rt.alloc());
    rt.stdin().read_to_end(&mut text)?;
    Ok(text)
}

fn run_deck(rt: &HostRuntime) -> anyhow::Result<()> {
    let text = deck_text(rt)?;
    let deck = Deck::read(rt.alloc(), text.as_slice())?;
    run::run(rt, &deck)
}

// What went wrong is told once, on the error stream; where even that cannot be written, the status alone says it.
fn main(rt: HostRuntime) -> ExitCode {
    if let Err(fault) = run_deck(&rt) {
        let _ = eprintln!(rt; "{fault}");
        return ExitCode::FAILURE;
    }
    ExitCode::SUCCESS
}
