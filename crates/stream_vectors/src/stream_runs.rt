use boot_keeper::MemKeeper;
use link_world::World;
use spdm_basis::{MemSeeds, MemSink, MemSource, Sink, Source};
use spdm_command::{Outcome, spdm};
use std::test::Fail;

// The words of a command.
fn words_of(rt: &impl AllocGlobal, command: &str) -> Result<Vec<String>, Fail> {
    let mut words = Vec::new(rt.alloc());
    for word in command.split(' ') {
        words.push(String::from_str(rt.alloc(), word)?)?;
    }
    Ok(words)
}

// What a command comes to, and the world that it leaves. The calls of the keeper with the numbers in `boots` fail. All tests
// call the command here, since each place that calls it has all its clauses to prove with.
pub fn outcome<S: Source, K: Sink>(
    rt: &impl AllocGlobal,
    command: &str,
    source: &mut S,
    sink: &mut K,
    seeds: &mut MemSeeds,
    boots: &[u64],
    left: &mut Option<World>,
) -> Result<Outcome, Fail> {
    let words = words_of(rt, command)?;
    let mut keeper = MemKeeper::new(rt.alloc(), boots)?;
    Ok(spdm(
        rt.alloc(),
        words.as_slice(),
        source,
        sink,
        seeds,
        left,
        &mut keeper,
    ))
}

// What a word came to for a text with this stream behind it and these seeds, and what it wrote.
pub fn run(
    rt: &impl AllocGlobal,
    word: &str,
    text: &[u8],
    stream: &[u8],
    seeds: &[[u8; 32]],
) -> Result<(Outcome, Vec<u8>), Fail> {
    let mut input = Vec::from_slice(rt.alloc(), text)?;
    input.extend_from_slice(stream)?;
    let mut source = MemSource::new(rt.alloc(), input.as_slice(), &[])?;
    let mut sink = MemSink::new(rt.alloc(), 4096, &[])?;
    let mut seeds = MemSeeds::new(rt.alloc(), seeds, &[])?;
    let mut left = None;
    let outcome = outcome(rt, word, &mut source, &mut sink, &mut seeds, &[], &mut left)?;
    Ok((outcome, Vec::from_slice(rt.alloc(), sink.as_slice())?))
}
