use super::*;
use ep_edge::{MemoryClock, MemorySink, MemorySource};
use std::alloc::{AllocError, AllocGlobal, Global};
use std::process::Abort;
use std::test::Fail;
use vb_world::History;

mod calls;
mod ends;
mod frames;
mod stream;

/// A moment in nanoseconds since 1970. It is the CAS of the first document there.
const MOMENT: u64 = 1_000_000_000_000_000_000;

const SET: &str =
    "80 01 0005 08 00 0000 00000012 00000000 0000000000000000 deadbeef00000000 48656c6c6f 576f726c64";

const SET_ANSWER: &str = "81 01 0000 00 00 0000 00000000 00000000 0de0b6b3a7640000";

const GET: &str = "80 00 0005 00 00 0000 00000005 00000000 0000000000000000 48656c6c6f";

const GET_ANSWER: &str =
    "81 00 0000 04 00 0000 00000009 00000000 0de0b6b3a7640000 deadbeef 576f726c64";

const MISS: &str = "80 00 0001 00 00 0000 00000001 00000000 0000000000000000 78";

const MISS_ANSWER: &str = "81 00 0000 00 00 0001 00000000 00000000 0000000000000000";

const NOOP: &str = "80 0a 0000 00 00 0000 00000000 deadbeef 0000000000000000";

const NOOP_ANSWER: &str = "81 0a 0000 00 00 0000 00000000 deadbeef 0000000000000000";

fn hex_digit(digit: u8) -> Option<u8> {
    match digit {
        b'0'..=b'9' => Some(digit - b'0'),
        b'a'..=b'f' => Some(digit - b'a' + 10),
        _ => None,
    }
}

/// The bytes that texts in hexadecimal say one after the other. Blanks say nothing.
fn bytes_of(alloc: Global, texts: &[&str]) -> Result<Vec<u8>, AllocError> {
    let mut bytes = Vec::new(alloc);
    let mut high = None;
    for low in texts
        .iter()
        .flat_map(|text| text.bytes())
        .filter_map(hex_digit)
    {
        high = match high {
            None => Some(low),
            Some(digit) => {
                bytes.push(low.wrapping_add(16u8.wrapping_mul(digit)))?;
                None
            }
        };
    }
    Ok(bytes)
}

/// What a session left.
#[derive(Drop)]
struct Outcome {
    end: End,
    written: Vec<u8>,
    history: History,
}

/// A session over the forms in memory. It has no clause, so that its callers are proved without those of a session.
fn run(
    alloc: Global,
    command: &Vec<String>,
    source: &mut MemorySource,
    sink: &mut MemorySink,
    clock: &mut MemoryClock,
) -> SessionEnd {
    run_session(alloc, command, source, sink, clock)
}

/// The words of a command line.
fn words_of(alloc: Global, words: &[&str]) -> Result<Vec<String>, AllocError> {
    let mut command = Vec::new(alloc);
    for word in words {
        command.push(word.to_string(alloc)?)?;
    }
    Ok(command)
}

/// A session on these words, whose reads give so many bytes, and whose reads and writes with these numbers fail.
fn session_on(
    alloc: Global,
    words: &[&str],
    input: &[u8],
    pieces: Vec<u32>,
    failing_reads: &[u64],
    failing_writes: &[u64],
) -> Result<Outcome, Fail> {
    let command = words_of(alloc, words)?;
    let mut source = MemorySource::new(input.to_vec(alloc)?, pieces, failing_reads.to_vec(alloc)?);
    let mut sink = MemorySink::new(alloc, 1_000, failing_writes.to_vec(alloc)?)?;
    let mut clock = MemoryClock::new(vec![in alloc; MOMENT]?);
    let SessionEnd { end, history } = run(alloc, &command, &mut source, &mut sink, &mut clock);
    Ok(Outcome {
        end,
        written: sink.bytes().to_vec(alloc)?,
        history,
    })
}

/// A session on such pieces, in which nothing fails.
fn session(alloc: Global, input: &[u8], pieces: Vec<u32>) -> Result<Outcome, Fail> {
    session_on(alloc, &["session"], input, pieces, &[], &[])
}

/// Sends frames one after the other, and checks what each is answered: its name, the frame and the answer.
fn check_answers(
    rt: &(impl Abort + AllocGlobal),
    exchanges: &[(&str, &str, &str)],
) -> Result<(), Fail> {
    let alloc = rt.alloc();
    let mut input = Vec::new(alloc);
    for (_, frame, _) in exchanges {
        input.extend_from_slice(&bytes_of(alloc, &[*frame])?)?;
    }
    let outcome = session(alloc, &input, Vec::new(alloc))?;
    let mut answers = Vec::new(alloc);
    for (name, _, answer) in exchanges {
        answers.extend_from_slice(&bytes_of(alloc, &[*answer])?)?;
        assert!(rt; outcome.written.starts_with(&answers), "{name}");
    }
    assert_eq!(rt; outcome.written, answers);
    assert_eq!(rt; outcome.end, End::Closed);
    Ok(())
}
