// The session: bytes in, answers out, and the history of what was answered.
ghost use Rattle.std.specs.Prelude.{◌≡◌, ◌≢◌, ◌||◌, ◌+◌, ◌-◌, ◌<◌, ◌≤◌, ◌^◌, ◌++◌, ◌↔◌, ℕ, List, [], length, map, true, false, string_bytes, OnOk, OnErr, IfOk, IfErr};
ghost use Rattle.ep_edge.specs.Edge.{IsEmptied, is_end, read_faults};
ghost use Rattle.mcbp_frame.specs.Division.{IsPartial};
ghost use Rattle.ep_top.specs.Responder.{IsLegalHistory, ResponderIsSound, ResponderIsFresh};
ghost use Rattle.ep_top.specs.Outside.{Outside, outside};
ghost use Rattle.ep_top.specs.Stand.{stand, Advances, Breaks};
ghost use Rattle.ep_top.specs.Session.{most_taken, IsSession, IsSessionCommand, EndsUnopened, Stops, EndsAt, Finishes};
ghost use Rattle.mcbp_frame.specs.Piece.{Feeds};

use crate::end::End;
use crate::responder::{Responder, Served};
use ep_edge::{Clock, Got, Put, Sink, Source};
use ep_model::NoMemory;
use mcbp_frame::{Feeder, Next};
use std::alloc::Global;
use vb_world::History;

/// How many bytes one session takes at most.
pub const MAX_TAKEN: u64 = 0x100_0000_0000;

/// How many bytes are read at once at most.
pub const PIECE: usize = 65_536;

/// How a session ended, and its history, whose events are all of vBucket 0.
#[derive(Drop)]
pub struct SessionEnd {
    pub end: End,
    pub history: History,
}

// Answers the next frame that was fed, where there is one: false where there is none.
fn serve_next<W: Sink, C: Clock>(
    feeder: &mut Feeder,
    responder: &mut Responder,
    sink: &mut W,
    clock: &mut C,
) -> Result<bool, End>
    requires sound { ResponderIsSound responder.old }

    ensures serves { OnOk result (Advances (stand feeder.old.rest responder.old (W.held sink.old)
        (C.moment clock.old) false) (stand feeder.new.rest responder.new (W.held sink.new)
        (C.moment clock.new) false)) }
    ensures sound { OnOk result (ResponderIsSound responder.new) }
    ensures less { result ≡ Ok true → length feeder.new.rest < length feeder.old.rest }
    ensures partial { result ≡ Ok false → IsPartial feeder.new.rest }

    ensures breaks { IfErr result (λ end. Breaks end
        (stand feeder.old.rest responder.old (W.held sink.old) (C.moment clock.old) false)
        (stand feeder.new.rest responder.new (W.held sink.new) (C.moment clock.new) false)
        feeder.new.at (W.faults sink.old) (W.faults sink.new) (W.last_offer sink.new)) }
    ensures legal { OnErr result (IsLegalHistory responder.new.history) }

    ensures place { feeder.new.at + length feeder.new.rest ≡ feeder.old.at
        + length feeder.old.rest }
    ensures quiet { OnOk result (W.faults sink.new ≡ W.faults sink.old) }
{
    let Put::Done = responder.make_room(sink) else {
        return Err(End::WriteFault);
    };
    match feeder.next() {
        Next::Frame(frame) => match responder.serve(&frame, clock) {
            Ok(Served::GoesOn) => Ok(true),
            Ok(Served::Quits) => Err(End::Quit),
            Err(NoMemory) => Err(End::NoMemory),
        },
        Next::Need => Ok(false),
        Next::BadMagic { at } => Err(End::BadMagic { at }),
        Next::TooLong { at } => Err(End::TooLong { at }),
    }
}

// Answers each whole frame that was fed, and writes the answers.
fn drain<W: Sink, C: Clock>(
    feeder: &mut Feeder,
    responder: &mut Responder,
    sink: &mut W,
    clock: &mut C,
) -> Result<(), End>
    requires sound { ResponderIsSound responder.old }

    ensures serves { OnOk result (Advances (stand feeder.old.rest responder.old (W.held sink.old)
        (C.moment clock.old) false) (stand feeder.new.rest responder.new (W.held sink.new)
        (C.moment clock.new) false)) }
    ensures sound { OnOk result (ResponderIsSound responder.new) }
    ensures partial { OnOk result (IsPartial feeder.new.rest) }
    ensures written { OnOk result (responder.new.conn.out.bytes ≡ []) }

    ensures breaks { IfErr result (λ end. Breaks end
        (stand feeder.old.rest responder.old (W.held sink.old) (C.moment clock.old) false)
        (stand feeder.new.rest responder.new (W.held sink.new) (C.moment clock.new) false)
        feeder.new.at (W.faults sink.old) (W.faults sink.new) (W.last_offer sink.new)) }
    ensures legal { OnErr result (IsLegalHistory responder.new.history) }

    ensures place { feeder.new.at + length feeder.new.rest ≡ feeder.old.at
        + length feeder.old.rest }
    ensures quiet { OnOk result (W.faults sink.new ≡ W.faults sink.old) }
{
    'frames: loop {
        match serve_next(feeder, responder, sink, clock) {
            Ok(true) => {}
            Ok(false) => break,
            Err(end) => return Err(end),
        }
    }
    match responder.flush(sink) {
        Put::Done => Ok(()),
        Put::Failed => Err(End::WriteFault),
    }
}

// Takes a piece of at most `limit` bytes from the source into the feeder.
fn take<R: Source>(feeder: &mut Feeder, limit: u64, source: &mut R) -> Got
    requires partial { IsPartial feeder.old.rest }
    requires limit { 0 < limit }
    requires place { feeder.old.at + length feeder.old.rest + limit < 2 ^ 64 }

    ensures feeds { Feeds result feeder.old.rest feeder.new.rest (R.left source.old)
        (R.left source.new) }
    ensures at { feeder.new.at ≡ feeder.old.at }
    ensures count { (n : ℕ) → result ≡ Got.Bytes n → (0 < n) × (n ≤ limit) }
    ensures ended { R.has_ended source.new ≡ (R.has_ended source.old || is_end result) }
    ensures end { result ≡ Got.End → IsEmptied (R.left source.new) }
    ensures faults { R.faults source.new ≡ read_faults result (R.faults source.old) }
    ensures before { R.left_before source.new ≡ R.left source.old }
    ensures behind { R.ended_before source.new ≡ R.has_ended source.old }
{
    feeder.read_from(limit.min(PIECE as u64) as usize, source)
}

// Whether a session that took so many bytes takes no more.
fn is_full(taken: u64) -> bool
    requires { taken ≤ most_taken }
    ensures full { result ≡ true → taken ≡ most_taken }
    ensures going { result ≡ false → taken < most_taken }
{
    taken == MAX_TAKEN
}

// How many more bytes a session takes that took so many.
fn left_to_take(taken: u64) -> u64
    requires { taken ≤ most_taken }
    ensures { result ≡ most_taken - taken }
{
    MAX_TAKEN - taken
}

// How a session ends at the end of its input.
fn end_of_input(feeder: &Feeder) -> End
    ensures { EndsAt feeder.now result }
{
    if feeder.rest() == 0 {
        End::Closed
    } else {
        End::Torn { at: feeder.at() }
    }
}

// Takes the stream piece by piece, and answers its frames.
fn serve_stream<R: Source, W: Sink, C: Clock>(
    feeder: &mut Feeder,
    responder: &mut Responder,
    source: &mut R,
    sink: &mut W,
    clock: &mut C,
) -> End
    requires rest { feeder.old.rest ≡ [] }
    requires at { feeder.old.at ≡ 0 }
    requires fresh { ResponderIsFresh responder.old }
    requires sound { ResponderIsSound responder.old }

    ensures stops { Stops (outside (R.left source.old) (R.left_before source.old)
        (R.has_ended source.old) (R.ended_before source.old) (R.faults source.old)
        (W.held sink.old) (W.last_offer sink.old) (W.faults sink.old) (C.moment clock.old))
        (outside (R.left source.new) (R.left_before source.new) (R.has_ended source.new)
        (R.ended_before source.new) (R.faults source.new) (W.held sink.new)
        (W.last_offer sink.new) (W.faults sink.new) (C.moment clock.new))
        result responder.new }
{
    let mut taken: u64 = 0;
    'pieces: while !is_full(taken) {
        match take(feeder, left_to_take(taken), source) {
            Got::Bytes(n) => {
                taken += n as u64;
                if let Err(end) = drain(feeder, responder, sink, clock) {
                    return end;
                }
            }
            Got::End => return end_of_input(feeder),
            Got::Failed => return End::ReadFault,
        }
    }
    End::Limit
}

// Writes what is pending as a session ends, unless a fault of writing ended it.
fn finish<W: Sink>(end: End, responder: &mut Responder, sink: &mut W) -> End
    ensures finishes { Finishes end result responder.old.conn.out.bytes (W.held sink.old)
        (W.held sink.new) (W.faults sink.old) (W.faults sink.new) (W.last_offer sink.old)
        (W.last_offer sink.new) }
    ensures history { responder.new.history ≡ responder.old.history }
{
    if let End::WriteFault = end {
        return End::WriteFault;
    }
    match responder.flush(sink) {
        Put::Done => end,
        Put::Failed => End::WriteFault,
    }
}

// Whether the command line is the one word `session`.
fn is_session(words: &Vec<String>) -> bool
    ensures yes { result ≡ true → IsSessionCommand (map string_bytes words.now.items) }
    ensures no { result ≡ false → IsSessionCommand (map string_bytes words.now.items) → ⊥ }
{
    match words.as_slice() {
        [word] => word.as_str() == "session",
        _ => false,
    }
}

// What a session holds: the stream that isn't divided yet, and what answers frames.
#[derive(Drop)]
struct Parts {
    feeder: Feeder,
    responder: Responder,
}

fn open(alloc: Global) -> Result<Parts, NoMemory>
    ensures rest { IfOk result (λ parts. parts.feeder.rest ≡ []) }
    ensures at { IfOk result (λ parts. parts.feeder.at ≡ 0) }
    ensures fresh { IfOk result (λ parts. ResponderIsFresh parts.responder) }
    ensures sound { IfOk result (λ parts. ResponderIsSound parts.responder) }
{
    Ok(Parts {
        feeder: Feeder::new(alloc)?,
        responder: Responder::open(alloc)?,
    })
}

/// Does the whole of the command `session`: takes frames from the source, answers each, and writes the answers,
/// all of those that it has before it reads again. The clock is asked once for each whole frame. Calls on vBucket 0
/// are served as calls of caller 0, and each is one event of the history; what the connection answers by itself
/// (refusals, Hello, Noop, Version, Stat, Quit) is no event. A Quit is the last frame that is served. The history
/// grows with the input; beside it the cost of a frame is that of the plain map.
pub fn run_session<R: Source, W: Sink, C: Clock>(
    alloc: Global,
    words: &Vec<String>,
    source: &mut R,
    sink: &mut W,
    clock: &mut C,
) -> SessionEnd
    ensures words { result.end ≡ End.BadWords → IsSessionCommand (map string_bytes words.now.items)
        → ⊥ }
    ensures bad_words { (IsSessionCommand (map string_bytes words.now.items) → ⊥) → result.end
        ≡ End.BadWords }
    ensures session { IsSession (outside (R.left source.old) (R.left_before source.old)
        (R.has_ended source.old) (R.ended_before source.old) (R.faults source.old)
        (W.held sink.old) (W.last_offer sink.old) (W.faults sink.old) (C.moment clock.old))
        (outside (R.left source.new) (R.left_before source.new) (R.has_ended source.new)
        (R.ended_before source.new) (R.faults source.new) (W.held sink.new)
        (W.last_offer sink.new) (W.faults sink.new) (C.moment clock.new))
        result.end result.history }
    ensures refused { result.end ≡ End.BadWords → (source.new ≡ source.old) × (sink.new ≡ sink.old)
        × (clock.new ≡ clock.old) }
    ensures unopened { result.history ≡ [] → (source.new ≡ source.old) × (sink.new ≡ sink.old)
        × (clock.new ≡ clock.old) }
{
    if !is_session(words) {
        return unopened(alloc, End::BadWords);
    }
    match open(alloc) {
        Ok(parts) => serve(parts, source, sink, clock),
        Err(NoMemory) => unopened(alloc, End::NoMemory),
    }
}

// The end of a session that didn't open: it did nothing.
fn unopened(alloc: Global, end: End) -> SessionEnd
    requires { EndsUnopened end }
    ensures end { result.end ≡ end }
    ensures history { result.history ≡ [] }
    ensures session { (before : Outside) → IsSession before before result.end result.history }
{
    SessionEnd {
        end,
        history: History::new(alloc),
    }
}

// Serves the stream to its end.
fn serve<R: Source, W: Sink, C: Clock>(
    parts: Parts,
    source: &mut R,
    sink: &mut W,
    clock: &mut C,
) -> SessionEnd
    requires rest { parts.feeder.rest ≡ [] }
    requires at { parts.feeder.at ≡ 0 }
    requires fresh { ResponderIsFresh parts.responder }
    requires sound { ResponderIsSound parts.responder }
    ensures served { result.end ≡ End.BadWords → ⊥ }
    ensures opened { result.history ≡ [] → ⊥ }
    ensures session { IsSession (outside (R.left source.old) (R.left_before source.old)
        (R.has_ended source.old) (R.ended_before source.old) (R.faults source.old)
        (W.held sink.old) (W.last_offer sink.old) (W.faults sink.old) (C.moment clock.old))
        (outside (R.left source.new) (R.left_before source.new) (R.has_ended source.new)
        (R.ended_before source.new) (R.faults source.new) (W.held sink.new)
        (W.last_offer sink.new) (W.faults sink.new) (C.moment clock.new))
        result.end result.history }
{
    let Parts {
        mut feeder,
        mut responder,
    } = parts;
    let end = serve_stream(&mut feeder, &mut responder, source, sink, clock);
    let end = finish(end, &mut responder, sink);
    let Responder { history, .. } = responder;
    SessionEnd { end, history }
}
