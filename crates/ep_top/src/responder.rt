// What answers frames: the plain map, the history, and the connection with the answers that aren't written yet.
ghost use Rattle.std.specs.Prelude.{◌≡◌, ◌≢◌, ◌+◌, ◌<◌, ◌≤◌, ◌^◌, ◌++◌, ℕ, List, [], ◌∷◌, length, take, IfOk, OnOk, OnErr};
ghost use Rattle.ep_edge.specs.Edge.{offer};
ghost use Rattle.ep_model.specs.Counts.{RoseByOne};
ghost use Rattle.ep_model.specs.History.{call_data};
ghost use Rattle.ep_model.specs.Limits.{IsMoment, IsWithin};
ghost use Rattle.ep_model.specs.declared.data.EventData.TheVariants.{Called};
ghost use Rattle.mcbp_frame.specs.Frames.{frame_data};
ghost use Rattle.mcbp_ops.specs.Text.{IsFormOf};
ghost use Rattle.conn_core.specs.Acts.{act_data, own_text, features_after, IsReady, HasForm};
ghost use Rattle.conn_core.specs.Conns.{answer_room};
ghost use Rattle.ep_top.specs.AnswersCall.{AnswersCall};
ghost use Rattle.ep_top.specs.Exchange.{act_in, vbuckets};
ghost use Rattle.ep_top.specs.Stand.{WritesWaiting, LosesSome, most_pending};

use conn_core::{Act, Conn};
use ep_edge::{Clock, Put, Sink};
use ep_model::{Call, Event, NoMemory, Plain, Reply, status};
use mcbp_frame::Frame;
use mcbp_ops::{Form, begin_reply, end_reply, put_status};
use std::alloc::Global;
use vb_world::History;

/// How many vBuckets there are.
pub const VBUCKETS: u16 = 1;

/// Above so many bytes answers are written before the next frame is served.
pub const MAX_PENDING: usize = 1_048_576;

/// What becomes of a session behind a frame that was answered.
#[derive(Clone, Copy, Debug, PartialEq, Eq)]
pub enum Served {
    /// It goes on.
    GoesOn,
    /// The frame was a Quit, behind which nothing is served.
    Quits,
}

/// The plain map, the history of its calls, and the connection with the answers that aren't written yet.
#[derive(Drop)]
pub struct Responder {
    pub plain: Plain,
    pub history: History,
    pub conn: Conn,
}

impl Responder {
    ghost use Rattle.ep_top.specs.Responder.{ResponderIsSound, ResponderIsFresh, Responds, KeepsAllButAnswers, is_quit_served};

    /// An empty vBucket that has opened, and a connection.
    pub fn open(alloc: Global) -> Result<Responder, NoMemory>
        ensures fresh { IfOk result ResponderIsFresh }
        ensures sound { IfOk result ResponderIsSound }
    {
        let mut history = History::new(alloc);
        history.note(0, &Event::Opened)?;
        Ok(Responder {
            plain: Plain::new(alloc),
            history,
            conn: Conn::new(alloc)?,
        })
    }

    /// Answers one frame, and asks the clock once for it.
    pub fn serve<C: Clock>(&mut self, frame: &Frame, clock: &mut C) -> Result<Served, NoMemory>
        requires sound { ResponderIsSound self.old }
        requires room { length self.old.conn.out.bytes ≤ most_pending }
        ensures sound { OnOk result (ResponderIsSound self.new) }
        ensures answered { IfOk result (λ served. Responds (frame_data frame.now)
            (C.moment clock.old) (C.moment clock.new) (is_quit_served served) self.old self.new) }
        ensures err { OnErr result ((self.new.history ≡ self.old.history)
            × (self.new.conn.out.bytes ≡ self.old.conn.out.bytes)
            × (self.new.conn.features ≡ self.old.conn.features)) }
        ensures asked { (k : ℕ) → C.moment clock.new k ≡ C.moment clock.old (k + 1) }
    {
        let now = clock.now();
        match sort(&mut self.conn, frame) {
            Act::Answered => Ok(Served::GoesOn),
            Act::Quit => Ok(Served::Quits),
            Act::Stat(_) => {
                put_status(&mut self.conn.out, frame, status::KEY_NOT_FOUND);
                Ok(Served::GoesOn)
            }
            Act::Engine { call, form } => {
                answer_call(
                    &mut self.plain,
                    &mut self.history,
                    &mut self.conn,
                    frame,
                    form,
                    &call,
                    now,
                )?;
                Ok(Served::GoesOn)
            }
        }
    }

    /// Writes the answers that aren't written yet. After a fault some of them are lost.
    pub fn flush<W: Sink>(&mut self, sink: &mut W) -> Put
        ensures done { result ≡ Put.Done
            → WritesWaiting self.old.conn.out.bytes self.new.conn.out.bytes
            (W.held sink.old) (W.held sink.new) × (self.new.conn.out.bytes ≡ []) }
        ensures failed { result ≡ Put.Failed → LosesSome self.old.conn.out.bytes (W.held sink.old)
            (W.held sink.new) × RoseByOne (W.faults sink.old) (W.faults sink.new) }
        ensures offered { result ≡ Put.Failed → W.last_offer sink.new
            ≡ offer (W.held sink.old) (W.faults sink.old) (length self.old.conn.out.bytes) }
        ensures some { result ≡ Put.Failed → self.old.conn.out.bytes ≢ [] }
        ensures quiet { result ≡ Put.Done → W.faults sink.new ≡ W.faults sink.old }
        ensures kept { KeepsAllButAnswers self.old self.new }
        ensures sound { ResponderIsSound self.old → ResponderIsSound self.new }
    {
        if self.conn.out.bytes().is_empty() {
            return Put::Done;
        }
        let put = sink.write(self.conn.out.bytes());
        match put {
            Put::Done => self.conn.out.cut(0),
            Put::Failed => {}
        }
        put
    }

    /// Writes the answers where they are many, so that one more has room.
    pub fn make_room<W: Sink>(&mut self, sink: &mut W) -> Put
        ensures done { result ≡ Put.Done
            → WritesWaiting self.old.conn.out.bytes self.new.conn.out.bytes
            (W.held sink.old) (W.held sink.new) × (length self.new.conn.out.bytes ≤ most_pending) }
        ensures failed { result ≡ Put.Failed → LosesSome self.old.conn.out.bytes (W.held sink.old)
            (W.held sink.new) × RoseByOne (W.faults sink.old) (W.faults sink.new) }
        ensures offered { result ≡ Put.Failed → W.last_offer sink.new
            ≡ offer (W.held sink.old) (W.faults sink.old) (length self.old.conn.out.bytes) }
        ensures many { result ≡ Put.Failed → most_pending < length self.old.conn.out.bytes }
        ensures quiet { result ≡ Put.Done → W.faults sink.new ≡ W.faults sink.old }
        ensures kept { KeepsAllButAnswers self.old self.new }
        ensures sound { ResponderIsSound self.old → ResponderIsSound self.new }
    {
        if self.conn.out.bytes().len() <= MAX_PENDING {
            return Put::Done;
        }
        self.flush(sink)
    }
}

// Sorts a frame of a session, which has one vBucket.
fn sort<'a>(conn: &mut Conn, frame: &Frame<'a>) -> Act<'a>
    requires { answer_room ≤ conn.old.out.spare }
    ensures act { act_data result ≡ act_in (frame_data frame.now) }
    ensures form { HasForm frame.now.opcode result }
    ensures ready { IsReady (frame_data frame.now) (act_in (frame_data frame.now)) }
    ensures text { conn.new.out.bytes ≡ conn.old.out.bytes
        ++ own_text vbuckets (frame_data frame.now) }
    ensures room { conn.new.out.spare + length conn.new.out.bytes ≡ conn.old.out.spare
        + length conn.old.out.bytes }
    ensures features { conn.new.features ≡ features_after conn.old.features
        (frame_data frame.now) }
{
    conn.sort_frame(frame, VBUCKETS)
}

// Answers a call, notes that, and appends the text of its reply. At an error neither event nor answer is left of it; the
// plain map may be a call ahead, and answers no other.
fn answer_call(
    plain: &mut Plain,
    history: &mut History,
    conn: &mut Conn,
    frame: &Frame,
    form: Form,
    call: &Call,
    now: u64,
) -> Result<(), NoMemory>
    requires moment { IsMoment now }
    requires within { IsWithin (call_data call.now) }
    requires form { IsFormOf frame.now.opcode form }
    requires spare { 2097152 ≤ conn.old.out.spare }
    ensures called { OnOk result (AnswersCall (frame_data frame.now) (call_data call.now) now
        plain.old plain.new history.old history.new conn.old conn.new) }
    ensures err { OnErr result ((history.new ≡ history.old)
        × (conn.new.out.bytes ≡ conn.old.out.bytes) × (conn.new.features ≡ conn.old.features)) }
{
    let at = conn.out.bytes().len();
    match answer_behind(plain, history, conn, frame, form, call, now) {
        Ok(()) => Ok(()),
        Err(NoMemory) => {
            conn.out.cut(at);
            Err(NoMemory)
        }
    }
}

// Answers a call behind the room for its reply's head, notes that from there, and ends the reply. At an error that room
// is left.
fn answer_behind(
    plain: &mut Plain,
    history: &mut History,
    conn: &mut Conn,
    frame: &Frame,
    form: Form,
    call: &Call,
    now: u64,
) -> Result<(), NoMemory>
    requires moment { IsMoment now }
    requires within { IsWithin (call_data call.now) }
    requires form { IsFormOf frame.now.opcode form }
    requires spare { 2097152 ≤ conn.old.out.spare }
    ensures called { OnOk result (AnswersCall (frame_data frame.now) (call_data call.now) now
        plain.old plain.new history.old history.new conn.old conn.new) }
    ensures err { OnErr result ((history.new ≡ history.old)
        × (take (length conn.old.out.bytes) conn.new.out.bytes ≡ conn.old.out.bytes)
        × (length conn.old.out.bytes ≤ length conn.new.out.bytes)
        × (conn.new.features ≡ conn.old.features)) }
{
    // Reading it tells its range, without which the head's length has no bound.
    let _key_len = frame.key_len;
    let seqno = conn.features.seqno;
    let at = conn.out.bytes().len();
    begin_reply(frame, form, seqno, &mut conn.out);
    let from = conn.out.bytes().len();
    let reply = plain.answer(call, now, &mut conn.out)?;
    let value = &conn.out.bytes()[from..];
    note_call(history, call, now, reply, value)?;
    end_reply(frame, form, &reply, at, seqno, &mut conn.out);
    Ok(())
}

// Notes that a call of caller 0 on vBucket 0 was answered. At an error nothing was noted.
fn note_call(
    history: &mut History,
    call: &Call,
    now: u64,
    reply: Reply,
    value: &[u8],
) -> Result<(), NoMemory>
    ensures ok { OnOk result (history.new ≡ history.old
        ++ (0, Called 0 (call_data call.now) now reply value.now) ∷ []) }
    ensures err { OnErr result (history.new ≡ history.old) }
{
    let event = Event::Called {
        caller: 0,
        call: *call,
        now,
        reply,
        value,
    };
    history.note(0, &event)
}
