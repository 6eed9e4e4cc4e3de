// One connection's state.
ghost use Rattle.std.specs.Prelude.{◌≡◌, ◌+◌, ◌<◌, ◌≤◌, ◌^◌, ◌++◌, [], length, IfOk, if◌then◌else◌};
ghost use Rattle.ep_model.specs.Statuses.{success};
ghost use Rattle.mcbp_ops.specs.Text.{IsFormOf, is_silent, status_text, value_text};
ghost use Rattle.conn_core.specs.Hello.{granted};
ghost use Rattle.mcbp_frame.specs.Frames.{frame_data};
ghost use Rattle.conn_core.specs.Acts.{act_data, act_of, own_text, features_after, IsReady, HasForm};

use crate::act::Act;
use crate::hello::{Features, asks_seqno};
use ep_model::{NoMemory, Out, status};
use mcbp_frame::{Frame, HEADER};
use mcbp_ops::{Form, Op, Reading, put_status, put_value, read_call};
use std::alloc::Global;

/// How many bytes of answers a connection holds.
pub const OUT_ROOM: usize = 4_194_304;

/// A connection: the answers that aren't written yet, and the features that the last Hello granted. All its memory is
/// taken by `new`.
#[derive(Drop)]
pub struct Conn {
    pub out: Out,
    pub features: Features,
}

impl Conn {
    ghost use Rattle.conn_core.specs.Conns.{IsNew, out_room, answer_room};

    /// A connection with an empty buffer and no feature.
    pub fn new(alloc: Global) -> Result<Conn, NoMemory>
        ensures { IfOk result (λ conn. IsNew conn × (conn.out.spare ≡ out_room)) }
    {
        Ok(Conn {
            out: Out::new(alloc, OUT_ROOM)?,
            features: Features { seqno: false },
        })
    }

    /// Empties the buffer and takes back every feature, in constant time.
    pub fn clear(&mut self)
        ensures new { IsNew self.new }
        ensures out { self.new.out.spare ≡ self.old.out.spare + length self.old.out.bytes }
    {
        self.out.cut(0);
        self.features = Features { seqno: false };
    }

    /// Reads a frame, and answers what the connection answers by itself: a refused frame, Noop, Version, Hello and
    /// Quit, and with 07 a call on a vBucket that there isn't. It takes no memory and constant time, but for a Hello,
    /// whose cost is linear in its codes. 3 MiB of the output have to be free.
    pub fn sort_frame<'a>(&mut self, frame: &Frame<'a>, vbuckets: u16) -> Act<'a>
        requires { answer_room ≤ self.old.out.spare }
        ensures act { act_data result ≡ act_of vbuckets (frame_data frame.now) }
        ensures form { HasForm frame.now.opcode result }
        ensures ready { IsReady (frame_data frame.now) (act_of vbuckets (frame_data frame.now)) }
        ensures text { self.new.out.bytes ≡ self.old.out.bytes
            ++ own_text vbuckets (frame_data frame.now) }
        ensures room { self.new.out.spare + length self.new.out.bytes ≡ self.old.out.spare
            + length self.old.out.bytes }
        ensures features { self.new.features ≡ features_after self.old.features
            (frame_data frame.now) }
    {
        let Reading { op, form } = match read_call(frame) {
            Ok(reading) => reading,
            Err(bad) => {
                put_status(&mut self.out, frame, bad.status());
                return Act::Answered;
            }
        };
        match op {
            Op::Engine(call) => {
                if frame.vbucket < vbuckets {
                    return Act::Engine { call, form };
                }
                put_status(&mut self.out, frame, status::NOT_MY_VBUCKET);
                Act::Answered
            }
            Op::Noop => {
                put_status(&mut self.out, frame, status::SUCCESS);
                Act::Answered
            }
            Op::Version => {
                put_value(&mut self.out, frame, b"ep_server 1");
                Act::Answered
            }
            Op::Stat { group } => Act::Stat(group),
            Op::Hello { codes } => {
                self.features = Features {
                    seqno: asks_seqno(codes),
                };
                put_granted(&mut self.out, frame, self.features);
                Act::Answered
            }
            Op::Quit => {
                put_quit(&mut self.out, frame, form);
                Act::Quit
            }
        }
    }
}

// Appends the answer to a Hello: the codes that it was granted.
fn put_granted(out: &mut Out, frame: &Frame, features: Features)
    requires { HEADER + 2 ≤ out.old.spare }
    ensures bytes { out.new.bytes ≡ out.old.bytes
        ++ value_text (frame_data frame.now) (granted features) }
    ensures room { out.new.spare + length out.new.bytes ≡ out.old.spare + length out.old.bytes }
{
    if features.seqno {
        put_value(out, frame, &[0, 4]);
    } else {
        put_value(out, frame, &[]);
    }
}

// Appends the answer to a Quit, unless it is quiet.
fn put_quit(out: &mut Out, frame: &Frame, form: Form)
    requires room { HEADER ≤ out.old.spare }
    requires form { IsFormOf frame.now.opcode form }
    ensures bytes { out.new.bytes ≡ out.old.bytes
        ++ (if is_silent frame.now.opcode success then [] else status_text (frame_data frame.now)
        success) }
    ensures room { out.new.spare + length out.new.bytes ≡ out.old.spare + length out.old.bytes }
{
    if !form.silence.hides(status::SUCCESS) {
        put_status(out, frame, status::SUCCESS);
    }
}
