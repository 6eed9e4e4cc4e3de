// What the command line says, and the session that it asks for.
ghost use Rattle.std.specs.Prelude.{◌≡◌, ◌↔◌, drop, map, string_bytes, IfOk, IfErr, OnErr};
ghost use Rattle.std.specs.IoError.{error_kind};
ghost use Rattle.std.specs.Process.{exit_status};
ghost use Rattle.std.specs.Vec.Iter.{into_iter_items};
ghost use Rattle.ep_top.specs.End.{status_of};
ghost use Rattle.ep_top.specs.Outside.{outside};
ghost use Rattle.ep_server.specs.Command.{EndsCommand};

use ep_edge::{Clock, Sink, Source};
use ep_top::{End, run_session};
use std::alloc::Global;
use std::env::Args;
use std::io;
use std::io::ErrorKind;
use std::process::ExitCode;

/// How the program ends where its command line can't be read: a word isn't UTF-8, or memory ran out.
pub fn unread_words(error: &io::Error) -> End
    ensures memory { (result ≡ End.NoMemory) ↔ (error_kind error.now ≡ ErrorKind.OutOfMemory) }
    ensures other { (result ≡ End.BadWords) ↔ ((error_kind error.now ≡ ErrorKind.OutOfMemory) → ⊥) }
{
    match error.kind() {
        ErrorKind::OutOfMemory => End::NoMemory,
        _ => End::BadWords,
    }
}

/// The words of the command line behind the program's name. It moves them.
pub fn words_behind_name(alloc: Global, args: Args) -> Result<Vec<String>, End>
    ensures words { IfOk result (λ words. words.items ≡ drop 1 (into_iter_items args)) }
    ensures err { IfErr result (λ end. end ≡ End.NoMemory) }
{
    args.skip(1).collect(alloc).map_err(|_| End::NoMemory)
}

/// Does the command that the words are, and says how it ended. Words that can't be read are none, and end it
/// before anything is taken.
pub fn run<R: Source, W: Sink, C: Clock>(
    alloc: Global,
    words: Result<Vec<String>, End>,
    source: &mut R,
    sink: &mut W,
    clock: &mut C,
) -> End
    ensures ends { IfOk words (λ words. EndsCommand (map string_bytes words.items)
        (outside (R.left source.old) (R.left_before source.old) (R.has_ended source.old)
        (R.ended_before source.old) (R.faults source.old) (W.held sink.old)
        (W.last_offer sink.old) (W.faults sink.old) (C.moment clock.old))
        (outside (R.left source.new) (R.left_before source.new) (R.has_ended source.new)
        (R.ended_before source.new) (R.faults source.new) (W.held sink.new)
        (W.last_offer sink.new) (W.faults sink.new) (C.moment clock.new))
        ((source.new ≡ source.old) × (sink.new ≡ sink.old) × (clock.new ≡ clock.old)) result) }
    ensures unread { IfErr words (λ end. result ≡ end) }
    ensures refused { result ≡ End.BadWords → (source.new ≡ source.old) × (sink.new ≡ sink.old)
        × (clock.new ≡ clock.old) }
    ensures untouched { OnErr words ((source.new ≡ source.old) × (sink.new ≡ sink.old)
        × (clock.new ≡ clock.old)) }
{
    match words {
        Ok(words) => run_session(alloc, &words, source, sink, clock).end,
        Err(end) => end,
    }
}

/// The status that tells this end.
pub fn exit_code(end: End) -> ExitCode
    ensures { exit_status result ≡ status_of end }
{
    ExitCode::from(end.status())
}

#[cfg(test)]
mod tests {
    use super::*;
    use ep_edge::{MemoryClock, MemorySink, MemorySource};
    use std::process::Abort;
    use std::test::Fail;

    // A Get of the key `x`.
    const GET: &[u8] = b"\x80\x00\x00\x01\0\0\0\0\0\0\0\x01\0\0\0\0\0\0\0\0\0\0\0\0x";

    // What it is answered on an empty map: the status 1, and no body.
    const NOT_FOUND: &[u8] = b"\x81\x00\x00\x00\0\0\0\x01\0\0\0\0\0\0\0\0\0\0\0\0\0\0\0\0";

    // Runs the command line over the Get, and checks its end and what it wrote.
    fn check_run(
        rt: &(impl Abort + AllocGlobal),
        line: &[&str],
        want: End,
        answers: &[u8],
    ) -> Result<(), Fail> {
        let mut args = Vec::new(rt.alloc());
        for word in line {
            args.push(String::from_str(rt.alloc(), word)?)?;
        }
        let alloc = rt.alloc();
        let mut source = MemorySource::new(GET.to_vec(alloc)?, Vec::new(alloc), Vec::new(alloc));
        let mut sink = MemorySink::new(alloc, 100, Vec::new(alloc)).expect(rt, "memory");
        let mut clock = MemoryClock::new(Vec::new(alloc));
        let words = words_behind_name(alloc, args.into_iter());
        let end = run(alloc, words, &mut source, &mut sink, &mut clock);
        assert_eq!(rt; end, want, "{line:?}");
        assert!(rt; sink.bytes() == answers, "{line:?}");
        Ok(())
    }

    #[test]
    fn a_session_is_the_one_command(rt: HostRuntime) -> Result<(), Fail> {
        check_run(&rt, &["ep_server", "session"], End::Closed, NOT_FOUND)?;
        check_run(&rt, &["ep_server"], End::BadWords, b"")?;
        check_run(
            &rt,
            &["ep_server", "session", "session"],
            End::BadWords,
            b"",
        )?;
        check_run(&rt, &["session"], End::BadWords, b"")
    }

    #[test]
    fn faults_of_the_command_line_have_their_status(rt: HostRuntime) {
        for (kind, status) in [(ErrorKind::OutOfMemory, 10), (ErrorKind::InvalidData, 2)] {
            let end = unread_words(&io::Error::from(kind));
            assert!(rt; exit_code(end) == ExitCode::from(status), "{kind:?}");
        }
    }
}
