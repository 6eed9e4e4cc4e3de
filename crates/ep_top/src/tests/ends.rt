// How sessions end, and the lines and statuses that tell it.
use super::*;

#[test]
fn sessions_end_where_the_stream_says_so(rt: HostRuntime) -> Result<(), Fail> {
    let alloc = rt.alloc();
    let quit = "80 07 0000 00 00 0000 00000000 00000000 0000000000000000";
    let quit_quietly = "80 17 0000 00 00 0000 00000000 00000000 0000000000000000";
    let noop_but_one_byte = "80 0a 0000 00 00 0000 00000000 deadbeef 00000000000000";
    let quit_answer = "81 07 0000 00 00 0000 00000000 00000000 0000000000000000";

    // The header of a Get whose body has 2,097,153 bytes.
    let too_long = "80 00 0000 00 00 0000 00200001 00000000 0000000000000000";
    let sessions = [
        (("", ""), ("", ""), End::Closed),
        ((NOOP, NOOP), (NOOP_ANSWER, NOOP_ANSWER), End::Closed),
        ((noop_but_one_byte, ""), ("", ""), End::Torn { at: 0 }),
        (
            (NOOP, "800a000000"),
            (NOOP_ANSWER, ""),
            End::Torn { at: 24 },
        ),
        (("16", ""), ("", ""), End::BadMagic { at: 0 }),
        (("16", NOOP), ("", ""), End::BadMagic { at: 0 }),
        ((NOOP, "16"), (NOOP_ANSWER, ""), End::BadMagic { at: 24 }),
        ((too_long, ""), ("", ""), End::TooLong { at: 0 }),
        ((NOOP, too_long), (NOOP_ANSWER, ""), End::TooLong { at: 24 }),
        ((quit, NOOP), (quit_answer, ""), End::Quit),
        ((NOOP, quit), (NOOP_ANSWER, quit_answer), End::Quit),
        ((quit_quietly, NOOP), ("", ""), End::Quit),
    ];
    for ((first, second), (answer, other), end) in sessions {
        let input = bytes_of(alloc, &[first, second])?;
        let outcome = session(alloc, &input, Vec::new(alloc))?;
        assert_eq!(rt; outcome.end, end, "{first} {second}");
        assert_eq!(rt;
            outcome.written,
            bytes_of(alloc, &[answer, other])?,
            "{first} {second}"
        );
    }
    Ok(())
}

#[test]
fn other_words_are_refused(rt: HostRuntime) -> Result<(), Fail> {
    let alloc = rt.alloc();
    let input = bytes_of(alloc, &[SET])?;
    let commands: [&[&str]; 5] = [
        &[],
        &["session", "session"],
        &["serve"],
        &["session "],
        &[""],
    ];
    for words in commands {
        let outcome = session_on(alloc, words, &input, Vec::new(alloc), &[], &[])?;
        assert_eq!(rt; outcome.end, End::BadWords, "{words:?}");
        assert!(rt; outcome.written.is_empty(), "{words:?}");
        assert_eq!(rt; outcome.history.count(), 0, "{words:?}");
    }
    Ok(())
}

#[test]
fn ends_have_texts_and_statuses(rt: HostRuntime) -> Result<(), Fail> {
    for (end, text, status) in [
        (End::Closed, "closed", 0),
        (End::Quit, "quit", 0),
        (End::BadWords, "bad words", 2),
        (End::Torn { at: 24 }, "torn at 24", 3),
        (End::BadMagic { at: 95 }, "bad magic at 95", 4),
        (End::TooLong { at: 1_048_576 }, "too long at 1048576", 5),
        (End::ReadFault, "read fault", 6),
        (End::WriteFault, "write fault", 7),
        (End::NoMemory, "no memory", 10),
        (End::Limit, "limit", 16),
    ] {
        assert_eq!(rt; end.to_string(rt.alloc())?.as_str(), text);
        assert_eq!(rt; end.status(), status, "{text}");
    }
    Ok(())
}
