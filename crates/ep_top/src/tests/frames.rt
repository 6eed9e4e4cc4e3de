// Frames that are refused, and those that the connection answers by itself.
use super::*;

#[test]
fn frames_are_refused_by_the_first_check_that_fails(rt: HostRuntime) -> Result<(), Fail> {
    check_answers(
        &rt,
        &[
            (
                "an unknown opcode with a data type",
                "80 ff 0000 00 02 0000 00000000 00000001 0000000000000000",
                "81 ff 0000 00 00 0081 00000000 00000001 0000000000000000",
            ),
            (
                "Flush with a data type",
                "80 08 0000 00 02 0000 00000000 00000000 0000000000000000",
                "81 08 0000 00 00 0083 00000000 00000000 0000000000000000",
            ),
            (
                "Get with a data type",
                "80 00 0001 00 02 0000 00000001 00000000 0000000000000000 78",
                "81 00 0000 00 00 0004 00000000 00000000 0000000000000000",
            ),
            (
                "Hello with a code of one byte",
                "80 1f 0000 00 00 0000 00000003 00000000 0000000000000000 000400",
                "81 1f 0000 00 00 0004 00000000 00000000 0000000000000000",
            ),
            (
                "SetVBucket to a state that there isn't",
                "80 3d 0000 01 00 0000 00000001 00000000 0000000000000000 05",
                "81 3d 0000 00 00 0004 00000000 00000000 0000000000000000",
            ),
            (
                "Quit with extras",
                "80 07 0000 01 00 0000 00000001 00000000 0000000000000000 00",
                "81 07 0000 00 00 0004 00000000 00000000 0000000000000000",
            ),
        ],
    )
}

#[test]
fn long_frames_are_measured(rt: HostRuntime) -> Result<(), Fail> {
    let alloc = rt.alloc();
    let frames = [
        (
            "80 01 0000 08 00 0000 00000008 00000000 0000000000000000 0000000000000000",
            0,
            "81 01 0000 00 00 0004 00000000 00000000 0000000000000000",
        ),
        (
            "80 01 00fa 08 00 0000 00000102 00000000 0000000000000000 0000000000000000",
            250,
            "81 01 0000 00 00 0000 00000000 00000000 0de0b6b3a7640000",
        ),
        (
            "80 01 00fb 08 00 0000 00000103 00000000 0000000000000000 0000000000000000",
            251,
            "81 01 0000 00 00 0004 00000000 00000000 0000000000000000",
        ),
        (
            "80 01 0001 08 00 0000 00200000 00000000 0000000000000000 0000000000000000",
            2_097_144,
            "81 01 0000 00 00 0003 00000000 00000000 0000000000000000",
        ),
    ];
    for (head, zeros, answer) in frames {
        let mut input = bytes_of(alloc, &[head])?;
        input.extend_from_slice(&vec![in alloc; 0u8; zeros]?)?;
        input.extend_from_slice(&bytes_of(alloc, &[NOOP])?)?;
        let outcome = session(alloc, &input, Vec::new(alloc))?;
        assert_eq!(rt; outcome.end, End::Closed, "{head}");
        assert_eq!(rt;
            outcome.written,
            bytes_of(alloc, &[answer, NOOP_ANSWER])?,
            "{head}"
        );
    }
    Ok(())
}

#[test]
fn the_connection_answers_by_itself(rt: HostRuntime) -> Result<(), Fail> {
    check_answers(
        &rt,
        &[
            ("Noop", NOOP, NOOP_ANSWER),
            (
                "Version",
                "80 0b 0000 00 00 0000 00000000 00000000 0000000000000000",
                "81 0b 0000 00 00 0000 0000000b 00000000 0000000000000000 65705f7365727665722031",
            ),
            (
                "Stat of the group abc",
                "80 10 0003 00 00 0000 00000003 00000000 0000000000000000 616263",
                "81 10 0000 00 00 0001 00000000 00000000 0000000000000000",
            ),
        ],
    )
}

#[test]
fn a_hello_grants_the_feature_that_shows_sequence_numbers(rt: HostRuntime) -> Result<(), Fail> {
    check_answers(
        &rt,
        &[
            (
                "Hello",
                "80 1f 0000 00 00 0000 00000006 00000000 0000000000000000 0003 0004 0007",
                "81 1f 0000 00 00 0000 00000002 00000000 0000000000000000 0004",
            ),
            (
                "Set of Hello",
                SET,
                "81 01 0000 10 00 0000 00000010 00000000 0de0b6b3a7640000 0000000000000000 0000000000000001",
            ),
            ("Get of Hello", GET, GET_ANSWER),
            (
                "Hello that is refused",
                "80 1f 0000 00 00 0000 00000003 00000000 0000000000000000 000300",
                "81 1f 0000 00 00 0004 00000000 00000000 0000000000000000",
            ),
            (
                "Set behind the refused Hello",
                SET,
                "81 01 0000 10 00 0000 00000010 00000000 0de0b6b3a7640001 0000000000000000 0000000000000002",
            ),
            (
                "Hello without a code",
                "80 1f 0000 00 00 0000 00000000 00000000 0000000000000000",
                "81 1f 0000 00 00 0000 00000000 00000000 0000000000000000",
            ),
            (
                "Set behind it",
                SET,
                "81 01 0000 00 00 0000 00000000 00000000 0de0b6b3a7640002",
            ),
        ],
    )
}
