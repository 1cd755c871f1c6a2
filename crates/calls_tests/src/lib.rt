#![tactic(auto)]

// Examples of calls and answers as bytes.
#[cfg(test)]
mod tests {
    use calls::{Answer, Call, Refusal, read_call, write_answer, write_call};
    use std::test::Fail;

    #[test]
    fn calls_are_read(rt: HostRuntime) {
        let table: [(&[u8], Result<Call, Refusal>); 12] = [
            (&[0, 1, 0, 2, 0], Ok(Call::Wire(1, 2))),
            (&[0, 255, 3, 0, 4], Ok(Call::Wire(1023, 1024))),
            (&[0, 255, 255, 52, 18], Ok(Call::Wire(65535, 4660))),
            (&[1, 0, 0], Ok(Call::Turn(0))),
            (&[1, 0, 1], Ok(Call::Turn(256))),
            (&[2, 7, 0], Ok(Call::Press(7))),
            (&[3], Ok(Call::Lit)),
            (&[4], Ok(Call::Out)),
            (&[5], Ok(Call::Ways)),
            (&[], Err(Refusal::Unreadable(0))),
            (&[6], Err(Refusal::Unreadable(0))),
            (&[255, 0, 0], Err(Refusal::Unreadable(0))),
        ];
        for (bytes, call) in table {
            assert_eq!(rt; read_call(bytes), call);
        }
    }

    // Every number that no call has, alone and with bytes after it.
    #[test]
    fn unknown_calls_are_refused(rt: HostRuntime) {
        let refused = Err(Refusal::Unreadable(0));
        for number in 6..=255u8 {
            assert_eq!(rt; read_call(&[number]), refused);
            assert_eq!(rt; read_call(&[number, 1, 0]), refused);
            assert_eq!(rt; read_call(&[number, 1, 0, 2, 0]), refused);
        }
    }

    // Each call cut short at every length is refused there, and with a byte too many at that byte.
    #[test]
    fn other_lengths_are_refused(rt: HostRuntime) {
        let table: [([u8; 6], usize); 6] = [
            ([0, 1, 0, 2, 0, 0], 5),
            ([1, 3, 1, 0, 0, 0], 3),
            ([2, 3, 1, 0, 0, 0], 3),
            ([3, 0, 0, 0, 0, 0], 1),
            ([4, 0, 0, 0, 0, 0], 1),
            ([5, 0, 0, 0, 0, 0], 1),
        ];
        for (bytes, whole) in table {
            for n in 0..=6 {
                let refused = Err(Refusal::Unreadable(n.min(whole) as u16));
                assert_eq!(rt; read_call(&bytes[..n]) == refused, n != whole);
            }
        }
    }

    #[test]
    fn a_million_bytes_are_refused(rt: HostRuntime) -> Result<(), Fail> {
        let table: [(u8, u16); 7] = [(0, 5), (1, 3), (2, 3), (3, 1), (4, 1), (5, 1), (6, 0)];
        for (number, place) in table {
            let bytes = vec![in rt.alloc(); number; 1_000_000]?;
            assert_eq!(rt; read_call(&bytes), Err(Refusal::Unreadable(place)));
        }
        Ok(())
    }

    // A call is written into the first bytes, and nothing is where there is no room.
    #[test]
    fn calls_are_written(rt: HostRuntime) {
        let table: [(Call, [u8; 5], usize); 7] = [
            (Call::Wire(1, 2), [0, 1, 0, 2, 0], 5),
            (Call::Wire(1023, 65535), [0, 255, 3, 255, 255], 5),
            (Call::Turn(256), [1, 0, 1, 170, 170], 3),
            (Call::Press(7), [2, 7, 0, 170, 170], 3),
            (Call::Lit, [3, 170, 170, 170, 170], 1),
            (Call::Out, [4, 170, 170, 170, 170], 1),
            (Call::Ways, [5, 170, 170, 170, 170], 1),
        ];
        for (call, bytes, whole) in table {
            for n in 0..=5 {
                let mut out = [170; 5];
                let written = write_call(call, &mut out[..n]);
                if n < whole {
                    assert_eq!(rt; written, None);
                    assert_eq!(rt; out, [170; 5]);
                } else {
                    assert_eq!(rt; written, Some(whole));
                    assert_eq!(rt; out, bytes);
                }
            }
        }
    }

    // Every lamp that a call can name comes back.
    #[test]
    fn lamps_come_back(rt: HostRuntime) {
        for lamp in 0..=65535u16 {
            let mut out = [0; 5];
            let other = 65535 - lamp;
            assert_eq!(rt; write_call(Call::Wire(lamp, other), &mut out), Some(5));
            assert_eq!(rt; read_call(&out), Ok(Call::Wire(lamp, other)));
        }
    }

    // An answer is written into the first bytes, with no bit past its last lamp.
    #[test]
    fn answers_are_written(rt: HostRuntime) {
        let table: [(Answer, [u8; 7], usize); 12] = [
            (
                Answer::Refused(Refusal::Unreadable(5)),
                [0, 1, 5, 0, 170, 170, 170],
                4,
            ),
            (
                Answer::Refused(Refusal::Itself),
                [0, 2, 0, 0, 170, 170, 170],
                4,
            ),
            (
                Answer::Refused(Refusal::BadSize),
                [0, 3, 0, 0, 170, 170, 170],
                4,
            ),
            (
                Answer::Refused(Refusal::ShortMemory),
                [0, 3, 1, 0, 170, 170, 170],
                4,
            ),
            (
                Answer::Refused(Refusal::NoLamp),
                [0, 4, 0, 0, 170, 170, 170],
                4,
            ),
            (Answer::Number(0), [1, 0, 0, 170, 170, 170, 170], 3),
            (Answer::Number(1023), [1, 255, 3, 170, 170, 170, 170], 3),
            (Answer::Lit(5), [2, 5, 0, 17, 170, 170, 170], 4),
            (Answer::Fewest(8), [3, 8, 0, 177, 170, 170, 170], 4),
            (Answer::SomeWay(9), [4, 9, 0, 177, 0, 170, 170], 5),
            (Answer::SomeWay(10), [4, 10, 0, 177, 2, 170, 170], 5),
            (Answer::Never(1), [5, 1, 0, 1, 170, 170, 170], 4),
        ];
        // lamps 0, 4, 5, 7, 9 and 10
        let row = [0b110_1011_0001];
        for (answer, bytes, whole) in table {
            let mut out = [170; 7];
            assert_eq!(rt; write_answer(answer, &row, &mut out), whole);
            assert_eq!(rt; out, bytes);
        }
    }

    // Of 1,024 lamps the bytes of the words follow each other, the lowest first.
    #[test]
    fn all_lamps_are_written(rt: HostRuntime) {
        let mut row = [0; 16];
        for (i, word) in row.iter_mut().enumerate() {
            *word = 0x0807_0605_0403_0201 + 0x1010_1010_1010_1010 * (i % 8) as u64;
        }
        let mut out = [170; 144];
        assert_eq!(rt; write_answer(Answer::Lit(1024), &row, &mut out), 131);
        assert_eq!(rt; &out[..3], [2, 0, 4].as_slice());
        for (i, byte) in out[3..131].iter().enumerate() {
            assert_eq!(rt; *byte as usize, 16 * (i / 8 % 8) + i % 8 + 1);
        }
        assert_eq!(rt; &out[131..], [170; 13].as_slice());
    }
}
