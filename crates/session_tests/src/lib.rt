#![tactic(auto)]

// Boards that are opened, wired, lit and put out by bytes.
#[cfg(test)]
mod tests {
    use calls::{Answer, Call, Refusal};
    use std::process::Abort;
    use std::test::Fail;
    use wires::Board;

    // A board of up to 64 lamps in memory of its own.
    #[derive(Drop)]
    struct Desk {
        board: Board,
        wires: [u64; 64],
        rows: [u64; 64],
        done: [u64; 64],
        pivots: [u16; 64],
        lit: [u64; 1],
        marks: [u64; 1],
    }

    // A new board, in memory that was used before.
    fn new_desk(lamps: u16) -> Result<Desk, Fail> {
        let mut wires = [0x5555_5555_5555_5555; 64];
        let mut rows = [0x3333_3333_3333_3333; 64];
        let mut done = [0x0f0f_0f0f_0f0f_0f0f; 64];
        let mut pivots = [7; 64];
        let mut lit = [9];
        let mut marks = [6];
        let board = session::open(
            lamps,
            &mut wires,
            &mut rows,
            &mut done,
            &mut pivots,
            &mut lit,
            &mut marks,
        )?;
        Ok(Desk {
            board,
            wires,
            rows,
            done,
            pivots,
            lit,
            marks,
        })
    }

    // The refusal of a call with this number and place.
    fn refusal(number: u8, place: u16) -> Option<Refusal> {
        match (number, place) {
            (1, _) => Some(Refusal::Unreadable(place)),
            (2, 0) => Some(Refusal::Itself),
            (4, 0) => Some(Refusal::NoLamp),
            _ => None,
        }
    }

    // What the bytes of an answer say, and its lamps as a set; none where there is no such answer.
    fn read(bytes: &[u8]) -> Option<(Answer, u64)> {
        if let [0, number, low, high] = bytes {
            let refusal = refusal(*number, u16::from_le_bytes([*low, *high]))?;
            return Some((Answer::Refused(refusal), 0));
        }
        let [kind, low, high, lamps @ ..] = bytes else {
            return None;
        };
        let n = u16::from_le_bytes([*low, *high]);
        let answer = match kind {
            1 => Answer::Number(n),
            2 => Answer::Lit(n),
            3 => Answer::Fewest(n),
            4 => Answer::SomeWay(n),
            5 => Answer::Never(n),
            _ => return None,
        };
        let mut set = [0; 8];
        set.get_mut(..lamps.len())?.copy_from_slice(lamps);
        Some((answer, u64::from_le_bytes(set)))
    }

    // What is answered to the bytes of a call.
    fn tell(desk: &mut Desk, bytes: &[u8]) -> Option<(Answer, u64)> {
        let mut out = [0; 24];
        let written = session::call(
            desk.board,
            &mut desk.wires,
            &mut desk.rows,
            &mut desk.done,
            &mut desk.pivots,
            &mut desk.lit,
            &mut desk.marks,
            bytes,
            &mut out,
        )
        .ok()?;
        read(out.get(..written)?)
    }

    // What is answered to a call.
    fn ask(desk: &mut Desk, call: Call) -> Option<(Answer, u64)> {
        let mut bytes = [0; 5];
        let written = calls::write_call(call, &mut bytes)?;
        tell(desk, bytes.get(..written)?)
    }

    // Makes the call of each lamp in the set.
    fn each<F: Fn(u16) -> Call + Drop>(rt: &impl Abort, desk: &mut Desk, call: F, set: u64)
        requires { F.IsAlwaysCallable call }
    {
        for i in 0..64u16 {
            if set >> i & 1 == 1 {
                assert_eq!(rt; ask(desk, call(i)), Some((Answer::Number(i), 0)));
            }
        }
    }

    fn wire(rt: &impl Abort, desk: &mut Desk, one: u16, other: u16) {
        assert_eq!(rt;
            ask(desk, Call::Wire(one, other)),
            Some((Answer::Number(one), 0))
        );
    }

    // Wires each lamp to the next, but for the last of `across`; and to the one that is `across` after it, if there are rows.
    fn wall(rt: &impl Abort, lamps: u16, across: u16, rows: bool, lit: u64) -> Result<Desk, Fail> {
        let mut desk = new_desk(lamps)?;
        for i in 0..lamps {
            if !(i + 1).is_multiple_of(across) {
                wire(rt, &mut desk, i, i + 1);
            }
            let below = i.saturating_add(across);
            if rows && below < lamps {
                wire(rt, &mut desk, i, below);
            }
        }
        each(rt, &mut desk, Call::Turn, lit);
        assert_eq!(rt; ask(&mut desk, Call::Lit), Some((Answer::Lit(lamps), lit)));
        Ok(desk)
    }

    #[test]
    fn walls_are_put_out(rt: HostRuntime) -> Result<(), Fail> {
        // lamps, across, rows, what is lit, the answer, how many lamps it has, and one more than the power of two that the ways are
        let table: [(u16, u16, bool, u64, Answer, u32, u16); 12] = [
            (4, 2, true, 0b1111, Answer::Fewest(4), 4, 1),
            (4, 2, true, 0b0001, Answer::Fewest(4), 3, 1),
            (2, 2, false, 0b01, Answer::Never(2), 2, 0),
            (3, 3, false, 0b010, Answer::Fewest(3), 3, 1),
            (3, 1, false, 0b101, Answer::Fewest(3), 2, 1),
            (5, 5, false, 0b00001, Answer::Never(5), 4, 0),
            (5, 5, false, 0b10001, Answer::Fewest(5), 3, 2),
            (6, 3, true, 0b111111, Answer::Fewest(6), 2, 3),
            (9, 3, true, 0b111111111, Answer::Fewest(9), 5, 1),
            (25, 5, true, 0x1ff_ffff, Answer::Fewest(25), 15, 3),
            (32, 2, false, 0b1111, Answer::Fewest(32), 2, 17),
            (34, 2, false, 0b1111, Answer::SomeWay(34), 2, 18),
        ];
        for (lamps, across, rows, lit, answer, count, ways) in table {
            let mut desk = wall(&rt, lamps, across, rows, lit)?;
            assert_eq!(rt; ask(&mut desk, Call::Ways), Some((Answer::Number(ways), 0)));
            let Some((said, set)) = ask(&mut desk, Call::Out) else {
                return Err(Fail::new("there is no such answer"));
            };
            assert_eq!(rt; (said, set.count_ones()), (answer, count));
            // pressed, a way puts all out, and a set that shows that there is none changes nothing
            each(&rt, &mut desk, Call::Press, set);
            let never = matches!(answer, Answer::Never(_));
            let left = if never { lit } else { 0 };
            assert_eq!(rt; ask(&mut desk, Call::Lit), Some((Answer::Lit(lamps), left)));
            if never {
                assert_eq!(rt; (set & lit).count_ones() % 2, 1);
            }
        }
        Ok(())
    }

    // A wire that is put twice is gone: the board is again one whose only way is to press what is lit.
    #[test]
    fn wires_come_and_go(rt: HostRuntime) -> Result<(), Fail> {
        let mut desk = new_desk(2)?;
        each(&rt, &mut desk, Call::Turn, 0b01);
        assert_eq!(rt; ask(&mut desk, Call::Out), Some((Answer::Fewest(2), 0b01)));
        wire(&rt, &mut desk, 0, 1);
        assert_eq!(rt; ask(&mut desk, Call::Out), Some((Answer::Never(2), 0b11)));
        wire(&rt, &mut desk, 1, 0);
        assert_eq!(rt; ask(&mut desk, Call::Out), Some((Answer::Fewest(2), 0b01)));
        assert_eq!(rt; ask(&mut desk, Call::Ways), Some((Answer::Number(1), 0)));
        Ok(())
    }

    // Of two reasons the first counts, and nothing is changed.
    #[test]
    fn calls_are_refused(rt: HostRuntime) -> Result<(), Fail> {
        let mut desk = wall(&rt, 3, 3, false, 0b010)?;
        let table: [(&[u8], Refusal); 12] = [
            (&[], Refusal::Unreadable(0)),
            (&[6], Refusal::Unreadable(0)),
            (&[3, 0], Refusal::Unreadable(1)),
            (&[0, 9, 0, 9], Refusal::Unreadable(4)),
            (&[1, 9], Refusal::Unreadable(2)),
            (&[2, 9, 0, 0], Refusal::Unreadable(3)),
            (&[0, 1, 0, 1, 0], Refusal::Itself),
            (&[0, 3, 0, 3, 0], Refusal::NoLamp),
            (&[0, 3, 0, 1, 0], Refusal::NoLamp),
            (&[0, 1, 0, 1, 1], Refusal::NoLamp),
            (&[1, 3, 0], Refusal::NoLamp),
            (&[2, 1, 1], Refusal::NoLamp),
        ];
        for (bytes, refusal) in table {
            assert_eq!(rt; tell(&mut desk, bytes), Some((Answer::Refused(refusal), 0)));
        }
        assert_eq!(rt; ask(&mut desk, Call::Lit), Some((Answer::Lit(3), 0b010)));
        assert_eq!(rt; ask(&mut desk, Call::Out), Some((Answer::Fewest(3), 0b111)));
        Ok(())
    }

    #[test]
    fn openings_are_refused(rt: HostRuntime) -> Result<(), Fail> {
        // lamps, how long each slice is, and how many lamps the board has that is opened
        let table: [(u16, [usize; 6], Result<u16, Refusal>); 12] = [
            (0, [3, 3, 3, 3, 1, 1], Err(Refusal::BadSize)),
            (1, [3, 3, 3, 3, 1, 1], Ok(1)),
            (3, [3, 3, 3, 3, 1, 1], Ok(3)),
            (4, [3, 3, 3, 3, 1, 1], Err(Refusal::ShortMemory)),
            (1024, [3, 3, 3, 3, 1, 1], Err(Refusal::ShortMemory)),
            (1025, [3, 3, 3, 3, 1, 1], Err(Refusal::BadSize)),
            (3, [2, 3, 3, 3, 1, 1], Err(Refusal::ShortMemory)),
            (3, [3, 2, 3, 3, 1, 1], Err(Refusal::ShortMemory)),
            (3, [3, 3, 2, 3, 1, 1], Err(Refusal::ShortMemory)),
            (3, [3, 3, 3, 2, 1, 1], Err(Refusal::ShortMemory)),
            (3, [3, 3, 3, 3, 0, 1], Err(Refusal::ShortMemory)),
            (3, [3, 3, 3, 3, 1, 0], Err(Refusal::ShortMemory)),
        ];
        for (lamps, [wires, rows, done, pivots, lit, marks], said) in table {
            let opened = session::open(
                lamps,
                &mut vec![in rt.alloc(); 9; wires]?,
                &mut vec![in rt.alloc(); 9; rows]?,
                &mut vec![in rt.alloc(); 9; done]?,
                &mut vec![in rt.alloc(); 9; pivots]?,
                &mut vec![in rt.alloc(); 9; lit]?,
                &mut vec![in rt.alloc(); 9; marks]?,
            );
            assert_eq!(rt; opened.map(|board| board.lamps), said);
        }
        Ok(())
    }
}
