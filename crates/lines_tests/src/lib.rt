#![tactic(auto)]

// Examples of lines, read: each form, and where other lines are refused.
#[cfg(test)]
mod tests {
    use calls::Call;
    use lines::{Claim, Line, Refusal, read_claim, read_line};

    #[test]
    fn lines_are_read(rt: HostRuntime) {
        let table: [(&[u8], Result<Line, usize>); 31] = [
            (b"lamps 3", Ok(Line::Lamps(3))),
            (b"lamps 00000000000000065535", Ok(Line::Lamps(65535))),
            (b"grid 5 2", Ok(Line::Grid(5, 2))),
            (b"wire 0 65535", Ok(Line::Call(Call::Wire(0, 65535)))),
            (b"press 12", Ok(Line::Call(Call::Press(12)))),
            (b"lit", Ok(Line::Call(Call::Lit))),
            (b"out", Ok(Line::Call(Call::Out))),
            (b"ways", Ok(Line::Call(Call::Ways))),
            (b"", Ok(Line::Nothing)),
            (b"# lamps 3 \xff", Ok(Line::Nothing)),
            (b"lamp 3", Err(4)),
            (b"lamps", Err(5)),
            (b"lamps ", Err(6)),
            (b"lamps x", Err(6)),
            (b"lamps 3 ", Err(7)),
            (b"lamps 3\r", Err(7)),
            (b"lamps 65536", Err(10)),
            (b"lamps 00000000000000065536", Err(25)),
            (b"wire 1", Err(6)),
            (b"wire 1  2", Err(7)),
            (b"wire  1 2", Err(5)),
            (b"wire 1 2 ", Err(8)),
            (b"grid 2,3", Err(6)),
            (b"turn 70000", Err(9)),
            (b"LIT", Err(0)),
            (b"l", Err(1)),
            (b"lit ", Err(3)),
            (b"way", Err(3)),
            (b"out\xff", Err(3)),
            (b"\xff\xfe", Err(0)),
            (b"never, by 11", Err(0)),
        ];
        for (line, said) in table {
            assert_eq!(rt; read_line(line), said);
        }
    }

    #[test]
    fn claims_are_read(rt: HostRuntime) {
        let table: [(&[u8], u16, Result<Claim, usize>); 16] = [
            (b"lamps 5", 0, Ok(Claim::Lamps(5))),
            (b"wire 3 4", 5, Ok(Claim::Wire(3, 4))),
            (b"# press 1", 5, Ok(Claim::Nothing)),
            (b"press 10110", 5, Ok(Claim::Press(13))),
            (b"never, by 11011", 5, Ok(Claim::Never(27))),
            (
                b"press 0000000000000000000000000000000000000000000000000000000000000001",
                64,
                Ok(Claim::Press(1 << 63)),
            ),
            (b"press 10110", 0, Err(0)),
            (b"press 10110", 65, Err(0)),
            (b"press 1011", 5, Err(10)),
            (b"press 101101", 5, Err(11)),
            (b"press 10210", 5, Err(8)),
            (b"never by 11011", 5, Err(5)),
            (b"never, by 11011 ", 5, Err(15)),
            (b"grid 2 2", 5, Err(0)),
            (b"lit", 5, Err(1)),
            (b"some way, press 10110", 5, Err(0)),
        ];
        for (line, n, said) in table {
            assert_eq!(rt; read_claim(line, n), said);
        }
    }

    #[test]
    fn refusals_are_printed(rt: HostRuntime) {
        let table: [(Refusal, &str); 3] = [
            (Refusal::Unreadable(70000), "refused 1 at 70000"),
            (Refusal::Call(calls::Refusal::ShortMemory), "refused 3 at 1"),
            (
                Refusal::from(calls::Refusal::Unreadable(7)),
                "refused 1 at 7",
            ),
        ];
        for (refusal, said) in table {
            let text = refusal.to_string(rt.alloc()).expect(&rt, "memory");
            assert_eq!(rt; text.as_str(), said);
        }
    }
}
