// Examples for the crate records: every refusal's number, and the edges.
#![tactic(auto)]

#[cfg(test)]
mod tests {
    use logs::log::Log;
    use record_files::reader::take_up;
    use record_files::text::write_pins_text;
    use record_files::writer::write_records;
    use records::pins::PinRecord;
    use records::port_writes::PortRecord;
    use records::ports::Port;
    use records::record::Record;
    use records::refusals::Refusal;
    use records::traces::TraceRecord;
    use std::test::Fail;

    // The number of an outcome: 0 where it is accepted.
    fn number(outcome: Result<(), Refusal>) -> u8 {
        match outcome {
            Ok(()) => 0,
            Err(refusal) => u8::from(refusal),
        }
    }

    // The refusal's number and how many records are then in a log of so many places.
    fn taken(file: &[u8], places: &mut [PinRecord]) -> (u8, usize) {
        let mut log = Log::new(places);
        let outcome = number(take_up(file, &mut log));
        (outcome, log.len())
    }

    #[test]
    fn pin_files(rt: HostRuntime) {
        let mut places = [PinRecord::BLANK; 3];
        assert_eq!(rt; taken(&[], &mut places), (0, 0));
        assert_eq!(rt; taken(&[0; 7], &mut places), (3, 0));
        assert_eq!(rt; taken(&[0; 9], &mut places), (3, 0));
        assert_eq!(rt;
            taken(&[0xff, 0xff, 0xff, 0xff, 3, 0, 0, 0], &mut places),
            (0, 1)
        );
        assert_eq!(rt; taken(&[0, 0, 0, 0, 4, 0, 0, 0], &mut places), (4, 0));
        assert_eq!(rt; taken(&[0, 0, 0, 0, 3, 0, 1, 0], &mut places), (4, 0));
        assert_eq!(rt; taken(&[0, 0, 0, 0, 3, 0, 0, 1], &mut places), (4, 0));
        assert_eq!(rt; taken(&[0; 24], &mut places), (0, 3));
        assert_eq!(rt; taken(&[0; 32], &mut places), (7, 0));
    }

    #[test]
    fn cycles_in_order(rt: HostRuntime) {
        let mut places = [PinRecord::BLANK; 2];
        let equal = [0, 0, 1, 0, 3, 1, 0, 0, 0, 0, 1, 0, 3, 2, 0, 0];
        assert_eq!(rt; taken(&equal, &mut places), (0, 2));
        let below = [0, 0, 1, 0, 3, 1, 0, 0, 0, 0, 0, 255, 3, 2, 0, 0];
        assert_eq!(rt; taken(&below, &mut places), (5, 0));
        // a field outside its layout in the last record comes before the order of the first two
        let both = [
            0, 0, 1, 0, 3, 1, 0, 0, 0, 0, 0, 255, 3, 2, 0, 0, 9, 9, 9, 9, 9, 0, 0, 0,
        ];
        assert_eq!(rt; taken(&both, &mut places), (4, 0));
        // the order comes before the room
        let long = [
            1, 0, 1, 0, 3, 1, 0, 0, 1, 0, 0, 255, 3, 2, 0, 0, 1, 0, 0, 255, 3, 2, 0, 0,
        ];
        assert_eq!(rt; taken(&long, &mut places), (5, 0));
    }

    #[test]
    fn longest_files(rt: HostRuntime) -> Result<(), Fail> {
        let mut places = vec![in rt.alloc(); PinRecord::BLANK; 8192]?;
        let file = vec![in rt.alloc(); 0u8; 65536]?;
        assert_eq!(rt; taken(file.as_slice(), places.as_mut_slice()), (0, 8192));
        let longer = vec![in rt.alloc(); 0u8; 65537]?;
        assert_eq!(rt; taken(longer.as_slice(), places.as_mut_slice()), (3, 0));
        let whole_records = vec![in rt.alloc(); 0u8; 65544]?;
        assert_eq!(rt;
            taken(whole_records.as_slice(), places.as_mut_slice()),
            (3, 0)
        );
        Ok(())
    }

    #[test]
    fn full_log(rt: HostRuntime) {
        let mut places = [PortRecord::BLANK; 1];
        let mut log = Log::new(&mut places);
        assert_eq!(rt;
            (log.len(), log.capacity(), log.room(), log.is_full()),
            (0, 1, 1, false)
        );
        assert_eq!(rt;
            number(log.append(PortRecord {
                port: Port::P3,
                byte: 7,
                step: 65535,
            })),
            0
        );
        assert_eq!(rt;
            number(log.append(PortRecord {
                port: Port::P1,
                byte: 8,
                step: 1,
            })),
            8
        );
        assert_eq!(rt;
            (log.len(), log.capacity(), log.room(), log.is_full()),
            (1, 1, 0, true)
        );
        assert!(rt; log.entry(1).is_none());
        let mut bytes = [9; 5];
        assert_eq!(rt; number(write_records(&log, &mut bytes[0..3])), 7);
        assert_eq!(rt; bytes, [9, 9, 9, 9, 9]);
        assert_eq!(rt; number(write_records(&log, &mut bytes)), 0);
        assert_eq!(rt; bytes, [3, 7, 255, 255, 9]);
    }

    // The number of what taking these eight bytes for a trace record answers, and whether they come back.
    fn trace(bytes: [u8; 8]) -> (u8, bool) {
        let mut back = [0; 8];
        match TraceRecord::take(&bytes) {
            Ok(record) => {
                let _ = record.put(&mut back);
                (0, back == bytes)
            }
            Err(refusal) => (u8::from(refusal), false),
        }
    }

    #[test]
    fn trace_records(rt: HostRuntime) {
        assert_eq!(rt; trace([0, 0x12, 0x34, 0x75, 2, 0, 0, 0xff]), (0, true));
        assert_eq!(rt; trace([0, 0, 0, 0xa5, 4, 0, 3, 1]), (0, true));
        assert_eq!(rt; trace([1, 0xff, 0xff, 0, 2, 1, 1, 0]), (0, true));
        assert_eq!(rt; trace([1, 0, 0, 0, 1, 5, 2, 0]), (0, true));
        assert_eq!(rt; trace([2, 0, 0, 0, 1, 0, 0, 0]), (4, false));
        assert_eq!(rt; trace([0, 0, 0, 0, 3, 0, 0, 0]), (4, false));
        assert_eq!(rt; trace([0, 0, 0, 0, 0, 0, 0, 0]), (4, false));
        assert_eq!(rt; trace([0, 0, 0, 0, 1, 1, 0, 0]), (4, false));
        assert_eq!(rt; trace([1, 0, 0, 0, 2, 0, 0, 0]), (4, false));
        assert_eq!(rt; trace([1, 0, 0, 0, 2, 6, 0, 0]), (4, false));
        assert_eq!(rt; trace([1, 0, 0, 1, 2, 1, 0, 0]), (4, false));
        assert_eq!(rt; trace([0, 0, 0, 0, 1, 0, 4, 0]), (4, false));
    }

    #[test]
    fn widths(rt: HostRuntime) {
        assert_eq!(rt;
            (PinRecord::WIDTH, TraceRecord::WIDTH, PortRecord::WIDTH),
            (8, 8, 4)
        );
        assert!(rt; PinRecord::take(&[0; 7]).is_err());
        assert!(rt; PortRecord::take(&[4, 0, 0, 0]).is_err());
        assert!(rt; PortRecord::take(&[3, 0, 0]).is_err());
    }

    #[test]
    fn texts(rt: HostRuntime) {
        let mut text = [0; 26];
        let file = [0, 0, 0, 1, 3, 0xfb, 0, 0];
        assert_eq!(rt;
            write_pins_text(&file, &mut text[0..24]),
            Err(Refusal::TooLittleRoom)
        );
        assert_eq!(rt; text, [0; 26]);
        assert_eq!(rt; write_pins_text(&file, &mut text), Ok(25));
        assert_eq!(rt; text, *b"0000000103FB0000\nstop 00\n\0");
        assert_eq!(rt; write_pins_text(&file[1..8], &mut text), Ok(8));
        assert_eq!(rt; text, *b"stop 03\n03FB0000\nstop 00\n\0");
        assert_eq!(rt;
            write_pins_text(&[], &mut text[0..7]),
            Err(Refusal::TooLittleRoom)
        );
    }

    #[test]
    fn long_pin_files(rt: HostRuntime) -> Result<(), Fail> {
        let mut text = vec![in rt.alloc(); 0u8; 8712]?;
        let file = vec![in rt.alloc(); 0u8; 4097]?;
        assert_eq!(rt;
            write_pins_text(file.as_slice(), text.as_mut_slice()),
            Ok(8712)
        );
        assert_eq!(rt;
            write_pins_text(&file.as_slice()[0..4095], text.as_mut_slice()),
            Ok(8)
        );
        Ok(())
    }
}
