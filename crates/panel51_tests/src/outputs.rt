use output51::output::write_output;
use records::refusals::Refusal;
use std::test::Fail;

// A line a step and the last line; a memory that is too small stays as it was, and bytes past the text stay.
#[test]
fn texts(rt: HostRuntime) {
    let mut text = [0; 26];
    assert_eq!(rt;
        write_output(&[0x04, 0xA5], &[], &mut text[0..24]),
        Err(Refusal::TooLittleRoom)
    );
    assert_eq!(rt; text, [0; 26]);
    assert_eq!(rt; write_output(&[0x04, 0xA5], &[], &mut text), Ok(25));
    assert_eq!(rt; text, *b"0000000401000001\nstop 12\n\0");
    assert_eq!(rt; write_output(&[], &[], &mut text), Ok(8));
    assert_eq!(rt; text, *b"stop 01\n01000001\nstop 12\n\0");
}

// What refused files give: no code byte before a pin file of a wrong length, a port above 3, a cycle below the one before.
#[test]
fn refused(rt: HostRuntime) {
    let mut text = [0; 8];
    assert_eq!(rt; write_output(&[], &[0], &mut text), Ok(8));
    assert_eq!(rt; text, *b"stop 01\n");
    assert_eq!(rt; write_output(&[0], &[0], &mut text), Ok(8));
    assert_eq!(rt; text, *b"stop 03\n");
    assert_eq!(rt;
        write_output(&[0], &[0, 0, 0, 0, 4, 0, 0, 0], &mut text),
        Ok(8)
    );
    assert_eq!(rt; text, *b"stop 04\n");
    let pins = [0, 0, 0, 2, 3, 0, 0, 0, 0, 0, 0, 1, 3, 0, 0, 0];
    assert_eq!(rt; write_output(&[0], &pins, &mut text), Ok(8));
    assert_eq!(rt; text, *b"stop 05\n");
}

// Only the first 4,096 bytes of each file count; 64 steps have 64 lines, and a run that is not stopped ends with 00.
#[test]
fn long_files(rt: HostRuntime) -> Result<(), Fail> {
    let file = vec![in rt.alloc(); 0u8; 4097]?;
    let mut text = vec![in rt.alloc(); 0u8; 1096]?;
    assert_eq!(rt;
        write_output(file.as_slice(), file.as_slice(), text.as_mut_slice()),
        Ok(1096)
    );
    assert_eq!(rt; text[1094], b'0');
    assert_eq!(rt;
        write_output(
            file.as_slice(),
            &file.as_slice()[0..4095],
            text.as_mut_slice(),
        ),
        Ok(8)
    );
    Ok(())
}
