use crate::runs::run_on;
use boards::loopback::Loopback;
use buses::{CombinedBus, Fence, Page, Shift};
use panel51::Panel51;
use std::test::Fail;

// On the combined bus a program writes its own code: MOVX puts INC A at 0006H.
#[test]
fn own_code(rt: HostRuntime) -> Result<(), Fail> {
    let mut bytes = [0x74, 0x04, 0x90, 0x00, 0x06, 0xF0, 0x00, 0xA5];
    let Ok(mut bus) = CombinedBus::new(&mut bytes) else {
        return Err(Fail::new("refused"));
    };
    let mut board = Loopback::new();
    let mut core = Panel51::new();
    assert_eq!(rt; run_on(&mut core, &mut bus, &mut board, 5), (4, 12, 5));
    Ok(())
}

// A fence over a page over a shift over the combined bus. The code stands at 0100H below; the page at 0200H can be written up to the fence.
#[test]
fn piled(rt: HostRuntime) -> Result<(), Fail> {
    let mut bytes = [0; 512];
    bytes[256..266].copy_from_slice(&[0x74, 0x37, 0x90, 0x02, 0x00, 0xF0, 0xE4, 0xE0, 0xA3, 0xF0]);
    let Ok(below) = CombinedBus::new(&mut bytes) else {
        return Err(Fail::new("refused"));
    };
    let page = Page::new(Shift::new(below, 0x100), 2);
    let Ok(mut bus) = Fence::new(page, 0x201, 0x2FF) else {
        return Err(Fail::new("refused"));
    };
    let mut board = Loopback::new();
    let mut core = Panel51::new();
    assert_eq!(rt; run_on(&mut core, &mut bus, &mut board, 8), (6, 16, 0x37));
    Ok(())
}
