use crate::access::Access::*;
use crate::access::try_all;
use buses::BusFault::*;
use buses::{CombinedBus, Fence, Page, Shift, SplitBus};
use std::test::Fail;

#[test]
fn shift_by_none() -> Result<(), Fail> {
    let code = [1, 2];
    let mut data = [7, 8];
    let Ok(bus) = SplitBus::new(&code, &mut data) else {
        return Err(Fail::new("refused"));
    };
    let accesses = [
        Code(1, Ok(2)),
        Write(1, 9, Ok(())),
        Read(1, Ok(9)),
        Write(2, 9, Err(NotFitted)),
        Code(0xFFFF, Err(NotFitted)),
    ];
    try_all(&mut Shift::new(bus, 0), &accesses)
}

// Address 1 of the layer is address 0 below, and 0 is FFFFH.
#[test]
fn shift_by_most(rt: HostRuntime) -> Result<(), Fail> {
    let code = [1, 2];
    let mut data = [7, 8];
    let Ok(bus) = SplitBus::new(&code, &mut data) else {
        return Err(Fail::new("refused"));
    };
    let accesses = [
        Code(0, Err(NotFitted)),
        Code(1, Ok(1)),
        Code(2, Ok(2)),
        Write(1, 9, Ok(())),
        Read(1, Ok(9)),
        Read(2, Ok(8)),
        Write(3, 9, Err(NotFitted)),
    ];
    try_all(&mut Shift::new(bus, 0xFFFF), &accesses)?;
    assert_eq!(rt; data[0], 9);
    Ok(())
}

#[test]
fn fence_of_one() -> Result<(), Fail> {
    let mut bytes = [1, 2, 3];
    let Ok(bus) = CombinedBus::new(&mut bytes) else {
        return Err(Fail::new("refused"));
    };
    let Ok(mut fence) = Fence::new(bus, 1, 1) else {
        return Err(Fail::new("refused"));
    };
    let accesses = [
        Write(0, 9, Ok(())),
        Write(1, 9, Err(Fenced)),
        Write(2, 9, Ok(())),
        Read(1, Ok(2)),
        Code(1, Ok(2)),
        Code(2, Ok(9)),
    ];
    try_all(&mut fence, &accesses)
}

// A fenced address with no data byte is not fitted.
#[test]
fn fence_of_all() -> Result<(), Fail> {
    let mut bytes = [1, 2, 3];
    let Ok(bus) = CombinedBus::new(&mut bytes) else {
        return Err(Fail::new("refused"));
    };
    let Ok(mut fence) = Fence::new(bus, 0, 0xFFFF) else {
        return Err(Fail::new("refused"));
    };
    let accesses = [
        Write(0, 9, Err(Fenced)),
        Write(2, 9, Err(Fenced)),
        Write(3, 9, Err(NotFitted)),
        Write(0xFFFF, 9, Err(NotFitted)),
        Read(2, Ok(3)),
    ];
    try_all(&mut fence, &accesses)
}

// A refused fence gives the bus below back.
#[test]
fn fence_refused(rt: HostRuntime) -> Result<(), Fail> {
    let mut bytes = [1, 2, 3];
    let Ok(bus) = CombinedBus::new(&mut bytes) else {
        return Err(Fail::new("refused"));
    };
    let Err(rejected) = Fence::new(bus, 2, 1) else {
        return Err(Fail::new("built"));
    };
    assert_eq!(rt; u8::from(rejected.refusal), 2);
    let mut below = rejected.given;
    try_all(&mut below, &[Write(1, 9, Ok(())), Code(1, Ok(9))])
}

// The page at 00H covers the data of the bus below; its code stays.
#[test]
fn first_page(rt: HostRuntime) -> Result<(), Fail> {
    let mut bytes = [5; 257];
    let Ok(bus) = CombinedBus::new(&mut bytes) else {
        return Err(Fail::new("refused"));
    };
    let accesses = [
        Exchange(0, 1, Ok(0)),
        Exchange(0xFF, 9, Ok(0)),
        Read(0xFF, Ok(9)),
        Read(0xFE, Ok(0)),
        Code(0xFF, Ok(5)),
        Exchange(0x100, 8, Ok(5)),
        Code(0x100, Ok(8)),
        Read(0x101, Err(NotFitted)),
    ];
    try_all(&mut Page::new(bus, 0), &accesses)?;
    assert_eq!(rt; bytes[255], 5);
    Ok(())
}

// The page at FFH has data where the bus below has none.
#[test]
fn last_page() -> Result<(), Fail> {
    let mut bytes = [5];
    let Ok(bus) = CombinedBus::new(&mut bytes) else {
        return Err(Fail::new("refused"));
    };
    let accesses = [
        Read(0xFF00, Ok(0)),
        Exchange(0xFFFF, 9, Ok(0)),
        Read(0xFFFF, Ok(9)),
        Code(0xFFFF, Err(NotFitted)),
        Write(0xFEFF, 9, Err(NotFitted)),
        Read(0, Ok(5)),
    ];
    try_all(&mut Page::new(bus, 0xFF), &accesses)
}
