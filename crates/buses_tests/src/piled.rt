use crate::access::Access::*;
use crate::access::try_all;
use crate::piles::shift_page_fence;
use buses::BusFault::*;
use buses::{CombinedBus, Fence, Page, Shift};
use std::test::Fail;

// A page over a fence can be written; a fence over a page cannot.
#[test]
fn page_and_fence() -> Result<(), Fail> {
    let mut bytes = [5; 512];
    let Ok(bus) = CombinedBus::new(&mut bytes) else {
        return Err(Fail::new("refused"));
    };
    let Ok(below) = Fence::new(bus, 0xFF, 0x101) else {
        return Err(Fail::new("refused"));
    };
    let mut page = Page::new(below, 1);
    try_all(
        &mut page,
        &[
            Exchange(0xFF, 9, Err(Fenced)),
            Exchange(0x100, 9, Ok(0)),
            Read(0x100, Ok(9)),
        ],
    )?;
    let Ok(mut fence) = Fence::new(page, 0x100, 0x100) else {
        return Err(Fail::new("refused"));
    };
    let accesses = [
        Exchange(0x100, 7, Err(Fenced)),
        Exchange(0x101, 7, Ok(0)),
        Read(0x100, Ok(9)),
        Code(0x101, Ok(5)),
    ];
    try_all(&mut fence, &accesses)
}

// A shift over a page moves the page; a page over a shift stays at its addresses.
#[test]
fn page_and_shift() -> Result<(), Fail> {
    let mut bytes = [5; 513];
    let Ok(bus) = CombinedBus::new(&mut bytes) else {
        return Err(Fail::new("refused"));
    };
    let mut moved = Shift::new(Page::new(bus, 1), 0xFF);
    let accesses = [
        Exchange(0, 9, Ok(5)),
        Code(0, Ok(9)),
        Exchange(1, 8, Ok(0)),
        Code(1, Ok(5)),
    ];
    try_all(&mut moved, &accesses)?;
    let accesses = [
        Exchange(1, 6, Ok(0)),
        Read(1, Ok(6)),
        Code(0, Ok(9)),
        Exchange(0x100, 4, Ok(0)),
        Exchange(0x101, 4, Ok(5)),
        Code(0x101, Ok(4)),
    ];
    try_all(&mut Page::new(moved, 0), &accesses)
}

// A shift over a fence moves the fence; a fence over a shift has its own addresses.
#[test]
fn fence_and_shift() -> Result<(), Fail> {
    let mut bytes = [5; 4];
    let Ok(bus) = CombinedBus::new(&mut bytes) else {
        return Err(Fail::new("refused"));
    };
    let Ok(below) = Fence::new(bus, 2, 2) else {
        return Err(Fail::new("refused"));
    };
    let mut moved = Shift::new(below, 1);
    try_all(
        &mut moved,
        &[
            Exchange(1, 9, Err(Fenced)),
            Exchange(2, 9, Ok(5)),
            Exchange(0xFFFF, 9, Ok(5)),
        ],
    )?;
    let Ok(mut fence) = Fence::new(moved, 2, 3) else {
        return Err(Fail::new("refused"));
    };
    let accesses = [
        Exchange(2, 7, Err(Fenced)),
        Exchange(3, 7, Err(NotFitted)),
        Exchange(0, 7, Ok(5)),
        Code(0, Ok(7)),
        Code(2, Ok(9)),
    ];
    try_all(&mut fence, &accesses)
}

// Shift over page over fence.
#[test]
fn shift_on_top(rt: HostRuntime) -> Result<(), Fail> {
    let mut bytes = [5; 1024];
    let Ok(bus) = CombinedBus::new(&mut bytes) else {
        return Err(Fail::new("refused"));
    };
    let Ok(mut pile) = shift_page_fence(bus, 0x200, 0x2FF, 1, 0x100) else {
        return Err(Fail::new("refused"));
    };
    let accesses = [
        Exchange(0, 9, Ok(0)),
        Code(0, Ok(5)),
        Exchange(0x100, 9, Err(Fenced)),
        Exchange(0x200, 9, Ok(5)),
        Code(0x200, Ok(9)),
        Exchange(0xFF00, 8, Ok(5)),
        Code(0xFF00, Ok(8)),
        Exchange(0x300, 8, Err(NotFitted)),
    ];
    try_all(&mut pile, &accesses)?;
    assert_eq!(rt; bytes[0x300], 9);
    Ok(())
}

// Fence over shift over page.
#[test]
fn fence_on_top(rt: HostRuntime) -> Result<(), Fail> {
    let mut bytes = [5; 512];
    let Ok(bus) = CombinedBus::new(&mut bytes) else {
        return Err(Fail::new("refused"));
    };
    let Ok(mut pile) = Fence::new(Shift::new(Page::new(bus, 0), 0xFF00), 0x100, 0x17F) else {
        return Err(Fail::new("refused"));
    };
    let accesses = [
        Exchange(0x100, 9, Err(Fenced)),
        Exchange(0x180, 9, Ok(0)),
        Code(0x180, Ok(5)),
        Exchange(0x200, 9, Ok(5)),
        Code(0x200, Ok(9)),
        Exchange(0, 9, Err(NotFitted)),
    ];
    try_all(&mut pile, &accesses)?;
    assert_eq!(rt; bytes[0x100], 9);
    Ok(())
}

// Page over fence over shift.
#[test]
fn page_on_top(rt: HostRuntime) -> Result<(), Fail> {
    let mut bytes = [5; 512];
    let Ok(bus) = CombinedBus::new(&mut bytes) else {
        return Err(Fail::new("refused"));
    };
    let Ok(below) = Fence::new(Shift::new(bus, 0xFF00), 0x1FF, 0x280) else {
        return Err(Fail::new("refused"));
    };
    let accesses = [
        Exchange(0x1FE, 9, Ok(5)),
        Code(0x1FE, Ok(9)),
        Exchange(0x1FF, 9, Err(Fenced)),
        Exchange(0x200, 9, Ok(0)),
        Code(0x200, Ok(5)),
        Exchange(0x300, 9, Err(NotFitted)),
    ];
    try_all(&mut Page::new(below, 2), &accesses)?;
    assert_eq!(rt; bytes[0xFE], 9);
    Ok(())
}
