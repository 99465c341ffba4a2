use crate::access::Access::*;
use crate::access::try_all;
use buses::BusFault::*;
use buses::{CombinedBus, Rejected, SplitBus};
use std::test::Fail;

#[test]
fn split_edges(rt: HostRuntime) -> Result<(), Fail> {
    let code = [1, 2, 3];
    let mut data = [7, 8];
    let Ok(mut bus) = SplitBus::new(&code, &mut data) else {
        return Err(Fail::new("refused"));
    };
    let accesses = [
        Code(2, Ok(3)),
        Code(3, Err(NotFitted)),
        Code(0xFFFF, Err(NotFitted)),
        Read(1, Ok(8)),
        Read(2, Err(NotFitted)),
        Write(2, 9, Err(NotFitted)),
        Write(1, 9, Ok(())),
        Read(1, Ok(9)),
        Code(1, Ok(2)),
    ];
    try_all(&mut bus, &accesses)?;
    assert_eq!(rt; data[1], 9);
    Ok(())
}

#[test]
fn combined_edges(rt: HostRuntime) -> Result<(), Fail> {
    let mut bytes = [6, 7];
    let Ok(mut bus) = CombinedBus::new(&mut bytes) else {
        return Err(Fail::new("refused"));
    };
    let accesses = [
        Write(1, 5, Ok(())),
        Read(1, Ok(5)),
        Code(1, Ok(5)),
        Code(0, Ok(6)),
        Code(2, Err(NotFitted)),
        Read(0xFFFF, Err(NotFitted)),
        Write(2, 5, Err(NotFitted)),
    ];
    try_all(&mut bus, &accesses)?;
    assert_eq!(rt; bytes[1], 5);
    Ok(())
}

// 65,536 bytes reach the last address.
#[test]
fn last_address() -> Result<(), Fail> {
    let code = [4; 65536];
    let mut data = [0; 65536];
    let Ok(mut split) = SplitBus::new(&code, &mut data) else {
        return Err(Fail::new("refused"));
    };
    try_all(
        &mut split,
        &[
            Code(0xFFFF, Ok(4)),
            Write(0xFFFF, 9, Ok(())),
            Read(0xFFFF, Ok(9)),
        ],
    )?;
    let Ok(mut combined) = CombinedBus::new(&mut data) else {
        return Err(Fail::new("refused"));
    };
    try_all(
        &mut combined,
        &[
            Code(0xFFFF, Ok(9)),
            Write(0xFFFF, 3, Ok(())),
            Code(0xFFFF, Ok(3)),
        ],
    )
}

// The number with which a builder refuses, and 0 where it builds.
fn number<S: Drop, T: Drop>(built: Result<S, Rejected<T>>) -> u8 {
    match built {
        Ok(_) => 0,
        Err(rejected) => u8::from(rejected.refusal),
    }
}

#[test]
fn split_sizes(rt: HostRuntime) {
    let mut none: [u8; 0] = [];
    let mut one = [5];
    let mut most = [0; 65536];
    let mut above = [0; 65537];
    assert_eq!(rt; number(SplitBus::new(&none, &mut one)), 1);
    assert_eq!(rt; number(SplitBus::new(&one, &mut none)), 1);
    assert_eq!(rt; number(SplitBus::new(&above, &mut most)), 1);
    assert_eq!(rt; number(SplitBus::new(&most, &mut above)), 1);
    assert_eq!(rt; number(SplitBus::new(&most, &mut one)), 0);
    assert_eq!(rt; number(SplitBus::new(&one, &mut most)), 0);
}

#[test]
fn combined_sizes(rt: HostRuntime) {
    assert_eq!(rt; number(CombinedBus::new(&mut [])), 1);
    assert_eq!(rt; number(CombinedBus::new(&mut [5])), 0);
    assert_eq!(rt; number(CombinedBus::new(&mut [0; 65536])), 0);
    assert_eq!(rt; number(CombinedBus::new(&mut [0; 65537])), 1);
}

// A refused builder gives the memory back as it was.
#[test]
fn given_back(rt: HostRuntime) -> Result<(), Fail> {
    let mut above = [7; 65537];
    let Err(rejected) = CombinedBus::new(&mut above) else {
        return Err(Fail::new("built"));
    };
    assert!(rt; rejected.given.len() == 65537);
    assert_eq!(rt; rejected.given[0], 7);
    assert_eq!(rt; rejected.given[65536], 7);
    Ok(())
}
