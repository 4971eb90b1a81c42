//! Messages that are not shown, since nothing takes them in time.
use arrayvec::ArrayVec;
use bench_live::Show;
use ch11_f1::Record;
use std::test::Fail;

/// Three words to terminal 5, subaddress 1, at 12 s and 0.5 us, answered after 8 us. A command word is address, T/R,
/// subaddress and count; bit 13 of the block status word says bus B.
fn message() -> Record {
    let mut words = ArrayVec::new();
    let _ = words.try_extend_from_slice(&[0x2823, 1, 2, 3, 0x2800]);
    Record {
        stamp: 120_000_005,
        block: 0x2000,
        gaps: 80,
        words,
    }
}

#[test]
fn what_finds_no_room_is_counted(rt: HostRuntime) -> Result<(), Fail> {
    let show = Show::new(rt.alloc())?;
    for number in 0..4098u32 {
        show.take(&rt, 3, number, &message());
    }
    assert_eq!(&rt; show.lost(), 2);
    Ok(())
}
