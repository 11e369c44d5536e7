use rma_layout::{BadGeometry, DPtr, Geometry, Word};
use std::test::Fail;

const LAST_ID: u64 = 18_446_744_073_709_551_615;

#[test]
fn places(rt: HostRuntime) -> Result<(), Fail> {
    let standard = Geometry::standard();
    let small = Geometry::new(1, 8, 8, 2, 2)?;
    assert_eq!(rt; standard.home(5), 1);
    for (place, rank, block) in [
        (standard.bucket(5), 1, 2),
        (standard.bucket(LAST_ID), 3, 64),
        (standard.slot(3, LAST_ID), 3, 67),
        (small.slot(1, LAST_ID), 0, 3),
    ] {
        assert_eq!(rt; (place.rank(), place.block()), (rank, block));
        assert_eq!(rt; DPtr::new(rank, block), place);
    }
    Ok(())
}

#[test]
fn ranges(rt: HostRuntime) {
    for (ranks, blocks, words, buckets, slots, refusal) in [
        (1, 1_048_575, 60, 64, 16, None),
        (1, 1_048_575, 61, 64, 16, Some(BadGeometry::TooManyWords)),
        (64, 17, 64, 8, 8, None),
        (0, 0, 0, 0, 0, Some(BadGeometry::TooManyRanks)),
        (65, 0, 0, 0, 0, Some(BadGeometry::TooManyRanks)),
        (64, 16, 7, 0, 0, Some(BadGeometry::BadWords)),
        (64, 16, 64, 4097, 0, Some(BadGeometry::BadBuckets)),
        (64, 16, 64, 8, 65, Some(BadGeometry::BadSlots)),
        (64, 16, 64, 8, 8, Some(BadGeometry::BadBlocks)),
    ] {
        let made = Geometry::new(ranks, blocks, words, buckets, slots);
        assert_eq!(rt;
            made.err(),
            refusal,
            "at {ranks} {blocks} {words} {buckets} {slots}"
        );
    }
}

#[test]
fn readers(rt: HostRuntime) {
    let standard = Geometry::standard();
    standard.keeps_ranges();
    assert_eq!(rt;
        (standard.ranks(), standard.blocks(), standard.words()),
        (4, 16_384, 16)
    );
    assert_eq!(rt;
        (standard.buckets(), standard.slots(), standard.reserved()),
        (64, 16, 81)
    );
    assert!(rt; standard.is_reserved(DPtr::new(0, 80)));
    assert!(rt; !standard.is_reserved(DPtr::new(0, 81)));
    assert_eq!(rt; DPtr::new(32_767, 3).raw(), 0x7fff_0000_0000_0003);
}

#[test]
fn numbers(rt: HostRuntime) {
    let standard = Geometry::standard();
    let last = DPtr::new(3, 16_383);
    for (word, number) in [
        (Word::Lock(DPtr::new(0, 0)), 0),
        (Word::Lock(last), 1_310_700),
        (Word::Length(last), 1_310_701),
        (Word::FreeList(last), 1_310_702),
        (Word::Stamp(last), 1_310_703),
        (Word::Data(last, 15), 1_310_719),
        (Word::Head(3), 1_310_723),
        (Word::Gate, 1_310_724),
        (Word::Commit, 1_310_725),
    ] {
        assert_eq!(rt; standard.number(word), number);
    }
    assert_eq!(rt; standard.window_words(), 1_310_726);
}
