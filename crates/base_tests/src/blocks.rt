use object_words::blocks_for;

#[test]
fn blocks_of_words(rt: HostRuntime) {
    for (words, per_block, blocks) in [
        (0, 7, 1),
        (1, 7, 1),
        (7, 7, 1),
        (8, 7, 2),
        (14, 7, 2),
        (15, 7, 3),
        (u64::MAX, 1, u64::MAX),
    ] {
        assert_eq!(rt;
            blocks_for(words, per_block),
            blocks,
            "{words} words, {per_block} a block"
        );
    }
}
