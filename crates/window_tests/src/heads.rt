use free_list::{LAST_TAG, first, head_of, tag};

#[test]
fn heads_have_a_tag_and_a_block(rt: HostRuntime) {
    for (head, its_tag, block) in [
        (0, 0, 0),
        (5, 0, 5),
        (1_048_582, 1, 6),
        (3_145_728, 3, 0),
        (18_446_744_073_708_503_045, LAST_TAG, 5),
        (u64::MAX, LAST_TAG, 1_048_575),
    ] {
        assert_eq!(rt; tag(head), its_tag, "{head}");
        assert_eq!(rt; first(head), block, "{head}");
    }
    assert_eq!(rt; head_of(1, 6), 1_048_582);
    assert_eq!(rt; head_of(LAST_TAG, 5), 18_446_744_073_708_503_045);
}
