use lock_words::{MARK, Want, conflicts};

#[test]
fn wants_and_words(rt: HostRuntime) {
    for (want, word, conflict) in [
        (Want::Share, 4_294_967_296, true),
        (Want::Mark, 1, true),
        (Want::Rise, 2, true),
        (Want::Rise, 0, true),
        (Want::Writer, 4_294_967_296, true),
        (Want::Whole, 3, true),
        (Want::Share, 5, false),
        (Want::Mark, 0, false),
        (Want::Rise, 1, false),
        (Want::Writer, 3, false),
        (Want::Whole, 4_294_967_296, false),
    ] {
        assert_eq!(rt; conflicts(want, word), conflict, "{want:?} at {word}");
    }
    assert_eq!(rt; MARK, 4_294_967_296);
}
