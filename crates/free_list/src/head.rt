ghost use Rattle.std.specs.Prelude.{◌≡◌, ◌<◌, ◌^◌};
ghost use Rattle.free_list.specs.Heads as heads;

/// By so much a head is greater where its tag is one more.
const TAG: u64 = 1 << 20;

/// The tag of a head, at most `LAST_TAG`.
pub fn tag(head: u64) -> u64
    ensures tag { result ≡ heads.tag_of head }
    ensures small { result < 2 ^ 44 }
{
    head / TAG
}

/// The number of the first block of the list behind a head, 0 if the list is empty.
pub fn first(head: u64) -> u64
    ensures first { result ≡ heads.first_of head }
    ensures small { result < 2 ^ 20 }
{
    head % TAG
}

/// The head with this tag, of a list that begins with this block of its rank.
pub fn head_of(tag: u64, block: u64) -> u64
    requires tag { tag < 2 ^ 44 }
    requires block { block < 2 ^ 20 }
    ensures head { result ≡ heads.head_of tag block }
    ensures tag { heads.tag_of result ≡ tag }
    ensures first { heads.first_of result ≡ block }
{
    tag * TAG + block
}
