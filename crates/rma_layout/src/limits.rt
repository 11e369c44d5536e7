/// An object has at most so many words.
pub const MOST_WORDS: u64 = 1_048_576;
