ghost use Rattle.std.specs.Prelude.{◌≡◌, ◌<◌, ◌≤◌};
ghost use Rattle.object_words.specs.Blocks.{blocks_for};

/// How many blocks keep so many words, where each block keeps `per_block` of them: 1 at least.
pub fn blocks_for(words: u64, per_block: u64) -> u64
    requires { 0 < per_block }
    ensures { result ≡ blocks_for words per_block }
{
    words.div_ceil(per_block).max(1)
}
